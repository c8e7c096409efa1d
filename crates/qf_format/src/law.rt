ghost use Rattle.std.specs.Prelude.{◌≡◌};
ghost use Rattle.mail_base.specs.declared.control.Control.{Control};
ghost use Rattle.qf_format.specs.Spelling.{spelled};
ghost use Rattle.qf_format.specs.Valid.{IsValid};

/// No two valid controls have the same text.
pub fn one_spelling()
    ensures { (one another : Control) → IsValid one → IsValid another
        → spelled one ≡ spelled another → one ≡ another }
{}
