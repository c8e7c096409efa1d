ghost use Rattle.std.specs.Prelude.{◌≡◌};
ghost use Rattle.mail_base.specs.Configs.{default_options};

/// The operators of addresses where no configuration names others (Sendmail Installation and
/// Operation Guide, OperatorChars): those that the options have before any line.
pub fn default_operators() -> &'static [u8]
    ensures { result.now ≡ default_options.operator_chars }
{
    b".:@[]"
}
