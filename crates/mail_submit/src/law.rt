ghost use Rattle.std.specs.Prelude.{◌≡◌, List, ℕ, Bool, true};
ghost use Rattle.mail_submit.specs.Examples.{input, sent, text};
ghost use Rattle.mail_submit.specs.Inputs.{message_of, read};
ghost use Rattle.mail_submit.specs.Submissions.{IsSubmission};
ghost use Rattle.mail_submit.specs.declared.submission.Submission.{Submission};

use mail_header::one_split;

/// A message's text hands over one thing at most.
pub fn one_submission()
    ensures { (text : List ℕ) (from_headers : Bool) (one other : Submission)
        → IsSubmission text from_headers one → IsSubmission text from_headers other → one ≡ other }
{
    // A law: a text is split in one way.
    one_split();
}

/// The worked example of `specs/Examples.antt` comes to what is said there.
pub fn worked_example()
    ensures ended { (read true input).ended ≡ true }
    ensures message { message_of true (read true input) ≡ text }
    ensures sent { IsSubmission text true sent }
{}
