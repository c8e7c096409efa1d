ghost use Rattle.std.specs.Prelude.{◌≡◌, ◌<◌, ◌≤◌, List, ℕ, Bool, Result, Some, length};
ghost use Rattle.mail_base.specs.declared.message.Message.{Message};
ghost use Rattle.mail_edge.specs.Seen.{FileMap, SourceSeen};
ghost use Rattle.mail_judge.specs.Judged.{Grounds};
ghost use Rattle.mail_submit.specs.Inputs.{message_of, read};
ghost use Rattle.mail_submit.specs.declared.words.SubmitWords.{SubmitWords};
ghost use Rattle.submit_run.specs.Inputs.{IsLarge, IsRead};
ghost use Rattle.submit_run.specs.Messages.{IsHandedOver};
ghost use Rattle.submit_run.specs.declared.end.SubmitEnd.{SubmitEnd};

use alias_expand::one_expansion;
use mail_submit::one_submission;

/// A text that is handed over comes to one thing at most, where the files are told: to one message,
/// or to one refusal.
pub fn one_outcome()
    ensures { (grounds : Grounds) (files : FileMap) (words : SubmitWords) (text : List ℕ)
        (one another : Result Message SubmitEnd)
        → IsHandedOver grounds (Some files) words text one
        → IsHandedOver grounds (Some files) words text another → one ≡ another }
{
    // Laws: an address comes to one outcome, and a text hands over one thing.
    one_expansion();
    one_submission();
}

/// Where the input is told, its text hangs on all that was left of it, and on nothing else: however
/// many bytes are taken at once, and behind the line `.` too. It is too large exactly where that
/// text has more bytes than it may have.
pub fn the_text_is_that_of_the_whole_input()
    ensures text { (dot : Bool) (most : ℕ) (before after : SourceSeen) (bytes text : List ℕ)
        → before.left ≡ Some bytes → IsRead dot most before after text
        → text ≡ message_of dot (read dot bytes) }
    ensures within { (dot : Bool) (most : ℕ) (before after : SourceSeen) (bytes text : List ℕ)
        → before.left ≡ Some bytes → IsRead dot most before after text
        → length (message_of dot (read dot bytes)) ≤ most }
    ensures large { (dot : Bool) (most : ℕ) (before after : SourceSeen) (bytes : List ℕ)
        → before.left ≡ Some bytes → IsLarge dot most before after
        → most < length (message_of dot (read dot bytes)) }
{}
