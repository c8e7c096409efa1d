ghost use Rattle.std.specs.Prelude.{◌≡◌, true, IfOk};
ghost use Rattle.mail_base.specs.Answering.{Answerer, HasAnswered, HasJudgeCause, TellsOne, is_calm};
ghost use Rattle.mail_base.specs.Texts.{IsBracketed};
ghost use Rattle.smtp_receive.specs.Judging.{AsksRecipient, AsksSender, IsFormedSaid, OfRecipient, OfSender, Question, Said, as_said};

use mail_base::{Draw, JudgeFault, Kept, RouteError, Seq, Text};
use std::alloc::Global;

/// What a judge says of a recipient.
#[derive(Drop)]
pub enum Verdict {
    /// It goes to these rows.
    Rows(Seq<Draw>),
    /// It is refused.
    No(RouteError),
}

/// What judges the paths of a session: the sender of MAIL and the recipients of RCPT. A path has
/// its angles, and `kept` is what is kept of the session so far. A `FilesFault` comes only where
/// the count of faults rose in this call, and the count rises in no other.
pub trait Judge {
    /// Its count of faults, and whether it tells its answers.
    ghost seen: { Self → Answerer };

    /// The test of an answer: whether this is what it says of a question.
    ghost answers: { Self → Question → Said → Type 0 };

    /// What no call changes of it, as the reference by which it reads files.
    ghost Fixed: { Type 0 } = { Unit {0} };

    ghost fixed: { Self → Self.Fixed };

    /// Why a sender is refused, or `None`. A refusal has a code from 400 to 599, a status and a
    /// text within one line.
    fn sender(
        &mut self,
        alloc: Global,
        path: &Text,
        kept: &Kept,
    ) -> Result<Option<RouteError>, JudgeFault>
        requires { IsBracketed path.now }
        ensures form { IfOk result (λ refusal. IsFormedSaid (OfSender refusal)) }
        ensures told { HasAnswered (seen self.old) (seen self.new) (answers self.old)
            (answers self.new) (AsksSender path.now kept.now) (as_said OfSender result) }
        ensures one { TellsOne (seen self.old) (answers self.old)
            (AsksSender path.now kept.now) }
        ensures cause { HasJudgeCause (seen self.old).faults (seen self.new).faults result }
        ensures calm { is_calm result ≡ true
            → (seen self.new).faults ≡ (seen self.old).faults }
        ensures fixed { fixed self.new ≡ fixed self.old };

    /// The rows of a recipient, 1 to 10,000, or why it is refused.
    fn recipient(
        &mut self,
        alloc: Global,
        path: &Text,
        sender: &Text,
        kept: &Kept,
    ) -> Result<Verdict, JudgeFault>
        requires path { IsBracketed path.now }
        requires sender { IsBracketed sender.now }
        ensures form { IfOk result (λ verdict. IsFormedSaid (OfRecipient verdict)) }
        ensures told { HasAnswered (seen self.old) (seen self.new) (answers self.old)
            (answers self.new) (AsksRecipient path.now sender.now kept.now)
            (as_said OfRecipient result) }
        ensures one { TellsOne (seen self.old) (answers self.old)
            (AsksRecipient path.now sender.now kept.now) }
        ensures cause { HasJudgeCause (seen self.old).faults (seen self.new).faults result }
        ensures calm { is_calm result ≡ true
            → (seen self.new).faults ≡ (seen self.old).faults }
        ensures fixed { fixed self.new ≡ fixed self.old };
}
