ghost use Rattle.std.specs.Prelude.{◌≡◌, ℕ, List, IfOk, true};
ghost use Rattle.mail_base.specs.Answering.{Answerer, HasAnswered, HasJudgeCause, TellsOne, is_calm};
ghost use Rattle.mail_base.specs.Drawing.{AreDrawn};
ghost use Rattle.mail_base.specs.Texts.{IsAddress};
ghost use Rattle.mail_base.specs.declared.draw.Draw.{Draw};

use crate::{JudgeFault, NoMemory, Resolved, Seq, Text, TryCopy};
use std::alloc::Global;

/// A row of an address, after aliases.
#[derive(Drop)]
pub struct Draw {
    pub address: Text,
    /// The sender of this row, with its brackets.
    pub sender: Text,
    /// Whether the row stands for the address itself.
    pub primary: bool,
    pub resolved: Resolved,
}

/// What draws the rows of the receiver of returned mail.
pub trait Draws {
    /// Its count of faults, and whether it tells its answers.
    ghost seen: { Self → Answerer };

    /// The test of an answer: whether these rows are those of an address.
    ghost answers: { Self → List ℕ → List Draw → Type 0 };

    /// What no call changes of it, as the reference by which it reads files.
    ghost Fixed: { Type 0 } = { Unit {0} };

    ghost fixed: { Self → Self.Fixed };

    /// The rows of a receiver: 1 to 10,000, each with the sender `<>`. A `FilesFault` comes only
    /// where the count of faults rose in this call, and the count rises in no other.
    fn draw(&mut self, alloc: Global, address: &Text) -> Result<Seq<Draw>, JudgeFault>
        requires { IsAddress address.now }
        ensures rows { IfOk result AreDrawn }
        ensures told { HasAnswered (seen self.old) (seen self.new)
            (answers self.old) (answers self.new) address.now result }
        ensures one { TellsOne (seen self.old) (answers self.old) address.now }
        ensures cause { HasJudgeCause (seen self.old).faults (seen self.new).faults result }
        ensures calm { is_calm result ≡ true
            → (seen self.new).faults ≡ (seen self.old).faults }
        ensures fixed { fixed self.new ≡ fixed self.old };
}

impl TryCopy for Draw {
    fn copy(&self) -> Result<Draw, NoMemory> {
        Ok(Draw {
            address: self.address.copy()?,
            sender: self.sender.copy()?,
            primary: self.primary,
            resolved: self.resolved.copy()?,
        })
    }
}
