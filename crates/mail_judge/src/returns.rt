ghost use Rattle.std.specs.Prelude.{◌≡◌, ℕ, IfOk, List, Option, Err, not};
ghost use Rattle.mail_base.specs.Answering.{is_calm};
ghost use Rattle.mail_base.specs.Drawing.{AreDrawn, null_sender};
ghost use Rattle.mail_base.specs.Texts.{IsAddress};
ghost use Rattle.mail_base.specs.declared.draw.Draw.{Draw as TheDraw};
ghost use Rattle.mail_edge.specs.Asking.{Asks};
ghost use Rattle.mail_edge.specs.Seen.{FileMap};
ghost use Rattle.alias_expand.specs.Rows.{IsMeant, is_files_fault};
ghost use Rattle.mail_judge.specs.Judged.{answerer_of, site_in};
ghost use Rattle.mail_judge.specs.Returned.{IsItself, ReturnsTo};

use crate::grounds::Grounds;
use crate::judge::Rules;
use crate::law::one_return;
use addr_route::route;
use alias_expand::{ExpandRefusal, null_sender_stays};
use mail_base::{Draw, Draws, JudgeFault, Macros, NoMemory, Seq, Text, TryCopy};
use mail_edge::Files;
use std::alloc::Global;

// The rows of a receiver are those that its aliases give it, each with the sender `<>`, or where
// they give none the receiver itself. The check sets aren't asked.
impl<F: Files> Draws for Rules<'_, F> {
    ghost seen = { λ rules. answerer_of (F.seen rules.files.now) };

    ghost answers = { λ rules. ReturnsTo rules.grounds.now (F.seen rules.files.now).map };

    // The reference to its files, and what these tell.
    ghost Fixed = { ℕ × Option FileMap };

    ghost fixed = { λ rules. (rules.files.ghost_name, (F.seen rules.files.now).map) };

    fn draw(&mut self, alloc: Global, address: &Text) -> Result<Seq<Draw>, JudgeFault> {
        // A law: a receiver has one list of rows.
        one_return();
        rows_of(alloc, self.grounds, self.files, address)
    }
}

// The rows of a receiver.
fn rows_of<F: Files>(
    alloc: Global,
    grounds: &Grounds,
    files: &mut F,
    address: &Text,
) -> Result<Seq<Draw>, JudgeFault>
    requires { IsAddress address.now }
    ensures returns { IfOk result (ReturnsTo grounds.now (F.seen files.old).map address.now) }
    ensures form { IfOk result AreDrawn }
    ensures asks { Asks (F.seen files.old) (F.seen files.new) (not (is_calm result)) }
{
    let macros = &grounds.config.macros;
    let sender = Text::of(alloc, b"<>")?;
    drawn(alloc, grounds, files, macros, address, &sender)
}

// The rows of its aliases, or of itself.
fn drawn<F: Files>(
    alloc: Global,
    grounds: &Grounds,
    files: &mut F,
    macros: &Macros,
    address: &Text,
    sender: &Text,
) -> Result<Seq<Draw>, JudgeFault>
    requires address { IsAddress address.now }
    requires macros { macros.now ≡ grounds.now.config.macros }
    requires sender { sender.now ≡ null_sender }
    ensures returns { IfOk result (ReturnsTo grounds.now (F.seen files.old).map address.now) }
    ensures form { IfOk result AreDrawn }
    ensures asks { Asks (F.seen files.old) (F.seen files.new) (not (is_calm result)) }
{
    // A law: the rows of a null sender have it.
    null_sender_stays();
    match grounds.expand(alloc, macros, files, address, sender) {
        Ok(rows) => Ok(rows),
        Err(refusal) => instead(alloc, grounds, macros, address, &refusal),
    }
}

// The receiver itself, whose aliases give no rows, or the fault.
fn instead(
    alloc: Global,
    grounds: &Grounds,
    macros: &Macros,
    address: &Text,
    refusal: &ExpandRefusal,
) -> Result<Seq<Draw>, JudgeFault>
    ensures itself { IfOk result (IsItself (site_in grounds.now macros.now) address.now) }
    ensures meant { IfOk result (λ rows. IsMeant (Err refusal.now)) }
    ensures fault { not (is_calm result) ≡ is_files_fault {T = List TheDraw} (Err refusal.now) }
{
    match refusal {
        ExpandRefusal::FilesFault => Err(JudgeFault::FilesFault),
        ExpandRefusal::NoMemory => Err(JudgeFault::NoMemory),
        _ => Ok(itself(alloc, grounds, macros, address)?),
    }
}

// The row of the receiver itself.
fn itself(
    alloc: Global,
    grounds: &Grounds,
    macros: &Macros,
    address: &Text,
) -> Result<Seq<Draw>, NoMemory>
    ensures { IfOk result (IsItself (site_in grounds.now macros.now) address.now) }
{
    let mut rows = Seq::new(alloc);
    rows.push(Draw {
        address: address.copy()?,
        sender: Text::of(alloc, b"<>")?,
        primary: true,
        resolved: route(alloc, grounds.config, grounds.maps, macros, address, true)?,
    })?;
    Ok(rows)
}
