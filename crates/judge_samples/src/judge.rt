ghost use Rattle.std.specs.Prelude.{◌≡◌, ◌<◌, ◌≤◌, IfOk, length};
ghost use Rattle.mail_base.specs.Answering.{Answerer};
ghost use Rattle.mail_base.specs.Histories.{Rose};
ghost use Rattle.mail_base.specs.Refusals.{IsRefusal};
ghost use Rattle.mail_base.specs.Texts.{IsAddress, IsBracketed, IsSaid};
ghost use Rattle.mail_base.specs.Drawing.{AreRows, IsDrawn};
ghost use Rattle.smtp_receive.specs.Judging.{IsFormedSaid, OfRecipient, Question, Said};

use mail_base::{
    Cause, Draw, JudgeFault, Kept, NoMemory, Note, Resolved, RouteError, Seq, Status, Text, Triple,
    TryCopy,
};
use smtp_receive::{Judge, Verdict};
use std::alloc::Global;

/// A judge that goes by the first letters of a path: it refuses `no`, can't read a file at `fault`,
/// gives two rows to `twin`, and one to any other. It tells nothing.
#[derive(Drop)]
pub struct TestJudge {
    /// How many calls have failed.
    pub faults: u64,
}

impl TestJudge {
    /// A judge of which no call has failed.
    pub fn new() -> TestJudge
        ensures { result.faults ≡ 0 }
    {
        TestJudge { faults: 0 }
    }

    fn fail(&mut self)
        ensures later { self.old.faults ≤ self.new.faults }
        ensures rose { Rose self.old.faults self.new.faults }
    {
        self.faults = self.faults.saturating_add(1);
    }
}

impl Judge for TestJudge {
    ghost use Rattle.std.specs.Prelude.{false};

    ghost seen = { λ judge. record { faults = judge.faults; tells = false } };

    ghost answers = { λ _ _ _. Unit {0} };

    ghost fixed = { λ _. tt };

    fn sender(
        &mut self,
        alloc: Global,
        path: &Text,
        _kept: &Kept,
    ) -> Result<Option<RouteError>, JudgeFault> {
        if path.bytes().starts_with(b"<fault") {
            self.fail();
            return Err(JudgeFault::FilesFault);
        }
        if path.bytes().starts_with(b"<no") {
            return Ok(Some(refusal(alloc)?));
        }
        Ok(None)
    }

    fn recipient(
        &mut self,
        alloc: Global,
        path: &Text,
        sender: &Text,
        _kept: &Kept,
    ) -> Result<Verdict, JudgeFault> {
        if path.bytes().starts_with(b"<fault") {
            self.fail();
            return Err(JudgeFault::FilesFault);
        }
        Ok(verdict(alloc, path, sender)?)
    }
}

fn verdict(alloc: Global, path: &Text, sender: &Text) -> Result<Verdict, NoMemory>
    requires path { IsBracketed path.now }
    requires sender { IsBracketed sender.now }
    ensures { IfOk result (λ verdict. IsFormedSaid (OfRecipient verdict)) }
{
    if path.bytes().starts_with(b"<no") {
        return Ok(Verdict::No(refusal(alloc)?));
    }
    // A path with its angles has some bytes.
    if path.len() == 0 {
        return Err(NoMemory);
    }
    Ok(Verdict::Rows(rows(alloc, path, sender)?))
}

fn refusal(alloc: Global) -> Result<RouteError, NoMemory>
    ensures { IfOk result IsRefusal }
{
    let Some(status) = Status::of(b"5.7.1") else {
        return Err(NoMemory);
    };
    Ok(RouteError {
        text: refused(alloc)?,
        cause: Cause::ErrorMailer,
        code: 550,
        status,
    })
}

fn refused(alloc: Global) -> Result<Text, NoMemory>
    ensures some { IfOk result (λ text. 0 < length text) }
    ensures line { IfOk result IsSaid }
{
    let Some(note) = Note::of(b"Refused") else {
        return Err(NoMemory);
    };
    Text::of(alloc, note.bytes())
}

fn rows(alloc: Global, path: &Text, sender: &Text) -> Result<Seq<Draw>, NoMemory>
    requires path { IsAddress path.now }
    requires sender { IsBracketed sender.now }
    ensures { IfOk result AreRows }
{
    if path.bytes().starts_with(b"<twin") {
        two_rows(alloc, path, sender)
    } else {
        one_row(alloc, path, sender)
    }
}

#[tactic(auto, unfolding(mail_base::specs::Limits::most_rows))]
fn one_row(alloc: Global, path: &Text, sender: &Text) -> Result<Seq<Draw>, NoMemory>
    requires path { IsAddress path.now }
    requires sender { IsBracketed sender.now }
    ensures { IfOk result AreRows }
{
    let mut rows = Seq::new(alloc);
    rows.push(row(path, sender)?)?;
    Ok(rows)
}

#[tactic(auto, unfolding(mail_base::specs::Limits::most_rows))]
fn two_rows(alloc: Global, path: &Text, sender: &Text) -> Result<Seq<Draw>, NoMemory>
    requires path { IsAddress path.now }
    requires sender { IsBracketed sender.now }
    ensures { IfOk result AreRows }
{
    let mut rows = Seq::new(alloc);
    rows.push(row(path, sender)?)?;
    rows.push(row(path, sender)?)?;
    Ok(rows)
}

fn row(path: &Text, sender: &Text) -> Result<Draw, NoMemory>
    requires path { IsAddress path.now }
    requires sender { IsBracketed sender.now }
    ensures { IfOk result IsDrawn }
{
    Ok(Draw {
        address: path.copy()?,
        sender: sender.copy()?,
        primary: true,
        resolved: Resolved::Goes(nowhere(path.allocator())),
    })
}

fn nowhere(alloc: Global) -> Triple {
    Triple {
        mailer: Text::new(alloc),
        host: Text::new(alloc),
        user: Text::new(alloc),
    }
}
