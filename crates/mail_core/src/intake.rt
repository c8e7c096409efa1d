ghost use Rattle.std.specs.Prelude.{◌≡◌, ◌<◌, All, ◌⊎◌, ◌++◌, ◌∷◌, ◌^◌, [], List, ℕ, Bool, Option, None, IfOk, IfSome, IsErrOf, true, false};
ghost use Rattle.mail_base.specs.Histories.{Gains};
ghost use Rattle.mail_base.specs.declared.fault.StoreFault.TheVariants.{IdsSpent as NoIdLeft, SpoolFault as SpoolBroke};
ghost use Rattle.link_edge.specs.Heard.{IsSoundAt};
ghost use Rattle.smtp_lines.specs.declared.line.Line.{Line as AnyLine};
ghost use Rattle.smtp_lines.specs.declared.line.Line.TheVariants.{DataEnd};
ghost use Rattle.smtp_lines.specs.Reader.{OnlyLastAsks, StandsFirst};
ghost use Rattle.mail_base.specs.declared.config.Config.{Config as Configuration};
ghost use Rattle.smtp_receive.specs.Dialogue.{Heard, exchanges, is_dropped};
ghost use Rattle.smtp_receive.specs.Judging.{Said, Unasked};
ghost use Rattle.smtp_receive.specs.Replies.{out_of_memory_text};
ghost use Rattle.smtp_receive.specs.Sessions.{Stands as Speaks};
ghost use Rattle.spool_store.specs.Entries.{Table as Entries};
ghost use Rattle.queue_table.specs.Calls.{AreDirs, AreValid, IsSame, Tallies, store};
ghost use Rattle.mail_core.specs.Sites.{IsUnder, Site};
ghost use Rattle.mail_core.specs.Effects.{heard_of, speech, Sends, HangsUp};
ghost use Rattle.mail_core.specs.inner.Going.{AnswersLine, AnswersLines, AnswersMessage, Feeds, is_onward, stays_open};
ghost use Rattle.mail_core.specs.Causes.{is_judge_fault, is_well};
ghost use Rattle.mail_core.specs.Judges.{IsAsked, judging};
ghost use Rattle.mail_core.specs.Guests.{Guest, lines_of, lines_heard};
ghost use Rattle.mail_core.specs.Machine as machine;
ghost use Rattle.mail_core.specs.Machine.{moment_by};
ghost use Rattle.mail_made.specs.Messages.{headed};
ghost use Rattle.mail_made.specs.Planned.{IsMade, LacksIds};
ghost use Rattle.mail_base.specs.Drawing.{AreRows};
ghost use Rattle.mail_base.specs.Texts.{IsHeader};
ghost use Rattle.mail_base.specs.declared.message.Cut.{Cut as CutSeen};
ghost use Rattle.queue_plan.specs.Parts.{IsPart};
ghost use Rattle.mail_core.specs.Seen.{Beside, seen};
ghost use Rattle.mail_core.specs.Standing.{Keeps, Serves, Talks};
ghost use Rattle.mail_core.specs.inner.Handling.{IsReady};

use crate::caller::Caller;
use crate::next::Next;
use crate::serving::CoreStop;
use crate::speech::say;
use link_edge::Floor;
use mail_base::{Config, JudgeFault, Message, NoMemory, StoreFault, Text};
use mail_made::{has_class, moment_of, planned};
use map_tables::Maps;
use queue_table::{Accepting, Table};
use smtp_lines::{Line, last_asks};
use smtp_receive::{Did, Judge, out_of_memory};
use spool_disk::Spool;
use std::alloc::Global;

/// What takes messages into the queue: its table, the moment of the event, and the text of
/// 452 4.3.1, which is kept so that to send it takes no memory.
#[derive(Drop)]
pub struct Intake {
    pub(crate) alloc: Global,
    pub(crate) table: Table,
    pub(crate) short: Text,
    pub(crate) moment: u64,
}

impl Intake {
    pub(crate) fn new(alloc: Global, table: Table) -> Result<Intake, NoMemory>
        ensures parts { IfOk result (λ intake. (intake.table ≡ table) × (intake.moment ≡ 0)) }
        ensures short { IfOk result (λ intake. intake.short ≡ out_of_memory_text) }
    {
        Ok(Intake {
            alloc,
            table,
            short: out_of_memory(alloc)?,
            moment: 0,
        })
    }

    /// The clock was read. The moment is the greatest reading so far.
    pub(crate) fn at(&mut self, reading: u64)
        ensures range { self.new.moment < 2 ^ 64 }
        ensures moment { self.new ≡ record self.old { moment = moment_by self.old.moment reading } }
    {
        self.moment = self.moment.max(moment_of(reading));
    }

    // Says a reply to a session that goes on.
    fn reply<F: Floor>(floor: &mut F, session: u64, text: &Text) -> Next
        requires sound { IsSoundAt (F.seen floor.old) session }
        ensures told { Gains (F.seen floor.old).told (F.seen floor.new).told
            (heard_of (speech session text.now (stays_open result))) }
        ensures sound { stays_open result ≡ true → IsSoundAt (F.seen floor.new) session }
        ensures own { (F.seen floor.new).faults ≡ (F.seen floor.old).faults }
        ensures begun { (F.seen floor.new).begun ≡ (F.seen floor.old).begun }
        ensures next { (result ≡ Next.Continue) ⊎ (result ≡ Next.Closed) }
    {
        if say(floor, session, text) {
            return Next::Continue;
        }
        Next::Closed
    }

    // Says 354.
    fn grant<F: Floor>(floor: &mut F, session: u64, text: &Text) -> Next
        requires sound { IsSoundAt (F.seen floor.old) session }
        ensures told { Gains (F.seen floor.old).told (F.seen floor.new).told
            (heard_of (speech session text.now (stays_open result))) }
        ensures sound { stays_open result ≡ true → IsSoundAt (F.seen floor.new) session }
        ensures own { (F.seen floor.new).faults ≡ (F.seen floor.old).faults }
        ensures begun { (F.seen floor.new).begun ≡ (F.seen floor.old).begun }
        ensures next { (result ≡ Next.BeginData) ⊎ (result ≡ Next.Closed) }
    {
        if say(floor, session, text) {
            return Next::BeginData;
        }
        Next::Closed
    }

    // Says 452 4.3.1 to a line, which ends the transaction. It takes no memory.
    fn lack<F: Floor>(&self, floor: &mut F, caller: &mut Caller) -> Next
        requires sound { IsSoundAt (F.seen floor.old) caller.old.number }
        ensures told { Gains (F.seen floor.old).told (F.seen floor.new).told
            (heard_of (speech caller.old.number self.now.short (stays_open result))) }
        ensures sound { stays_open result ≡ true → IsSoundAt (F.seen floor.new) caller.old.number }
        ensures own { (F.seen floor.new).faults ≡ (F.seen floor.old).faults }
        ensures begun { (F.seen floor.new).begun ≡ (F.seen floor.old).begun }
        ensures next { (result ≡ Next.Continue) ⊎ (result ≡ Next.Closed) }
        ensures number { caller.new.number ≡ caller.old.number }
        ensures lines { caller.new.lines ≡ caller.old.lines }
        ensures line { (config : Configuration) (host peer : List ℕ) (heard : List Heard)
            (line : AnyLine)
            → Speaks caller.old.session config host peer heard
            → is_dropped (exchanges config peer heard) line ≡ false
            → Speaks caller.new.session config host peer
            (heard ++ record { line = line; said = Unasked; short = true; id = None } ∷ []) }
        ensures ended { (config : Configuration) (host peer : List ℕ) (heard : List Heard)
            (said says : Said) (a b : Bool) (i j : Option ℕ)
            → Speaks caller.old.session config host peer
            (heard ++ record { line = DataEnd; said = said; short = a; id = i } ∷ [])
            → Speaks caller.new.session config host peer
            (heard ++ record { line = DataEnd; said = says; short = b; id = j } ∷ []) }
    {
        caller.session.reset();
        Intake::reply(floor, caller.number, &self.short)
    }

    // Makes a message ready to be taken in.
    fn plan(
        &mut self,
        config: &Config,
        maps: &Maps,
        message: Message,
    ) -> Result<Accepting, StoreFault>
        requires dirs { AreDirs self.old.table.terms (store self.old.table).dirs }
        requires valid { (first : Option (List ℕ)) (cuts : List CutSeen) → IfSome first IsHeader
            → All IsPart cuts
            → AreValid self.old.table.terms (headed first message) self.old.moment cuts }
        requires rows { AreRows message.rows }
        ensures is { IfOk result
            (IsMade config.now maps.now self.old.moment (store self.old.table).next self.new.table
            message) }
        ensures id { IfOk result
            (λ accepting. accepting.parcel.parent.entry.id ≡ (store self.old.table).next) }
        ensures table { IsSame self.old.table self.new.table }
        ensures same { self.new ≡ record self.old { table = self.new.table } }
        ensures spent { IsErrOf result NoIdLeft
            → LacksIds config.now maps.now self.old.moment (store self.old.table).next message }
        ensures never { IsErrOf result SpoolBroke → ⊥ }
    {
        planned(
            self.alloc,
            config,
            maps,
            &mut self.table,
            self.moment,
            message,
        )
    }

    // Takes a message in, and acknowledges it once it is in the queue. The text of its 250 is made
    // before, so that nothing after the commit takes memory.
    fn accept<F: Floor, D: Spool>(
        &mut self,
        floor: &mut F,
        spool: &mut D,
        config: &Config,
        maps: &Maps,
        caller: &mut Caller,
        message: Message,
    ) -> Result<Next, CoreStop>
        requires sound { IsSoundAt (F.seen floor.old) caller.old.number }
        requires dirs { AreDirs self.old.table.terms (store self.old.table).dirs }
        requires valid { (first : Option (List ℕ)) (cuts : List CutSeen) → IfSome first IsHeader
            → All IsPart cuts
            → AreValid self.old.table.terms (headed first message) self.old.moment cuts }
        requires rows { AreRows message.rows }
        requires tallied { Tallies self.old.table (D.seen spool.old) }
        ensures accepts { (site : Site) (d : machine.Did) (side : Beside)
            → IsUnder site config.now maps.now → d.way ≡ machine.GoesOn
            → Serves site self.old d.table
            → caller.old.number ≡ d.guest.number → AnswersMessage site self.old.moment d message
            (seen (F.seen floor.old) (D.seen spool.old) side)
            (seen (F.seen floor.new) (D.seen spool.new) side)
            self.new caller.old caller.new result }
        ensures own { (F.seen floor.new).faults ≡ (F.seen floor.old).faults }
        ensures begun { (F.seen floor.new).begun ≡ (F.seen floor.old).begun }
        ensures unjudged { is_judge_fault result ≡ false }
        ensures calm { is_well result ≡ true
            → (D.seen spool.new).faults ≡ (D.seen spool.old).faults }
        ensures tallied { is_well result ≡ true
            → Tallies self.new.table (D.seen spool.new) }
        ensures moment { self.new.moment ≡ self.old.moment }
        ensures number { caller.new.number ≡ caller.old.number }
        ensures lines { caller.new.lines ≡ caller.old.lines }
        ensures sound { is_onward result ≡ true → IsSoundAt (F.seen floor.new) caller.old.number }
    {
        let accepting = match self.plan(config, maps, message) {
            Ok(accepting) => accepting,
            Err(StoreFault::IdsSpent) => return Err(CoreStop::IdsSpent),
            Err(StoreFault::SpoolFault) => return Err(CoreStop::SpoolFault),
            Err(StoreFault::NoMemory) => return Ok(self.lack(floor, caller)),
        };
        let Ok(text) = caller.session.stored(&accepting.id()) else {
            return Ok(self.lack(floor, caller));
        };
        self.table.accept_planned(spool, accepting)?;
        Ok(Intake::reply(floor, caller.number, &text))
    }

    // Answers a line.
    fn answer<F: Floor, D: Spool, J: Judge>(
        &mut self,
        floor: &mut F,
        spool: &mut D,
        config: &Config,
        maps: &Maps,
        judge: &mut J,
        caller: &mut Caller,
        line: &Line,
    ) -> Result<Next, CoreStop>
        requires sound { IsSoundAt (F.seen floor.old) caller.old.number }
        requires ready { IsReady self.old caller.old config.now maps.now }
        requires tallied { Tallies self.old.table (D.seen spool.old) }
        ensures answers { (site : Site) (d : machine.Did) (side : Beside)
            → IsUnder site config.now maps.now → d.way ≡ machine.GoesOn
            → Serves site self.old d.table → Talks site caller.old d.guest
            → AnswersLine (judging (J.seen judge.old) (J.answers judge.old)) site
            self.old.moment d line.now
            (seen (F.seen floor.old) (D.seen spool.old) side)
            (seen (F.seen floor.new) (D.seen spool.new) side)
            self.new caller.new result }
        ensures ready { is_onward result ≡ true → IsReady self.new caller.new config.now maps.now }
        ensures asked { IsAsked (judging (J.seen judge.old) (J.answers judge.old))
            (judging (J.seen judge.new) (J.answers judge.new)) (is_judge_fault result) }
        ensures fixed { J.fixed judge.new ≡ J.fixed judge.old }
        ensures own { (F.seen floor.new).faults ≡ (F.seen floor.old).faults }
        ensures begun { (F.seen floor.new).begun ≡ (F.seen floor.old).begun }
        ensures calm { is_well result ≡ true
            → (D.seen spool.new).faults ≡ (D.seen spool.old).faults }
        ensures tallied { is_well result ≡ true
            → Tallies self.new.table (D.seen spool.new) }
        ensures moment { self.new.moment ≡ self.old.moment }
        ensures number { caller.new.number ≡ caller.old.number }
        ensures lines { caller.new.lines ≡ caller.old.lines }
        ensures sound { is_onward result ≡ true → IsSoundAt (F.seen floor.new) caller.old.number }
    {
        match caller.session.line(line, config, judge) {
            Ok(Did::Reply(text)) => Ok(Intake::reply(floor, caller.number, &text)),
            Ok(Did::Granted(text)) => Ok(Intake::grant(floor, caller.number, &text)),
            Ok(Did::Bye(text)) => Ok(part(floor, caller.number, &text)),
            Ok(Did::Taken) => Ok(Next::Continue),
            Ok(Did::Message(message)) => {
                // A law: a message's class has the range of its type.
                has_class(&message);
                self.accept(floor, spool, config, maps, caller, message)
            }
            Err(JudgeFault::FilesFault) => Err(CoreStop::FilesFault),
            Err(JudgeFault::NoMemory) => Ok(self.lack(floor, caller)),
        }
    }

    // Answers lines in turn, up to where the session or the run ends.
    fn answer_all<F: Floor, D: Spool, J: Judge>(
        &mut self,
        floor: &mut F,
        spool: &mut D,
        config: &Config,
        maps: &Maps,
        judge: &mut J,
        caller: &mut Caller,
        lines: &[Line],
    ) -> Result<Next, CoreStop>
        requires sound { IsSoundAt (F.seen floor.old) caller.old.number }
        requires ready { IsReady self.old caller.old config.now maps.now }
        requires tallied { Tallies self.old.table (D.seen spool.old) }
        ensures answers { (site : Site) (d : machine.Did) (side : Beside)
            → IsUnder site config.now maps.now → d.way ≡ machine.GoesOn
            → Serves site self.old d.table → Talks site caller.old d.guest
            → OnlyLastAsks lines.now
            → StandsFirst (lines_heard d.guest ++ lines.now) (lines_of d.guest)
            → AnswersLines (judging (J.seen judge.old) (J.answers judge.old)) site
            self.old.moment d lines.now
            (seen (F.seen floor.old) (D.seen spool.old) side)
            (seen (F.seen floor.new) (D.seen spool.new) side)
            self.new caller.new result }
        ensures ready { is_onward result ≡ true → IsReady self.new caller.new config.now maps.now }
        ensures asked { IsAsked (judging (J.seen judge.old) (J.answers judge.old))
            (judging (J.seen judge.new) (J.answers judge.new)) (is_judge_fault result) }
        ensures fixed { J.fixed judge.new ≡ J.fixed judge.old }
        ensures own { (F.seen floor.new).faults ≡ (F.seen floor.old).faults }
        ensures begun { (F.seen floor.new).begun ≡ (F.seen floor.old).begun }
        ensures calm { is_well result ≡ true
            → (D.seen spool.new).faults ≡ (D.seen spool.old).faults }
        ensures tallied { is_well result ≡ true
            → Tallies self.new.table (D.seen spool.new) }
        ensures moment { self.new.moment ≡ self.old.moment }
        ensures number { caller.new.number ≡ caller.old.number }
        ensures lines { caller.new.lines ≡ caller.old.lines }
        ensures sound { is_onward result ≡ true → IsSoundAt (F.seen floor.new) caller.old.number }
    {
        let mut last = Next::Continue;
        for line in lines {
            last = self.answer(floor, spool, config, maps, judge, caller, line)?;
            if !last.stays_open() {
                return Ok(last);
            }
        }
        Ok(last)
    }

    /// Takes a piece of a session's bytes, and answers the lines that it completes. Want of memory
    /// for the piece, or for what follows a line with the verb DATA, hangs up.
    pub(crate) fn feed<F: Floor, D: Spool, J: Judge>(
        &mut self,
        floor: &mut F,
        spool: &mut D,
        config: &Config,
        maps: &Maps,
        judge: &mut J,
        caller: &mut Caller,
        piece: &[u8],
    ) -> Result<Next, CoreStop>
        requires sound { IsSoundAt (F.seen floor.old) caller.old.number }
        requires ready { IsReady self.old caller.old config.now maps.now }
        requires tallied { Tallies self.old.table (D.seen spool.old) }
        ensures feeds { (site : Site) (table : Entries) (g : Guest) (side : Beside)
            → IsUnder site config.now maps.now → Serves site self.old table
            → Keeps site caller.old g
            → Feeds (judging (J.seen judge.old) (J.answers judge.old)) site self.old.moment
            table g piece.now
            (seen (F.seen floor.old) (D.seen spool.old) side)
            (seen (F.seen floor.new) (D.seen spool.new) side)
            self.new caller.new result }
        ensures asked { IsAsked (judging (J.seen judge.old) (J.answers judge.old))
            (judging (J.seen judge.new) (J.answers judge.new)) (is_judge_fault result) }
        ensures fixed { J.fixed judge.new ≡ J.fixed judge.old }
        ensures own { (F.seen floor.new).faults ≡ (F.seen floor.old).faults }
        ensures begun { (F.seen floor.new).begun ≡ (F.seen floor.old).begun }
        ensures calm { is_well result ≡ true
            → (D.seen spool.new).faults ≡ (D.seen spool.old).faults }
        ensures tallied { is_well result ≡ true
            → Tallies self.new.table (D.seen spool.new) }
        ensures moment { self.new.moment ≡ self.old.moment }
    {
        let Ok(given) = caller.lines.feed(piece) else {
            return Ok(drop_caller(floor, caller.number));
        };
        let mut lines = given;
        'answers: while last_asks(lines.items()) {
            let next = self.answer_all(floor, spool, config, maps, judge, caller, lines.items())?;
            if !next.stays_open() {
                return Ok(next);
            }
            caller.turn(next);
            let Ok(more) = caller.lines.more() else {
                return Ok(drop_caller(floor, caller.number));
            };
            lines = more;
        }
        self.answer_all(floor, spool, config, maps, judge, caller, lines.items())
    }
}

/// Says the last reply to a session, and hangs it up.
pub(crate) fn part<F: Floor>(floor: &mut F, session: u64, text: &Text) -> Next
    requires sound { IsSoundAt (F.seen floor.old) session }
    ensures told { (whole : Bool)
        × Gains (F.seen floor.old).told (F.seen floor.new).told
        (heard_of (Sends session text.now whole ∷ HangsUp session ∷ [])) }
    ensures own { (F.seen floor.new).faults ≡ (F.seen floor.old).faults }
    ensures begun { (F.seen floor.new).begun ≡ (F.seen floor.old).begun }
    ensures next { result ≡ Next.Closed }
{
    if say(floor, session, text) {
        floor.hang_up(session);
    }
    Next::Closed
}

// Hangs up a session for want of memory.
fn drop_caller<F: Floor>(floor: &mut F, session: u64) -> Next
    requires sound { IsSoundAt (F.seen floor.old) session }
    ensures told { Gains (F.seen floor.old).told (F.seen floor.new).told
        (heard_of (HangsUp session ∷ [])) }
    ensures own { (F.seen floor.new).faults ≡ (F.seen floor.old).faults }
    ensures begun { (F.seen floor.new).begun ≡ (F.seen floor.old).begun }
    ensures next { result ≡ Next.Closed }
{
    floor.hang_up(session);
    Next::Closed
}
