ghost use Rattle.std.specs.Prelude.{◌≡◌, ◌≤◌, ◌<◌, ◌+◌, suc, false, true, None, Some, length, OnOk, IfOk, IfErr, IfNone, option_copied};
ghost use Rattle.cf_macros.specs.declared.level.Given.{Given};
ghost use Rattle.cf_macros.specs.inner.Insides.{rest_at, is_closed};
ghost use Rattle.cf_macros.specs.Readings.{Nothing, BeforeElse, BeforeEnd, put, Refer, closing, behind_end};
ghost use Rattle.cf_macros.specs.inner.Levels.{Goes, Stops, MovesOn, GivesNext, IsAt, IsAtEnd, IsNew, Resumes, level_rest, rest_behind, gave_after, IsGiven, KeepsOut};

use crate::ExpandFault;
use crate::construct::{Construct, Kind, first_piece};
use crate::level::{Given, Level};
use crate::scan::{Mark, behind_end, find_mark, rest};
use crate::scope::Scope;

/// The most bytes that an expansion gives.
const MOST_BYTES: usize = 1_048_576;

impl Given {
    #[tactic(auto, unfolding(crate::specs::inner::Levels::room))]
    pub(crate) fn give(&mut self, bytes: &[u8]) -> Result<(), ExpandFault>
        ensures ok { OnOk result (IsGiven self.old bytes.now self.new) }
        ensures err { IfErr result (λ fault. KeepsOut fault self.old bytes.now) }
    {
        if self.silent {
            return Ok(());
        }
        if bytes.len() > MOST_BYTES - self.text.len() {
            return Err(ExpandFault::Large);
        }
        self.text.extend(bytes)?;
        Ok(())
    }
}

fn gave_after(gave: bool, bytes: &[u8]) -> bool
    ensures { result ≡ gave_after gave bytes.now }
{
    if bytes.is_empty() {
        return gave;
    }
    true
}

impl<'a> Level<'a> {
    pub(crate) fn new(scope: Scope, text: &'a [u8]) -> Level<'a>
        ensures { IsNew scope text.now result }
    {
        Level {
            scope,
            text,
            place: 0,
            depth: 0,
            gave: false,
            tests: false,
        }
    }

    fn at(self, place: usize, depth: usize) -> Level<'a>
        requires in_text { place ≤ length self.text.now }
        requires few { depth ≤ place }
        requires closed { is_closed depth (rest_at self.scope self.text.now place) ≡ true }
        ensures { IsAt self.entry place depth result }
    {
        Level {
            scope: self.scope,
            text: self.text,
            place,
            depth,
            gave: self.gave,
            tests: false,
        }
    }

    fn give(self, given: &mut Given, bytes: &[u8], next: usize) -> Result<Level<'a>, ExpandFault>
        requires reads { self.tests ≡ false }
        requires gives { GivesNext self bytes.now next }
        ensures goes { IfOk result (λ level. Goes self.entry given.old level given.new None) }
        ensures moves { IfOk result (λ level. MovesOn self.entry level) }
        ensures err { IfErr result (λ fault. Stops fault self.entry given.old) }
    {
        given.give(bytes)?;
        Ok(Level {
            scope: self.scope,
            text: self.text,
            place: next,
            depth: self.depth,
            gave: gave_after(self.gave, bytes),
            tests: false,
        })
    }

    fn skip(self, found: Construct<'_>) -> Level<'a>
        requires reads { self.tests ≡ false }
        requires inside { 1 ≤ self.depth }
        requires moves { 1 ≤ found.width }
        requires in_text { self.place + found.width ≤ length self.text.now }
        requires rest { level_rest self ≡ BeforeElse Nothing (rest_behind self found.width) }
        ensures goes { (was : Given) → Goes self.entry was result was None }
        ensures moves { MovesOn self.entry result }
    {
        match behind_end(self.scope, self.text, self.place + found.width) {
            Some(place) => self.at(place, self.depth - 1),
            None => self.at(self.text.len(), 0),
        }
    }

    fn pass_else(self, given: &mut Given, found: Construct<'_>) -> Result<Level<'a>, ExpandFault>
        requires reads { self.tests ≡ false }
        requires moves { 1 ≤ found.width }
        requires in_text { self.place + found.width ≤ length self.text.now }
        requires rest { level_rest self ≡ BeforeElse Nothing (rest_behind self found.width) }
        ensures goes { IfOk result (λ level. Goes self.entry given.old level given.new None) }
        ensures moves { IfOk result (λ level. MovesOn self.entry level) }
        ensures err { IfErr result (λ fault. Stops fault self.entry given.old) }
    {
        if self.depth == 0 {
            return self.give(given, b"$|", self.place + found.width);
        }
        Ok(self.skip(found))
    }

    fn pass_end(self, given: &mut Given, found: Construct<'_>) -> Result<Level<'a>, ExpandFault>
        requires reads { self.tests ≡ false }
        requires moves { 1 ≤ found.width }
        requires in_text { self.place + found.width ≤ length self.text.now }
        requires rest { level_rest self ≡ BeforeEnd Nothing (rest_behind self found.width) }
        ensures goes { IfOk result (λ level. Goes self.entry given.old level given.new None) }
        ensures moves { IfOk result (λ level. MovesOn self.entry level) }
        ensures err { IfErr result (λ fault. Stops fault self.entry given.old) }
    {
        if self.depth == 0 {
            return self.give(given, b"$.", self.place + found.width);
        }
        Ok(Level {
            scope: self.scope,
            text: self.text,
            place: self.place + found.width,
            depth: self.depth - 1,
            gave: self.gave,
            tests: false,
        })
    }

    fn refer(self, found: Construct<'_>) -> Level<'a>
        requires reads { self.tests ≡ false }
        requires in_text { self.place + found.width ≤ length self.text.now }
        requires rest { level_rest self
            ≡ put (Refer found.text.now) (rest_behind self found.width) }
        ensures { (was : Given) → Goes self.entry was result was (Some found.entry.text.now) }
    {
        Level {
            scope: self.scope,
            text: self.text,
            place: self.place + found.width,
            depth: self.depth,
            gave: self.gave,
            tests: false,
        }
    }

    // Whether the conditional that begins with this test is closed. One inside another is.
    fn is_closed(self, found: Construct<'_>) -> bool
        requires in_text { self.place + found.width ≤ length self.text.now }
        requires rest { let after = rest_behind self found.width in
            level_rest self ≡ closing self.place found.text.now after (behind_end after) }
        ensures closed { result ≡ true
            → is_closed (suc self.entry.depth) (rest_behind self.entry found.entry.width) ≡ true }
        ensures unclosed { result ≡ false
            → behind_end (rest_behind self.entry found.entry.width) ≡ None }
    {
        if self.depth > 0 {
            return true;
        }
        match behind_end(self.scope, self.text, self.place + found.width) {
            Some(_) => true,
            None => false,
        }
    }

    fn test(self, found: Construct<'_>) -> Result<Level<'a>, ExpandFault>
        requires reads { self.tests ≡ false }
        requires moves { 1 ≤ found.width }
        requires in_text { self.place + found.width ≤ length self.text.now }
        requires rest { let after = rest_behind self found.width in
            level_rest self ≡ closing self.place found.text.now after (behind_end after) }
        ensures goes { IfOk result (λ level. (was : Given)
            → Goes self.entry was level was (Some found.entry.text.now)) }
        ensures err { IfErr result (λ fault. (was : Given) → Stops fault self.entry was) }
    {
        if !self.is_closed(found) {
            return Err(ExpandFault::Unclosed(self.place as u64));
        }
        Ok(Level {
            scope: self.scope,
            text: self.text,
            place: self.place + found.width,
            depth: self.depth + 1,
            gave: self.gave,
            tests: true,
        })
    }

    fn step(self, given: &mut Given) -> Result<(Level<'a>, Option<&'a [u8]>), ExpandFault>
        requires reads { self.tests ≡ false }
        requires unfinished { self.place < length self.text.now }
        ensures goes { IfOk result (λ step. Goes self.entry given.old step.0 given.new
            (option_copied step.1)) }
        ensures moves { IfOk result (λ step. IfNone step.1 (MovesOn self.entry step.0)) }
        ensures err { IfErr result (λ fault. Stops fault self.entry given.old) }
    {
        let found = first_piece(self.scope, rest(self.text, self.place));
        match found.kind {
            Kind::Plain => Ok((
                self.give(given, found.text, self.place + found.width)?,
                None,
            )),
            Kind::Reference => Ok((self.refer(found), Some(found.text))),
            Kind::Test => Ok((self.test(found)?, Some(found.text))),
            Kind::Else => Ok((self.pass_else(given, found)?, None)),
            Kind::End => Ok((self.pass_end(given, found)?, None)),
            Kind::Unclosed => Err(ExpandFault::Unclosed((self.place + found.width - 1) as u64)),
        }
    }

    /// Reads on to the next reference or test, whose name it gives, or to the end of the text.
    pub(crate) fn read(
        self,
        given: &mut Given,
    ) -> Result<(Level<'a>, Option<&'a [u8]>), ExpandFault>
        requires { self.tests ≡ false }
        ensures goes { IfOk result (λ step. Goes self.entry given.old step.0 given.new
            (option_copied step.1)) }
        ensures end { IfOk result (λ step. IfNone step.1 (IsAtEnd step.0)) }
        ensures err { IfErr result (λ fault. Stops fault self.entry given.old) }
    {
        let mut level = self;
        'constructs: while level.place < level.text.len() {
            let (next, name) = level.step(given)?;
            if name.is_some() {
                return Ok((next, name));
            }
            level = next;
        }
        Ok((level, None))
    }

    /// The level that goes on where the one above it has ended.
    pub(crate) fn resume(self, gave: bool) -> Level<'a>
        ensures { Resumes self.entry gave result }
    {
        if !self.tests {
            return Level {
                scope: self.scope,
                text: self.text,
                place: self.place,
                depth: self.depth,
                gave: gave || self.gave,
                tests: false,
            };
        }
        if gave {
            return self.at(self.place, self.depth);
        }
        match find_mark(self.scope, self.text, self.place) {
            Mark::OtherPart(place) => self.at(place, self.depth),
            Mark::Behind(place) => self.at(place, self.depth - 1),
            Mark::NoMark => self.at(self.text.len(), 0),
        }
    }
}
