ghost use Rattle.std.specs.Prelude.{◌≡◌, ◌<◌, ◌++◌, [], ◌∷◌, List, Bool, ℕ, length, take, drop, IfOk, OnOk, OnErr, IsTrue, false, true};
ghost use Rattle.std.specs.List.{concat};
ghost use Rattle.smtp_lines.specs.Stream.{Reads, has_end, reading_of, first_grant};
ghost use Rattle.smtp_lines.specs.Reader.{Reader, Stream, Stands, given, granted, refused, asked_after, awaited, StandsFirst, HasGrants, Gives, OnlyLastAsks};
ghost use Rattle.smtp_lines.specs.Runs.{granted_by};
ghost use Rattle.smtp_lines.specs.inner.Courses.{ReadSoFar};

use crate::{Line, Lines, Mode};
use mail_base::{NoMemory, Seq, Text};
use std::alloc::Global;

/// The lines of a stream that comes in these pieces. The grants say of each command with the verb
/// DATA, in order, whether a message follows it; what they don't say is no.
pub fn read_stream(alloc: Global, pieces: &[Text], grants: &[bool]) -> Result<Seq<Line>, NoMemory>
    ensures { IfOk result (λ lines. lines ≡ (reading_of (concat pieces.now) grants.now).lines) }
{
    let mut reader = Lines::new(alloc);
    let mut lines = Vec::new(alloc);
    let mut rest = grants;
    for piece in pieces {
        rest = read_piece(&mut reader, &mut lines, piece.bytes(), rest)?;
    }
    Ok(Seq::from_vec(lines))
}

/// Reads one piece of a stream, and gives the grants that are left.
fn read_piece<'g>(
    reader: &mut Lines,
    lines: &mut Vec<Line>,
    piece: &[u8],
    grants: &'g [bool],
) -> Result<&'g [bool], NoMemory>
    ensures { IfOk result (λ rest. (granted : List Bool) (bytes : List ℕ)
        → ReadSoFar granted grants.now reader.old lines.old.items bytes
        → ReadSoFar granted rest.now reader.new lines.new.items (bytes ++ piece.now)) }
{
    let mut rest = grants;
    let mut fresh = reader.feed(piece)?;
    'answers: while last_asks(fresh.items()) {
        lines.append(&mut fresh.into_vec())?;
        rest = answer(reader, rest);
        fresh = reader.more()?;
    }
    lines.append(&mut fresh.into_vec())?;
    Ok(rest)
}

/// Turns to a message, if the first of the grants says so, or refuses it, and gives the other
/// grants.
fn answer<'g>(reader: &mut Lines, grants: &'g [bool]) -> &'g [bool]
    requires { IsTrue reader.old.under.may_turn }
    ensures rest { result.now ≡ drop 1 grants.now }
    ensures reader { reader.new ≡ granted_by (first_grant grants.now) reader.old }
{
    match grants {
        [] => {
            reader.refuse();
            grants
        }
        [grant, rest @ ..] => {
            turn(reader, *grant);
            rest
        }
    }
}

fn turn(reader: &mut Lines, grant: bool)
    requires { IsTrue reader.old.under.may_turn }
    ensures { reader.new ≡ granted_by grant reader.old }
{
    if grant {
        reader.data();
    } else {
        reader.refuse();
    }
}

/// Whether the last of the lines asks. Of no lines, none does.
pub fn last_asks(lines: &[Line]) -> bool
    ensures { result ≡ asked_after false lines.now }
{
    !lines.is_empty() && lines[lines.len() - 1].asks()
}

/// The lines off a stream are those of any reading of it: there is one.
pub fn one_reading()
    ensures { (bytes : List ℕ) (granted : List Bool) (lines : List Line)
        (last : Mode) (rest : List ℕ)
        → Reads Mode.Commands bytes granted lines last rest → has_end last rest ≡ false
        → reading_of bytes granted ≡ record { lines = lines; mode = last; rest = rest } }
{}

/// What a reader has given are all the lines of its stream so far, where it has left nothing
/// unread.
pub fn all_given()
    ensures { (r : Reader) (s : Stream) → Stands r s → r.left ≡ []
        → (reading_of s.received s.granted).lines ≡ s.lines }
{}

/// The lines that a reader has given stand first among those of its stream so far, whatever is
/// answered to the last one that asked and to those after it.
pub fn given_lines_stand_first()
    ensures first { (r : Reader) (s : Stream) → Stands r s → (grant : Bool) (more : List Bool)
        → StandsFirst s.lines
        (reading_of s.received ((s.granted ++ awaited r.under.may_turn grant) ++ more)).lines }
    ensures unanswered { (r : Reader) (s : Stream) → Stands r s
        → StandsFirst s.lines (reading_of s.received s.granted).lines }
    // Where the reader has left nothing unread, they are all.
    ensures all { (r : Reader) (s : Stream) → Stands r s → r.left ≡ [] → (more : List Bool)
        → (reading_of s.received
        ((s.granted ++ awaited r.under.may_turn false) ++ more)).lines ≡ s.lines }
{}

/// What a caller knows that keeps the grants itself: after `feed` or `more` gave lines, by their
/// clauses `stands` and `turns`, and once the last line that asked was refused or granted.
pub fn grants_are_told()
    ensures gives { (old new : Reader) (s : Stream) (told : List Bool) (lines : List Line)
        → HasGrants old s told
        → Stands new (given old.under.may_turn s lines)
        → new.under.may_turn ≡ asked_after old.under.may_turn lines
        → Gives s told lines new (given old.under.may_turn s lines) }
    ensures refused { (r : Reader) (s : Stream) (told : List Bool) → s.granted ≡ told
        → r.under.may_turn ≡ false
        → HasGrants r (refused s) (told ++ false ∷ []) }
    ensures granted { (r : Reader) (s : Stream) (told : List Bool) → s.granted ≡ told
        → r.under.may_turn ≡ false
        → HasGrants r (granted s) (told ++ true ∷ []) }
    // Where it is neither, the next line refuses it.
    ensures unanswered { (r : Reader) (s : Stream) (told : List Bool) → s.granted ≡ told
        → r.under.may_turn ≡ true
        → HasGrants r s (told ++ false ∷ []) }
{}

/// Of the lines that one call gives only the last may ask.
pub fn only_last_asks()
    ensures { (old new : Reader) (s : Stream) (lines : List Line) → Stands old s
        → Stands new (given old.under.may_turn s lines)
        → new.under.may_turn ≡ asked_after old.under.may_turn lines
        → OnlyLastAsks lines }
{}
