ghost use Rattle.std.specs.Prelude.{◌≡◌, ◌++◌, IfOk, map, slice_get, unwrap_or};
ghost use Rattle.std.specs.Option.{option_copied};
ghost use Rattle.map_tables.specs.Answers.{answer, answer_at, answers, dressed, first_answer, found, handed, says_more, table_value};
ghost use Rattle.map_tables.specs.Hosts.{host_name};
ghost use Rattle.map_tables.specs.inner.MapPlaces.{is_sequence};

use crate::answer::Answer;
use crate::arith::calculated;
use crate::host_table::HostTable;
use crate::members::{member_answers, members_in};
use crate::percent::filled;
use crate::quotes::dequoted;
use crate::table::Table;
use mail_base::{MapClass, MapLine, NoMemory, Seq, Text, TryCopy};

/// What a map answers, where those before it answer these.
pub(crate) fn answer(
    map: &Table,
    hosts: &HostTable,
    key: &Text,
    args: &Seq<Text>,
    before: &[Answer],
) -> Result<Answer, NoMemory>
    ensures { IfOk result (λ given. given ≡ answer hosts.now key.now args.now before.now map.now) }
{
    match &map.line.class {
        MapClass::Text => found(&map.line, key, table_value(map, key, args)?),
        MapClass::Hash => found(&map.line, key, table_value(map, key, args)?),
        MapClass::Btree => found(&map.line, key, table_value(map, key, args)?),
        MapClass::Host => found(&map.line, key, host_name(hosts, key)?),
        MapClass::Dequote => found(&map.line, key, dequoted(key)?),
        MapClass::Sequence(places) => sequence_answer(&map.line, key, before, places.items()),
        MapClass::Null => Ok(Answer::Lacks),
        MapClass::Arith => found(&map.line, key, calculated(key, args)?),
        MapClass::Macro => Ok(Answer::Sets(dressed(&map.line, key, Text::new(key.allocator()))?)),
        MapClass::Other(_) => Ok(Answer::Refuses),
    }
}

fn table_value(map: &Table, key: &Text, args: &Seq<Text>) -> Result<Option<Text>, NoMemory>
    ensures { IfOk result (λ value. value ≡ table_value map.now key.now args.now) }
{
    match map.get(key)? {
        Some(value) => Ok(Some(filled(value.bytes(), key, args)?)),
        None => Ok(None),
    }
}

fn host_name(hosts: &HostTable, key: &Text) -> Result<Option<Text>, NoMemory>
    ensures { IfOk result (λ name. name ≡ host_name key.now hosts.now) }
{
    match hosts.line_of(key) {
        Some(line) => Ok(Some(line.name.copy()?)),
        None => Ok(None),
    }
}

// A value as the map gives it.
fn dressed(line: &MapLine, key: &Text, value: Text) -> Result<Text, NoMemory>
    ensures { IfOk result (λ text. text ≡ dressed line.now key.now value) }
{
    if line.match_only {
        return tagged(line, key.copy()?);
    }
    tagged(line, value)
}

// A value with the tag of its map.
fn tagged(line: &MapLine, value: Text) -> Result<Text, NoMemory>
    ensures { IfOk result (λ text. text ≡ value ++ line.now.tag) }
{
    let mut text = value;
    text.extend(line.tag.bytes())?;
    Ok(text)
}

fn found(line: &MapLine, key: &Text, value: Option<Text>) -> Result<Answer, NoMemory>
    ensures { IfOk result (λ answer. answer ≡ found line.now key.now value) }
{
    match value {
        Some(value) => Ok(Answer::Finds(dressed(line, key, value)?)),
        None => Ok(Answer::Lacks),
    }
}

// What a sequence answers, where the maps before it answer these.
fn sequence_answer(
    line: &MapLine,
    key: &Text,
    before: &[Answer],
    places: &[u32],
) -> Result<Answer, NoMemory>
    ensures { IfOk result
        (λ given. given ≡ handed line.now key.now
        (first_answer (map (answer_at before.now) places.now))) }
{
    handed(line, key, first_answer(before, places))
}

// The answer at the first of these places that says more than that the key is lacking.
fn first_answer<'a>(before: &'a [Answer], places: &[u32]) -> Option<&'a Answer>
    ensures { unwrap_or (option_copied result) Answer.Lacks
        ≡ first_answer (map (answer_at before.now) places.now) }
{
    for place in places {
        let answer = answer_at(before, *place as usize);
        if says_more(answer) {
            return answer;
        }
    }
    None
}

fn answer_at(before: &[Answer], place: usize) -> Option<&Answer>
    ensures { unwrap_or (option_copied result) Answer.Lacks ≡ answer_at before.now place }
{
    before.get(place)
}

fn says_more(answer: Option<&Answer>) -> bool
    ensures { result ≡ says_more (unwrap_or (option_copied answer.entry) Answer.Lacks) }
{
    match answer {
        Some(Answer::Finds(_)) => true,
        Some(Answer::Sets(_)) => true,
        Some(Answer::Refuses) => true,
        Some(Answer::Lacks) => false,
        None => false,
    }
}

// An answer as a sequence hands it on.
fn handed(line: &MapLine, key: &Text, answer: Option<&Answer>) -> Result<Answer, NoMemory>
    ensures { IfOk result
        (λ given. given ≡ handed line.now key.now
        (unwrap_or (option_copied answer.entry) Answer.Lacks)) }
{
    match answer {
        Some(Answer::Finds(value)) => Ok(Answer::Finds(dressed(line, key, value.copy()?)?)),
        Some(Answer::Sets(value)) => Ok(Answer::Sets(dressed(line, key, value.copy()?)?)),
        Some(Answer::Refuses) => Ok(Answer::Refuses),
        Some(Answer::Lacks) => Ok(Answer::Lacks),
        None => Ok(Answer::Lacks),
    }
}

/// The answer at a place, where a map stands there.
pub(crate) fn place_answer(
    maps: &[Table],
    hosts: &HostTable,
    place: usize,
    key: &Text,
    args: &Seq<Text>,
) -> Result<Option<Answer>, NoMemory>
    ensures { IfOk result
        (λ given. given ≡ slice_get (answers hosts.now key.now args.now maps.now) place) }
{
    match map_at(maps, place) {
        Some(map) => {
            let before = before(&maps[..place], map, hosts, key, args)?;
            Ok(Some(answer(map, hosts, key, args, before.items())?))
        }
        None => Ok(None),
    }
}

fn map_at(maps: &[Table], place: usize) -> Option<&Table>
    ensures { option_copied result ≡ slice_get maps.now place }
{
    maps.get(place)
}

// Answers from which that of a map follows: a sequence's from those of its members, and another
// map's from none.
fn before(
    maps: &[Table],
    map: &Table,
    hosts: &HostTable,
    key: &Text,
    args: &Seq<Text>,
) -> Result<Seq<Answer>, NoMemory>
    ensures { IfOk result
        (λ given. answer hosts.now key.now args.now given map.now
        ≡ answer hosts.now key.now args.now
        (answers hosts.now key.now args.now maps.now) map.now) }
{
    if is_sequence(&map.line.class) {
        return member_answers(maps, members_in(&map.line.class), hosts, key, args);
    }
    Ok(Seq::new(key.allocator()))
}

fn is_sequence(class: &MapClass) -> bool
    ensures { result ≡ is_sequence class.now }
{
    matches!(class, MapClass::Sequence(_))
}
