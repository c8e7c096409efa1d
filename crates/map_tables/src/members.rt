ghost use Rattle.std.specs.Prelude.{◌≡◌, ◌≤◌, ◌<◌, ◌+◌, true, false, length, get_or, map, IfOk};
ghost use Rattle.map_tables.specs.Answers as answer_spec;
ghost use Rattle.map_tables.specs.Answers.{answer_at, answers};
ghost use Rattle.map_tables.specs.inner.Members as spec;
ghost use Rattle.map_tables.specs.inner.Members.{Agree, AreAsBefore, AreMarked, IsClosed, Keeps};

use crate::answer::Answer;
use crate::answering::answer;
use crate::host_table::HostTable;
use crate::table::Table;
use mail_base::{MapClass, NoMemory, Seq, Text};
use std::alloc::Global;

/// Answers from which that of a sequence behind these maps follows: of the maps only its members
/// are asked, and those of each sequence among them, each once.
pub(crate) fn member_answers(
    maps: &[Table],
    members: &[u32],
    hosts: &HostTable,
    key: &Text,
    args: &Seq<Text>,
) -> Result<Seq<Answer>, NoMemory>
    ensures { IfOk result
        (λ given. map (answer_at given) members.now
        ≡ map (answer_at (answers hosts.now key.now args.now maps.now)) members.now) }
{
    let mut marked = unmarked(key.allocator(), maps.len())?;
    mark_all(&mut marked, maps, members);
    asked(maps, &marked, hosts, key, args)
}

fn unmarked(alloc: Global, count: usize) -> Result<Vec<bool>, NoMemory>
    ensures { IfOk result (λ marked. length marked.items ≡ count) }
{
    Ok(vec![in alloc; false; count]?)
}

/// The places of a sequence's members, and none of another map.
pub(crate) fn members_in(class: &MapClass) -> &[u32]
    ensures { result.now ≡ spec.members_in class.now }
{
    match class {
        MapClass::Sequence(places) => places.items(),
        _ => &[],
    }
}

// Marks the places of these members, and of those of each sequence among them.
fn mark_all(marked: &mut [bool], maps: &[Table], members: &[u32])
    requires { length maps.now ≤ length marked.old }
    ensures members { AreMarked members.now (length maps.now) marked.new }
    ensures closed { IsClosed 0 maps.now marked.new }
    ensures length { length marked.new ≡ length marked.old }
{
    mark(marked, members, maps.len());
    let mut place = maps.len();
    'marking: while place > 0 {
        place -= 1;
        mark_from(marked, maps, place);
    }
}

// Marks the members of the map at a place, if it is marked.
fn mark_from(marked: &mut [bool], maps: &[Table], place: usize)
    requires within { place < length maps.now }
    requires length { length maps.now ≤ length marked.old }
    ensures closed { IsClosed (place + 1) maps.now marked.old → IsClosed place maps.now marked.new }
    ensures keeps { Keeps marked.old marked.new }
    ensures length { length marked.new ≡ length marked.old }
{
    if marked[place] {
        mark(marked, members_in(&maps[place].line.class), place);
    }
}

// Marks those of these places that are before an end.
fn mark(marked: &mut [bool], members: &[u32], end: usize)
    requires { end ≤ length marked.old }
    ensures members { AreMarked members.now end marked.new }
    ensures keeps { Keeps marked.old marked.new }
    ensures others { AreAsBefore end marked.old marked.new }
    ensures length { length marked.new ≡ length marked.old }
{
    for member in members {
        mark_one(marked, *member as usize, end);
    }
}

fn mark_one(marked: &mut [bool], place: usize, end: usize)
    requires { end ≤ length marked.old }
    ensures here { place < end → get_or marked.new place false ≡ true }
    ensures keeps { Keeps marked.old marked.new }
    ensures others { AreAsBefore end marked.old marked.new }
    ensures length { length marked.new ≡ length marked.old }
{
    if place < end {
        marked[place] = true;
    }
}

// The answers of the maps that are marked, and for each other map that it lacks the key.
fn asked(
    maps: &[Table],
    marked: &[bool],
    hosts: &HostTable,
    key: &Text,
    args: &Seq<Text>,
) -> Result<Seq<Answer>, NoMemory>
    requires length { length maps.now ≤ length marked.now }
    requires closed { IsClosed 0 maps.now marked.now }
    ensures agrees { IfOk result
        (λ given. Agree marked.now (length maps.now) given
        (answers hosts.now key.now args.now maps.now)) }
    ensures length { IfOk result (λ given. length given ≡ length maps.now) }
{
    let mut answers = Seq::new(key.allocator());
    for (place, map) in maps.iter().enumerate() {
        let one = answer_if(marked[place], map, hosts, key, args, answers.items())?;
        answers.push(one)?;
    }
    Ok(answers)
}

fn answer_if(
    is_asked: bool,
    map: &Table,
    hosts: &HostTable,
    key: &Text,
    args: &Seq<Text>,
    before: &[Answer],
) -> Result<Answer, NoMemory>
    ensures { IfOk result
        (λ given. is_asked ≡ true
        → given ≡ answer_spec.answer hosts.now key.now args.now before.now map.now) }
{
    if is_asked {
        answer(map, hosts, key, args, before)
    } else {
        Ok(Answer::Lacks)
    }
}
