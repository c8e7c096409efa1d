// What a run of a ruleset ends with, and the sets that are found.
use self::Tokens::{Signs, Words};
use crate::sets::{Line, add_lines, set_of};
use crate::signs::{are_all, are_signs, repeated, tokens_of};
use crate::world::{World, world_of};
use mail_base::{Book, Config, Go, NoMemory, Seq, Text, Token};
use ruleset_run::{Ran, RunFault, run};
use std::alloc::Global;
use std::test::Fail;

// Tokens: by signs, or so many words.
#[derive(Clone, Copy)]
enum Tokens {
    Signs(&'static str),
    Words(usize),
}

// What a run ends with: a list with so much work, or a fault.
#[derive(Clone, Copy)]
enum End {
    List(Tokens, u32),
    Loop,
    Work,
    Deep,
    Long,
    NoRuleset(&'static str),
    MapClass(&'static str),
    NoSuchMap(&'static str),
    BadScan,
}

fn add(alloc: Global, book: &mut Book, name: &str, lines: &[Line]) -> Result<(), Fail> {
    let mut rules = Seq::new(alloc);
    add_lines(&mut rules, lines)?;
    Ok(book.push(set_of(name, &rules)?)?)
}

// Rulesets by their names.
type Sets = &'static [(&'static str, &'static [Line])];

fn add_sets(alloc: Global, config: &mut Config, sets: Sets) -> Result<(), Fail> {
    for (name, lines) in sets {
        add(alloc, &mut config.book, name, lines)?;
    }
    Ok(())
}

fn list_of(alloc: Global, tokens: Tokens) -> Result<Seq<Token>, NoMemory> {
    match tokens {
        Tokens::Signs(signs) => tokens_of(alloc, signs),
        Tokens::Words(count) => repeated(alloc, b'w', count),
    }
}

fn are_wanted(tokens: &[Token], wanted: Tokens) -> bool {
    match wanted {
        Tokens::Signs(signs) => are_signs(tokens, signs),
        Tokens::Words(count) => are_all(tokens, b'w', count),
    }
}

fn is_end(given: &Result<Ran, RunFault>, end: End) -> bool {
    match (given, end) {
        (Ok(ran), End::List(wanted, work)) => {
            are_wanted(ran.tokens.items(), wanted) && ran.work == work
        }
        (Err(fault), end) => is_fault(fault, end),
        _ => false,
    }
}

fn is_fault(fault: &RunFault, end: End) -> bool {
    match (fault, end) {
        (RunFault::NoRuleset(name), End::NoRuleset(wanted))
        | (RunFault::MapClass(name), End::MapClass(wanted))
        | (RunFault::NoSuchMap(name), End::NoSuchMap(wanted)) => name.bytes() == wanted.as_bytes(),
        (RunFault::Loop, End::Loop)
        | (RunFault::Work, End::Work)
        | (RunFault::Deep, End::Deep)
        | (RunFault::Long, End::Long)
        | (RunFault::BadScan, End::BadScan) => true,
        _ => false,
    }
}

// The name of the set that runs, what it runs over, and what the run ends with.
type Run = (&'static str, Tokens, End);

fn ends_so(alloc: Global, world: &World, row: &Run) -> Result<bool, Fail> {
    let set = Text::of(alloc, row.0.as_bytes())?;
    let tokens = list_of(alloc, row.1)?;
    let given = run(
        alloc,
        &world.config,
        &world.maps,
        &world.config.macros,
        &set,
        &tokens,
    );
    Ok(is_end(&given, row.2))
}

// A configuration with these sets.
fn world_with(alloc: Global, sets: Sets) -> Result<World, Fail> {
    let mut world = world_of(alloc)?;
    add_sets(alloc, &mut world.config, sets)?;
    Ok(world)
}

// Rules in whose set s a hundred applications of one rule are ten thousand in all.
const ROUND: (&str, &[Line]) = ("s", &[("-+", Go::Again, ">t2")]);

const TENS: &[Line] = &[("*", Go::Next, ">u1"); 9];

const ONES: &[Line] = &[("*", Go::Next, "1"); 10];

// What each end tells besides its name: the list as it is written, its work, and what wasn't found.
static CASES: [(Sets, &[Run]); 3] = [
    (
        &[
            ("Set", &[("-:+", Go::Return, "2@1")]),
            ("0", &[("*", Go::Return, ">31")]),
        ],
        &[
            ("sET", Signs("U:e"), End::List(Signs("e@U"), 1)),
            ("sET", Signs("U.e"), End::List(Signs("U.e"), 0)),
            ("0", Signs("a"), End::NoRuleset("a")),
            ("5", Signs("a"), End::List(Signs("a"), 0)),
            ("00", Words(1), End::NoRuleset("00")),
            ("", Words(1), End::NoRuleset("")),
        ],
    ),
    (
        &[
            ("s", &[("*", Go::Return, ".>t1>u!")]),
            ("t", &[("*", Go::Return, "t1")]),
            ("u", &[("*", Go::Return, "u1")]),
            ("v", &[("*", Go::Return, "1>")]),
            ("w", &[("*", Go::Return, "{o1}{z1}")]),
            ("x", &[("*", Go::Return, "{z1}{o1}")]),
            ("y", &[("*", Go::Return, "{tk}")]),
            ("z", &[("*", Go::Return, ">z1")]),
            ("1", &[("-.-", Go::Return, "{a+;-1;-2}")]),
            ("2", &[("*", Go::Return, "{t1;|no1}")]),
        ],
        &[
            ("s", Signs("a"), End::List(Signs(".tau!"), 3)),
            ("v", Signs("a"), End::NoRuleset("")),
            ("w", Signs("a"), End::MapClass("o")),
            ("x", Signs("a"), End::NoSuchMap("z")),
            ("y", Signs("a"), End::BadScan),
            ("z", Signs("a"), End::Deep),
            ("1", Signs("4.5"), End::List(Signs("9"), 1)),
            ("2", Signs("z"), End::List(Signs("noz"), 1)),
        ],
    ),
    (
        &[
            ROUND,
            ("t", TENS),
            ("u", ONES),
            ("v", &[("*", Go::Next, "1"), ("*", Go::Return, ">s1")]),
            ("w", &[("*", Go::Return, "11")]),
        ],
        &[
            ("s", Words(101), End::List(Words(1), 10_000)),
            ("s", Words(102), End::Loop),
            ("v", Words(101), End::Work),
            ("w", Words(1001), End::Long),
        ],
    ),
];

#[test]
fn runs_end_as_their_rules_say(rt: HostRuntime) -> Result<(), Fail> {
    for (case, (sets, rows)) in CASES.iter().enumerate() {
        let world = world_with(rt.alloc(), sets)?;
        for (at, row) in rows.iter().enumerate() {
            assert!(rt; ends_so(rt.alloc(), &world, row)?, "case {case}, run {at}");
        }
    }
    Ok(())
}
