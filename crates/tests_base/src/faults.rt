use crate::copies::cause;
use mail_base::{EdgeFault, Failed, JudgeFault, LineFault, NoMemory, StoreFault, Verb};
use std::alloc::Global;
use std::fmt::Display;

/// A fault of any kind.
enum Fault {
    Memory,
    Device,
    Edge(EdgeFault),
    Store(StoreFault),
    Judge(JudgeFault),
    Line(LineFault),
}

/// Faults, with their texts.
static FAULTS: [(Fault, &str); 16] = [
    (Fault::Memory, "no memory"),
    (Fault::Device, "the device failed"),
    (Fault::Edge(EdgeFault::Failed), "the device failed"),
    (Fault::Edge(EdgeFault::NoMemory), "no memory"),
    (Fault::Store(StoreFault::SpoolFault), "the spool failed"),
    (Fault::Store(StoreFault::IdsSpent), "all ids are spent"),
    (Fault::Store(StoreFault::NoMemory), "no memory"),
    (Fault::Judge(JudgeFault::FilesFault), "a file can't be read"),
    (Fault::Judge(JudgeFault::NoMemory), "no memory"),
    (
        Fault::Line(LineFault::BadByte),
        "a byte that no command holds",
    ),
    (Fault::Line(LineFault::Unknown), "an unknown verb"),
    (
        Fault::Line(LineFault::ArgumentNeeded),
        "an argument is needed",
    ),
    (Fault::Line(LineFault::NoArgument), "no argument is allowed"),
    (
        Fault::Line(LineFault::Syntax(Verb::Mail)),
        "the path isn't in the grammar",
    ),
    (
        Fault::Line(LineFault::PathTooLong(Verb::Rcpt)),
        "the path is too long",
    ),
    (
        Fault::Line(LineFault::Parameter(Verb::Mail)),
        "an unknown parameter",
    ),
];

fn is_shown(alloc: Global, fault: &impl Display, text: &str) -> Result<bool, NoMemory> {
    let shown = format!(in alloc; "{fault}")?;
    Ok(shown.as_str() == text)
}

fn says(alloc: Global, fault: &Fault, text: &str) -> Result<bool, NoMemory> {
    match fault {
        Fault::Memory => is_shown(alloc, &NoMemory, text),
        Fault::Device => is_shown(alloc, &Failed, text),
        Fault::Edge(fault) => is_shown(alloc, fault, text),
        Fault::Store(fault) => is_shown(alloc, fault, text),
        Fault::Judge(fault) => is_shown(alloc, fault, text),
        Fault::Line(fault) => is_shown(alloc, fault, text),
    }
}

/// The names of some causes, by their places in `cause`.
static NAMES: [(u16, &[u8]); 5] = [
    (0, b"Loop"),
    (3, b"NoRuleset"),
    (7, b"Long"),
    (9, b"Long"),
    (11, b"UnknownMailer"),
];

fn has_name(alloc: Global, place: u16, name: &[u8]) -> Result<bool, NoMemory> {
    let cause = cause(alloc, place)?;
    Ok(cause.name() == name)
}

fn are_kept_apart() -> bool {
    EdgeFault::from(NoMemory) == EdgeFault::NoMemory
        && EdgeFault::from(Failed) == EdgeFault::Failed
        && StoreFault::from(NoMemory) == StoreFault::NoMemory
        && JudgeFault::from(NoMemory) == JudgeFault::NoMemory
}

#[test]
fn faults_say_what_they_are_and_keep_want_of_memory_apart_and_causes_have_names(rt: HostRuntime) {
    for (at, (fault, text)) in FAULTS.iter().enumerate() {
        assert!(rt; says(rt.alloc(), fault, text) == Ok(true), "row {at}");
    }
    assert!(rt; are_kept_apart());
    for (place, name) in &NAMES {
        assert!(rt;
            has_name(rt.alloc(), *place, name) == Ok(true),
            "cause {place}"
        );
    }
}
