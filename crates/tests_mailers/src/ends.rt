use crate::dialogues::{add, tell_row};
use mail_base::{NoMemory, Result1, Text};
use mailer_pipe::{end, no_argument};
use std::alloc::Global;

/// The statuses of the exits from 64 on, in order.
static STATUSES: [&[u8]; 15] = [
    b"5.5.4", b"5.6.0", b"5.3.0", b"5.1.1", b"5.1.2", b"5.3.0", b"5.3.0", b"", b"5.3.0", b"5.3.0",
    b"", b"", b"5.5.0", b"5.7.0", b"5.3.5",
];

// The status of an exit that is a failure.
fn wanted_status(exit: i32) -> &'static [u8] {
    if exit < 64 || exit > 78 {
        return b"5.0.0";
    }
    STATUSES[exit as usize - 64]
}

fn is_told(alloc: Global, became: &Result1, wanted: &[u8]) -> bool {
    let mut text = Text::new(alloc);
    tell_row(&mut text, became).is_ok() && text.bytes() == wanted
}

// Adds what an exit is to become.
fn put_wanted(text: &mut Text, exit: i32) -> Result<(), NoMemory> {
    if exit == 0 {
        return text.push(b'S');
    }
    let note = format!(in text.allocator(); "exit {exit}")?;
    match exit {
        71 | 74 | 75 => add(text, &[b"D(", note.as_bytes(), b")"]),
        _ => add(
            text,
            &[b"F(", wanted_status(exit), b" ", note.as_bytes(), b")"],
        ),
    }
}

fn ends_so(alloc: Global, exit: i32) -> bool {
    let mut wanted = Text::new(alloc);
    put_wanted(&mut wanted, exit).is_ok() && is_told(alloc, &end(exit), wanted.bytes())
}

/// Statuses that no program has on a system of today, and what they make of a row.
static OTHERS: [(i32, &[u8]); 4] = [
    (-1, b"F(5.0.0 exit -1)"),
    (256, b"F(5.0.0 exit 256)"),
    (2_147_483_647, b"F(5.0.0 exit 2147483647)"),
    (-2_147_483_648, b"F(5.0.0 exit -2147483648)"),
];

#[test]
fn each_exit_has_its_result_and_other_statuses_are_failures(rt: HostRuntime) {
    for exit in 0..256 {
        assert!(rt; ends_so(rt.alloc(), exit), "exit {exit}");
    }
    for row in &OTHERS {
        assert!(rt; is_told(rt.alloc(), &end(row.0), row.1), "exit {}", row.0);
    }
    assert!(rt; is_told(rt.alloc(), &no_argument(), b"F(5.1.3 NUL in user)"));
}
