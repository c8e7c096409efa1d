use self::Call::{Expand, ExpandRule};
use cf_macros::{ExpandFault, Form, date, expand, expand_rule};
use mail_base::{Macros, NoMemory, Text};
use std::alloc::Global;

// Eleven macros a to k, each of which names the next, ten o to y of which each names the next ten
// times, and others.
static SETTINGS: [(&str, &str); 33] = [
    ("a", "$b"),
    ("b", "$c"),
    ("c", "$d"),
    ("d", "$e"),
    ("e", "$f"),
    ("f", "$g"),
    ("g", "$h"),
    ("h", "$i"),
    ("i", "$j"),
    ("j", "$k"),
    ("k", "end"),
    ("o", "$p$p$p$p$p$p$p$p$p$p"),
    ("p", "$q$q$q$q$q$q$q$q$q$q"),
    ("q", "$r$r$r$r$r$r$r$r$r$r"),
    ("r", "$s$s$s$s$s$s$s$s$s$s"),
    ("s", "$t$t$t$t$t$t$t$t$t$t"),
    ("t", "$u$u$u$u$u$u$u$u$u$u"),
    ("u", "$v$v$v$v$v$v$v$v$v$v"),
    ("v", "$w$w$w$w$w$w$w$w$w$w"),
    ("w", "$x$x$x$x$x$x$x$x$x$x"),
    ("x", "dot"),
    ("y", "a$?zb$|c$.d"),
    ("E", ""),
    ("N", "$E$U"),
    ("S", "set"),
    ("mail", "long"),
    ("O", "x$?S"),
    ("B", "xy${S"),
    ("L", "a$&{y}b"),
    ("D", "$$"),
    ("T", "$$1$L"),
    ("C", "x$"),
    ("G", "$&{S"),
];

fn set(macros: &mut Macros, name: &str, value: &str) -> Result<(), NoMemory> {
    let alloc = macros.values().allocator();
    let name = Text::of(alloc, name.as_bytes())?;
    macros.set(&name, &Text::of(alloc, value.as_bytes())?)
}

fn macros_of(alloc: Global) -> Result<Macros, NoMemory> {
    let mut macros = Macros::new(alloc);
    for row in &SETTINGS {
        set(&mut macros, row.0, row.1)?;
    }
    Ok(macros)
}

/// The call that expands a text.
#[derive(Clone, Copy)]
enum Call {
    Expand,
    ExpandRule,
}

fn expansion(alloc: Global, call: Call, text: &Text, macros: &Macros) -> Result<Text, ExpandFault> {
    match call {
        Expand => expand(alloc, text, macros),
        ExpandRule => expand_rule(alloc, text, macros),
    }
}

/// A call, a text, and what it gives or how it is refused.
type Case = (Call, &'static str, Result<&'static str, ExpandFault>);

fn is_wanted(given: &Result<Text, ExpandFault>, wanted: &Result<&str, ExpandFault>) -> bool {
    match (given, wanted) {
        (Ok(given), Ok(wanted)) => given.bytes() == wanted.as_bytes(),
        (Err(fault), Err(wanted)) => fault == wanted,
        _ => false,
    }
}

fn gives(alloc: Global, macros: &Macros, case: &Case) -> Result<bool, NoMemory> {
    let text = Text::of(alloc, case.1.as_bytes())?;
    Ok(is_wanted(&expansion(alloc, case.0, &text, macros), &case.2))
}

static CASES: [Case; 30] = [
    // A value.
    (Expand, "$?Sa$|b$.$T", Ok("a$1aacdb")),
    // What is refused in reading order.
    (Expand, "${S", Err(ExpandFault::Unclosed(1))),
    (Expand, "ab$&{S", Err(ExpandFault::Unclosed(4))),
    (Expand, "a$?Sb", Err(ExpandFault::Unclosed(1))),
    (Expand, "a$?{Sb", Err(ExpandFault::Unclosed(1))),
    (Expand, "$?Sa$|b${x", Err(ExpandFault::Unclosed(0))),
    (Expand, "$?Sa$.$?Ub$?Sc$.", Err(ExpandFault::Unclosed(6))),
    (Expand, "abc$O", Err(ExpandFault::Unclosed(1))),
    (Expand, "$B", Err(ExpandFault::Unclosed(3))),
    (Expand, "$a", Err(ExpandFault::Deep)),
    (Expand, "$?ax$.", Err(ExpandFault::Deep)),
    (Expand, "$a${", Err(ExpandFault::Deep)),
    // A macro bomb at its limit.
    (Expand, "$o", Err(ExpandFault::Large)),
    (Expand, "$?ox$.", Err(ExpandFault::Large)),
    // Sides of rules: `$$` and `$&` stay, in the side, in values and in parts of conditionals.
    (ExpandRule, "a$&", Ok("a$&")),
    (ExpandRule, "$&+$S", Ok("$&+set")),
    (ExpandRule, "$?S$$1$|$2$.$T", Ok("$$1$$1a$&{y}b")),
    // What is refused of sides.
    (ExpandRule, "${S", Err(ExpandFault::Unclosed(1))),
    (ExpandRule, "ab$&{S", Err(ExpandFault::Unclosed(4))),
    (ExpandRule, "ab$$${S", Err(ExpandFault::Unclosed(5))),
    (ExpandRule, "a$?Sb", Err(ExpandFault::Unclosed(1))),
    (ExpandRule, "a$?{Sb", Err(ExpandFault::Unclosed(1))),
    (ExpandRule, "$&m$?Sb", Err(ExpandFault::Unclosed(3))),
    (ExpandRule, "$?S$&{a$.", Err(ExpandFault::Unclosed(0))),
    (ExpandRule, "xyz$G", Err(ExpandFault::Unclosed(2))),
    (ExpandRule, "$B", Err(ExpandFault::Unclosed(3))),
    (ExpandRule, "$O", Err(ExpandFault::Unclosed(1))),
    (ExpandRule, "$a", Err(ExpandFault::Deep)),
    (ExpandRule, "$o", Err(ExpandFault::Large)),
    (ExpandRule, "$?ox$.", Err(ExpandFault::Large)),
];

#[test]
fn texts_and_sides_by_the_first_construct(rt: HostRuntime) -> Result<(), NoMemory> {
    let macros = macros_of(rt.alloc())?;
    for (at, case) in CASES.iter().enumerate() {
        assert!(rt; gives(rt.alloc(), &macros, case)?, "row {at}");
    }
    Ok(())
}

/// A text as its front, what stands so many times behind it, and its end, and how long is what it
/// gives.
type Long = (
    &'static str,
    &'static str,
    usize,
    &'static str,
    Result<usize, ExpandFault>,
);

// Ten thousand references, to the empty macro, and no more; a mebibyte, in a test, and no more.
static LONG: [Long; 4] = [
    ("", "$E", 10_000, "", Ok(0)),
    ("", "$E", 10_001, "", Err(ExpandFault::Large)),
    ("$?x", "b", 1_048_576, "$.", Ok(1_048_576)),
    ("$?x", "b", 1_048_577, "$.", Err(ExpandFault::Large)),
];

fn add_long(text: &mut Text, row: &Long) -> Result<(), NoMemory> {
    text.extend(row.0.as_bytes())?;
    for _ in 0..row.2 {
        text.extend(row.1.as_bytes())?;
    }
    text.extend(row.3.as_bytes())
}

fn is_long(given: &Result<Text, ExpandFault>, wanted: &Result<usize, ExpandFault>) -> bool {
    match (given, wanted) {
        (Ok(given), Ok(wanted)) => given.len() == *wanted,
        (Err(fault), Err(wanted)) => fault == wanted,
        _ => false,
    }
}

fn is_expanded(alloc: Global, macros: &Macros, row: &Long) -> Result<bool, NoMemory> {
    let mut text = Text::new(alloc);
    add_long(&mut text, row)?;
    Ok(is_long(&expand(alloc, &text, macros), &row.4))
}

#[test]
fn ten_thousand_references_and_a_mebibyte(rt: HostRuntime) -> Result<(), NoMemory> {
    let macros = macros_of(rt.alloc())?;
    for row in &LONG {
        assert!(rt; is_expanded(rt.alloc(), &macros, row)?, "{}", row.2);
    }
    Ok(())
}

/// A moment and its forms Mail, Unix and Short.
type DateRow = (u64, &'static str, &'static str, &'static str);

// Moments and their forms Mail, Unix and Short, as GNU date prints them by `date -u -d @MOMENT`
// with `+%a, %-d %b %Y %H:%M:%S +0000`, `+%a %b %e %H:%M:%S %Y` and `+%Y%m%d%H%M`.
static MOMENTS: [DateRow; 13] = [
    (
        0,
        "Thu, 1 Jan 1970 00:00:00 +0000",
        "Thu Jan  1 00:00:00 1970",
        "197001010000",
    ),
    (
        784_111_777,
        "Sun, 6 Nov 1994 08:49:37 +0000",
        "Sun Nov  6 08:49:37 1994",
        "199411060849",
    ),
    (
        946_684_799,
        "Fri, 31 Dec 1999 23:59:59 +0000",
        "Fri Dec 31 23:59:59 1999",
        "199912312359",
    ),
    (
        1_767_225_600,
        "Thu, 1 Jan 2026 00:00:00 +0000",
        "Thu Jan  1 00:00:00 2026",
        "202601010000",
    ),
    (
        2_572_420_211,
        "Sat, 8 Jul 2051 09:10:11 +0000",
        "Sat Jul  8 09:10:11 2051",
        "205107080910",
    ),
    // Leap days, but for the century.
    (
        951_782_400,
        "Tue, 29 Feb 2000 00:00:00 +0000",
        "Tue Feb 29 00:00:00 2000",
        "200002290000",
    ),
    (
        951_868_800,
        "Wed, 1 Mar 2000 00:00:00 +0000",
        "Wed Mar  1 00:00:00 2000",
        "200003010000",
    ),
    (
        1_709_164_800,
        "Thu, 29 Feb 2024 00:00:00 +0000",
        "Thu Feb 29 00:00:00 2024",
        "202402290000",
    ),
    (
        4_107_542_399,
        "Sun, 28 Feb 2100 23:59:59 +0000",
        "Sun Feb 28 23:59:59 2100",
        "210002282359",
    ),
    (
        4_107_542_400,
        "Mon, 1 Mar 2100 00:00:00 +0000",
        "Mon Mar  1 00:00:00 2100",
        "210003010000",
    ),
    // The last, and what counts as it.
    (
        32_503_680_000,
        "Wed, 1 Jan 3000 00:00:00 +0000",
        "Wed Jan  1 00:00:00 3000",
        "300001010000",
    ),
    (
        32_503_680_001,
        "Wed, 1 Jan 3000 00:00:00 +0000",
        "Wed Jan  1 00:00:00 3000",
        "300001010000",
    ),
    (
        u64::MAX,
        "Wed, 1 Jan 3000 00:00:00 +0000",
        "Wed Jan  1 00:00:00 3000",
        "300001010000",
    ),
];

fn is_date(alloc: Global, moment: u64, form: Form, wanted: &str) -> Result<bool, NoMemory> {
    Ok(date(alloc, moment, form)?.bytes() == wanted.as_bytes())
}

fn are_dates(alloc: Global, row: &DateRow) -> Result<bool, NoMemory> {
    Ok(
        is_date(alloc, row.0, Form::Mail, row.1)?
            && is_date(alloc, row.0, Form::Unix, row.2)?
            && is_date(alloc, row.0, Form::Short, row.3)?,
    )
}

#[test]
fn dates_in_three_forms(rt: HostRuntime) -> Result<(), NoMemory> {
    for row in &MOMENTS {
        assert!(rt; are_dates(rt.alloc(), row)?, "{}", row.0);
    }
    Ok(())
}
