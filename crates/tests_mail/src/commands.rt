use crate::texts::{add, add_number, add_often};
use mail_base::{Command, LineFault, NoMemory, Text, Verb};
use smtp_lines::command;
use std::alloc::Global;

/// A line, and how it is read, as `shown` writes it.
type Row = (&'static [u8], &'static [u8]);

static LINES: [Row; 80] = [
    // Each verb in any case, with an argument and without one.
    (b"HELO", b"!ArgumentNeeded"),
    (b"helo ", b"!ArgumentNeeded"),
    (b"HELO c.example", b"HELO<c.example>"),
    (b"heLo\t c.example\t d ", b"HELO<c.example\t d>"),
    (b"EHLO", b"!ArgumentNeeded"),
    (b"eHlO c", b"EHLO<c>"),
    (b"MAIL", b"!Syntax MAIL"),
    (b"mail from:<a@b>", b"MAIL<a@b>"),
    (b"MAIL  FROM: \t<a@b> ", b"MAIL<a@b>"),
    (b"MAIL FROM:", b"!Syntax MAIL"),
    (b"MAIL FROM <a@b>", b"!Syntax MAIL"),
    (b"MAIL FROM:<>", b"MAIL<>"),
    (b"MAIL TO:<a@b>", b"!Syntax MAIL"),
    (b"RCPT", b"!Syntax RCPT"),
    (b"rcpt to:<a@b>", b"RCPT<a@b>"),
    (b"RCPT TO:\ta@b", b"RCPT<a@b>"),
    (b"RCPT TO:<>", b"RCPT<>"),
    (b"RCPT FROM:<a@b>", b"!Syntax RCPT"),
    (b"DATA", b"DATA"),
    (b"data  ", b"DATA"),
    (b"DATA x", b"!NoArgument"),
    (b"RSET", b"RSET"),
    (b"rset\t", b"RSET"),
    (b"RSET x", b"!NoArgument"),
    (b"NOOP", b"NOOP"),
    (b"nooP anything at all", b"NOOP"),
    (b"QUIT", b"QUIT"),
    (b"quit", b"QUIT"),
    (b"QUIT now", b"!NoArgument"),
    (b"VRFY", b"!ArgumentNeeded"),
    (b"vrfy ann", b"VRFY"),
    (b"EXPN", b"EXPN"),
    (b"expn list", b"EXPN"),
    (b"HELP", b"HELP"),
    (b"help mail", b"HELP"),
    (b"", b"!Unknown"),
    (b" ", b"!Unknown"),
    (b" NOOP", b"!Unknown"),
    (b"NOOPS", b"!Unknown"),
    (b"NOO", b"!Unknown"),
    (b"ETRN x", b"!Unknown"),
    (b"NOOP \x01", b"!BadByte"),
    (b"WHAT\x7f", b"!BadByte"),
    (b"NOOP\t\x80\xff", b"NOOP"),
    // Paths with quotes, routes and other bytes, and where their faults stand among others.
    (b"MAIL FROM:<\"a>b\"@c>", b"MAIL<\"a>b\"@c>"),
    (b"MAIL FROM:<\"a\\\">\"@c>", b"MAIL<\"a\\\">\"@c>"),
    (b"MAIL FROM:<\"a>", b"!Syntax MAIL"),
    (b"MAIL FROM:<\"a\\\"@c>", b"!Syntax MAIL"),
    (b"MAIL FROM:<a\\>b>", b"!Syntax MAIL"),
    (b"MAIL FROM:<a", b"!Syntax MAIL"),
    (b"MAIL FROM:<a>b", b"!Syntax MAIL"),
    (b"MAIL FROM:<a>>", b"!Syntax MAIL"),
    (b"MAIL FROM:<a b@c>", b"MAIL<a b@c>"),
    (b"MAIL FROM:a b@c", b"!Parameter MAIL"),
    (b"MAIL FROM:a>b", b"MAIL<a>b>"),
    (b"MAIL FROM:<@h,@i:a@c>", b"MAIL<a@c>"),
    (b"MAIL FROM:<@h:a:b@c>", b"MAIL<a:b@c>"),
    (b"MAIL FROM:<@h>", b"MAIL<@h>"),
    (b"MAIL FROM:<@h:>", b"MAIL<>"),
    (b"MAIL FROM:<a:b@c>", b"MAIL<a:b@c>"),
    (b"MAIL FROM:@h:a@c", b"MAIL<a@c>"),
    (b"MAIL FROM:<\"@h:\"a@c>", b"MAIL<\"@h:\"a@c>"),
    (b"MAIL FROM:<\xc3\xa4@c>", b"MAIL<\xc3\xa4@c>"),
    (b"MAIL FROM: ", b"!Syntax MAIL"),
    (b"MAIL FROM:<a@b>SIZE=1", b"!Syntax MAIL"),
    (b"MAIL FROM:<a@b> SIZE=1", b"MAIL<a@b> size 1"),
    (
        b"MAIL FROM:<a@b>\tsize=12345678901234567890",
        b"MAIL<a@b> size 12345678901234567890",
    ),
    (
        b"MAIL FROM:<a@b> SIZE=00000000000000000007",
        b"MAIL<a@b> size 7",
    ),
    (
        b"MAIL FROM:<a@b> SIZE=123456789012345678901",
        b"!Parameter MAIL",
    ),
    (b"MAIL FROM:<a@b> SIZE=", b"!Parameter MAIL"),
    (b"MAIL FROM:<a@b> SIZE", b"!Parameter MAIL"),
    (b"MAIL FROM:<a@b> SIZE=1x", b"!Parameter MAIL"),
    (b"MAIL FROM:<a@b> SIZE=1 SIZE=2", b"MAIL<a@b> size 2"),
    (b"MAIL FROM:<a@b> SIZE=1 SIZE=x", b"!Parameter MAIL"),
    (b"MAIL FROM:<a@b> BODY=8BITMIME BODY=7BIT", b"MAIL<a@b>"),
    (b"MAIL FROM:<a@b> BODY=7BIT", b"MAIL<a@b>"),
    (
        b"MAIL FROM:<a@b> body=8BitMime  size=5",
        b"MAIL<a@b> size 5 eight",
    ),
    (
        b"MAIL FROM:<a@b> BODY=7BIT BODY=8BITMIME",
        b"MAIL<a@b> eight",
    ),
    (b"MAIL FROM:<a@b> BODY=", b"!Parameter MAIL"),
    (b"RCPT TO:<a@b> SIZE=1", b"!Parameter RCPT"),
];

fn show_fault(text: &mut Text, fault: LineFault) -> Result<(), NoMemory> {
    match fault {
        LineFault::BadByte => text.extend(b"!BadByte"),
        LineFault::Unknown => text.extend(b"!Unknown"),
        LineFault::ArgumentNeeded => text.extend(b"!ArgumentNeeded"),
        LineFault::NoArgument => text.extend(b"!NoArgument"),
        LineFault::Syntax(verb) => show_verb(text, b"!Syntax ", verb),
        LineFault::PathTooLong(verb) => show_verb(text, b"!PathTooLong ", verb),
        LineFault::Parameter(verb) => show_verb(text, b"!Parameter ", verb),
    }
}

fn show_verb(text: &mut Text, fault: &[u8], verb: Verb) -> Result<(), NoMemory> {
    match verb {
        Verb::Mail => add(text, &[fault, b"MAIL"]),
        Verb::Rcpt => add(text, &[fault, b"RCPT"]),
        _ => add(text, &[fault, b"?"]),
    }
}

fn show_given(text: &mut Text, size: Option<u128>, eight: bool) -> Result<(), NoMemory> {
    if let Some(size) = size {
        text.extend(b" size ")?;
        add_number(text, size)?;
    }
    if eight {
        return text.extend(b" eight");
    }
    Ok(())
}

fn show_command(text: &mut Text, command: Command<'_>) -> Result<(), NoMemory> {
    match command {
        Command::Helo(argument) => add(text, &[b"HELO<", argument, b">"]),
        Command::Ehlo(argument) => add(text, &[b"EHLO<", argument, b">"]),
        Command::Mail { path, size, eight } => {
            add(text, &[b"MAIL<", path, b">"])?;
            show_given(text, size, eight)
        }
        Command::Rcpt { path } => add(text, &[b"RCPT<", path, b">"]),
        Command::Data => text.extend(b"DATA"),
        Command::Rset => text.extend(b"RSET"),
        Command::Noop => text.extend(b"NOOP"),
        Command::Quit => text.extend(b"QUIT"),
        Command::Vrfy => text.extend(b"VRFY"),
        Command::Expn => text.extend(b"EXPN"),
        Command::Help => text.extend(b"HELP"),
    }
}

fn show(text: &mut Text, line: &[u8]) -> Result<(), NoMemory> {
    match command(line) {
        Ok(command) => show_command(text, command),
        Err(fault) => show_fault(text, fault),
    }
}

fn reads_so(alloc: Global, row: &Row) -> bool {
    let mut text = Text::new(alloc);
    show(&mut text, row.0).is_ok() && text.bytes() == row.1
}

/// The bytes of a local part and of a domain, and whether such a path is read.
static LENGTHS: [(usize, usize, bool); 6] = [
    (64, 189, true),
    (64, 190, false),
    (65, 1, false),
    (1, 252, true),
    (1, 253, false),
    (0, 253, true),
];

fn is_long(alloc: Global, row: &(usize, usize, bool)) -> Result<bool, NoMemory> {
    let mut line = Text::new(alloc);
    add_often(
        &mut line,
        &[
            (b"RCPT TO:<", 1),
            (b"x", row.0),
            (b"@", 1),
            (b"x", row.1),
            (b">", 1),
        ],
    )?;
    Ok(matches!(
        &command(line.bytes()),
        Err(LineFault::PathTooLong(Verb::Rcpt))
    ))
}

#[test]
fn verbs_and_paths_are_read_and_long_paths_refused(rt: HostRuntime) {
    for (at, row) in LINES.iter().enumerate() {
        assert!(rt; reads_so(rt.alloc(), row), "row {at}");
    }
    for (at, row) in LENGTHS.iter().enumerate() {
        assert!(rt; is_long(rt.alloc(), row) == Ok(!row.2), "length {at}");
    }
}
