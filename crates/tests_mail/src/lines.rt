use crate::texts::{add, add_often};
use mail_base::{NoMemory, Seq, Text};
use smtp_lines::{Line, Lines, last_asks, read_stream};
use std::alloc::Global;

/// Where a stream is cut into pieces.
#[derive(Clone, Copy)]
enum Cuts {
    Nowhere,
    Everywhere,
    At(usize),
    Random(u64),
}

/// A stream, its grants, and its lines as `show_lines` writes them.
type Row<'a> = (&'a [u8], &'a [bool], &'a [u8]);

static ROWS: [Row<'static>; 22] = [
    (b"", &[], b""),
    (b"\r\n\nNOOP\n", &[], b"C<>C<>C<NOOP>"),
    (b"NOOP\r\r\n\r\r\n", &[], b"C<NOOP\r>C<\r>"),
    (b"a\rb\r\nc", &[], b"C<a\rb>"),
    (b"NO\0OP\r\n", &[], b"C<NO\0OP>"),
    (b"QUIT\r\nNOOP\r\n\0", &[], b"C<QUIT>C<NOOP>"),
    (b"DATA\r\na\nb\r\n.\r\n", &[true], b"C<DATA>D<a\nb>E"),
    (b"DATA\r\na\n.\nb\r\n.\r\n", &[true], b"C<DATA>D<a\n.\nb>E"),
    (b"DATA\r\na\n.\r\n.\r\n", &[true], b"C<DATA>D<a\n.>E"),
    (
        b"DATA\r\na\r\n.\nb\r\n.\r\n",
        &[true],
        b"C<DATA>D<a>D<\nb>E",
    ),
    (b"DATA\na\r\r\n\r\r\n.\r\n", &[true], b"C<DATA>D<a\r>D<\r>E"),
    (b"DATA\r\n.\r\r\n.\r\n", &[true], b"C<DATA>D<\r>E"),
    (
        b"DATA\r\n..\r\n...\r\n.x\r\n\r\n.\r\n",
        &[true],
        b"C<DATA>D<.>D<..>D<x>D<>E",
    ),
    (b"DATA\r\n.\r", &[true], b"C<DATA>"),
    (b"DATA\r\n\n\r", &[true], b"C<DATA>"),
    (b"DATA x\r\nQUIT\r\n", &[], b"C<DATA x>C<QUIT>"),
    (b"dAtA\tx\n.\r\n.\r\n", &[true], b"C<dAtA\tx>EC<.>"),
    (
        b"DATAX\n.\n DATA\n.\n",
        &[true],
        b"C<DATAX>C<.>C< DATA>C<.>",
    ),
    (b"DATA\r\r\n.\r\n", &[true], b"C<DATA\r>C<.>"),
    (
        b"DATA\r\nDATA\r\nx\r\n.\r\nDATA\r\nRSET\r\n",
        &[false, true],
        b"C<DATA>C<DATA>D<x>EC<DATA>C<RSET>",
    ),
    (
        b"EHLO a\r\nMAIL FROM:<b>\r\nDATA\r\n..x\r\na\n.\nb\r\n.\r\nQUIT\r\nleft",
        &[true],
        b"C<EHLO a>C<MAIL FROM:<b>>C<DATA>D<.x>D<a\n.\nb>EC<QUIT>",
    ),
    (
        b"DATA\n.\r\nDATA\n.\r\nDATA\n",
        &[true, true],
        b"C<DATA>EC<DATA>EC<DATA>",
    ),
];

fn is_cut(cuts: Cuts, place: usize, state: u64) -> bool {
    match cuts {
        Cuts::Nowhere => false,
        Cuts::Everywhere => true,
        Cuts::At(cut) => place == cut,
        Cuts::Random(_) => state >> 62 == 0,
    }
}

fn pieces_of(alloc: Global, bytes: &[u8], cuts: Cuts) -> Result<Vec<Text>, NoMemory> {
    let mut state = match cuts {
        Cuts::Random(seed) => seed,
        _ => 0,
    };
    let mut pieces = Vec::new(alloc);
    let mut piece = Text::new(alloc);
    for (place, byte) in bytes.iter().enumerate() {
        state = state
            .wrapping_mul(6_364_136_223_846_793_005)
            .wrapping_add(1_442_695_040_888_963_407);
        if is_cut(cuts, place, state) {
            pieces.push(piece)?;
            piece = Text::new(alloc);
        }
        piece.push(*byte)?;
    }
    pieces.push(piece)?;
    Ok(pieces)
}

fn show_lines(text: &mut Text, lines: &Seq<Line>) -> Result<(), NoMemory> {
    for line in lines.items() {
        show_line(text, line)?;
    }
    Ok(())
}

fn show_line(text: &mut Text, line: &Line) -> Result<(), NoMemory> {
    match line {
        Line::Command(command) => add(text, &[b"C<", command.bytes(), b">"]),
        Line::TooLong => text.extend(b"T"),
        Line::Data(data) => add(text, &[b"D<", data.bytes(), b">"]),
        Line::DataEnd => text.extend(b"E"),
    }
}

fn show_cut(text: &mut Text, bytes: &[u8], grants: &[bool], cuts: Cuts) -> Result<(), NoMemory> {
    let alloc = text.allocator();
    let pieces = pieces_of(alloc, bytes, cuts)?;
    show_lines(text, &read_stream(alloc, &pieces, grants)?)
}

fn reads_so(alloc: Global, row: &Row<'_>, cuts: Cuts) -> bool {
    let mut text = Text::new(alloc);
    show_cut(&mut text, row.0, row.1, cuts).is_ok() && text.bytes() == row.2
}

static CUTS: [Cuts; 4] = [
    Cuts::Nowhere,
    Cuts::Everywhere,
    Cuts::Random(1),
    Cuts::Random(2),
];

fn reads_so_at_each(alloc: Global, row: &Row<'_>, each: &[Cuts]) -> bool {
    for cuts in each {
        if !reads_so(alloc, row, *cuts) {
            return false;
        }
    }
    true
}

// Whether the lines are the same however their stream is cut.
fn reads_cut_so(alloc: Global, row: &Row<'_>) -> bool {
    for place in 0..row.0.len() {
        if !reads_so(alloc, row, Cuts::At(place)) {
            return false;
        }
    }
    reads_so_at_each(alloc, row, &CUTS)
}

#[test]
fn lines_of_a_stream_however_it_is_cut(rt: HostRuntime) {
    for (at, row) in ROWS.iter().enumerate() {
        assert!(rt; reads_cut_so(rt.alloc(), row), "row {at}");
    }
}

/// The bytes of a command before its end, its end, and whether the command is read.
type Command = (usize, &'static [u8], bool);

static LONG_COMMANDS: [Command; 7] = [
    (2_046, b"\r\n", true),
    (2_047, b"\r\n", false),
    (2_048, b"\r\n", false),
    (2_047, b"\n", true),
    (2_048, b"\n", false),
    (5_000, b"\n", false),
    (5_000, b"\r\n", false),
];

static LONG_CUTS: [Cuts; 4] = [
    Cuts::Nowhere,
    Cuts::Everywhere,
    Cuts::Random(3),
    Cuts::At(2_048),
];

fn add_shown(shown: &mut Text, row: &Command) -> Result<(), NoMemory> {
    if row.2 {
        return add_often(shown, &[(b"C<", 1), (b"x", row.0), (b">C<NOOP>", 1)]);
    }
    shown.extend(b"TC<NOOP>")
}

// Whether a command is read whole, or is too long, and another one behind it.
fn is_cut_off(alloc: Global, row: &Command) -> bool {
    let mut stream = Text::new(alloc);
    let mut shown = Text::new(alloc);
    add_often(&mut stream, &[(b"x", row.0), (row.1, 1), (b"NOOP\n", 1)]).is_ok()
        && add_shown(&mut shown, row).is_ok()
        && reads_so_at_each(alloc, &(stream.bytes(), &[], shown.bytes()), &LONG_CUTS)
}

#[test]
fn a_command_of_more_than_2048_bytes_is_too_long(rt: HostRuntime) {
    for row in &LONG_COMMANDS {
        assert!(rt; is_cut_off(rt.alloc(), row), "{}", row.0);
    }
}

fn feed(reader: &mut Lines, piece: &[u8]) -> Result<(), NoMemory> {
    let _lines = reader.feed(piece)?;
    Ok(())
}

/// What stands before and behind the 16,777,216 bytes of a line, and how many bytes of it are kept.
type Long = (&'static [u8], &'static [u8], usize);

static LONG_LINES: [Long; 5] = [
    (b"", b"\r\n.\r\n", 16_777_216),
    (b"x", b"\r\n.\r\n", 16_777_217),
    (b"x", b"\rx\r\n.\r\n", 16_777_217),
    (b".", b"x\r\n.\r\n", 16_777_217),
    (b"..", b"x\r\n.\r\n", 16_777_217),
];

fn is_kept(lines: &[Line], wanted: usize) -> bool {
    match lines {
        [Line::Data(data), Line::DataEnd] => data.len() == wanted,
        _ => false,
    }
}

// Whether so many bytes are kept of the first line of a message, which the piece makes long.
fn keeps(reader: &mut Lines, piece: &[u8], row: &Long) -> Result<bool, NoMemory> {
    feed(reader, b"DATA\n")?;
    if reader.may_turn() {
        reader.data();
    }
    feed(reader, row.0)?;
    for _ in 0..256u32 {
        feed(reader, piece)?;
    }
    Ok(is_kept(reader.feed(row.1)?.items(), row.2))
}

fn keeps_of(alloc: Global, row: &Long) -> Result<bool, NoMemory> {
    let piece = vec![in alloc; b'x'; 65_536]?;
    let mut reader = Lines::new(alloc);
    keeps(&mut reader, &piece, row)
}

#[test]
fn of_a_longer_line_the_first_16777217_bytes_stand(rt: HostRuntime) {
    for (at, row) in LONG_LINES.iter().enumerate() {
        assert!(rt; keeps_of(rt.alloc(), row) == Ok(true), "row {at}");
    }
}

/// What a reader is asked for.
enum Step {
    Feed(&'static [u8]),
    More,
    Data,
}

/// The steps of one reader, each with its lines as `show_lines` writes them, `?` where the last of
/// them asks, and `!` where it may turn to a message then.
static STEPS: [(Step, &[u8]); 6] = [
    (Step::Feed(b"DATA\r\nHELO"), b"C<DATA>?!"),
    (Step::Feed(b" a\r"), b"!"),
    (Step::Data, b""),
    (Step::More, b""),
    (
        Step::Feed(b"\n.\r\nDATA\r\nDATA\r\n"),
        b"D<HELO a>EC<DATA>?!",
    ),
    (Step::More, b"C<DATA>?!"),
];

fn stepped(alloc: Global, reader: &mut Lines, step: &Step) -> Result<Seq<Line>, NoMemory> {
    match step {
        Step::Feed(piece) => reader.feed(piece),
        Step::More => reader.more(),
        Step::Data => {
            if reader.may_turn() {
                reader.data();
            }
            Ok(Seq::new(alloc))
        }
    }
}

fn tell(text: &mut Text, lines: &Seq<Line>, may_turn: bool) -> Result<(), NoMemory> {
    show_lines(text, lines)?;
    if last_asks(lines.items()) {
        text.push(b'?')?;
    }
    if may_turn {
        text.push(b'!')?;
    }
    Ok(())
}

fn is_told(
    alloc: Global,
    reader: &mut Lines,
    step: &Step,
    wanted: &[u8],
) -> Result<bool, NoMemory> {
    let lines = stepped(alloc, reader, step)?;
    let mut text = Text::new(alloc);
    tell(&mut text, &lines, reader.may_turn())?;
    Ok(text.bytes() == wanted)
}

#[test]
fn bytes_after_data_wait_for_its_answer(rt: HostRuntime) {
    let mut reader = Lines::new(rt.alloc());
    for (at, (step, wanted)) in STEPS.iter().enumerate() {
        let is_told = is_told(rt.alloc(), &mut reader, step, wanted);
        assert!(rt; is_told == Ok(true), "step {at}");
    }
}
