ghost use Rattle.std.specs.Prelude.{◌≡◌, ◌<◌, ◌≤◌, ◌++◌, [], IfOk, codes, length};
ghost use Rattle.std.specs.Fmt.{decimal, signed_decimal};
ghost use Rattle.std.specs.List.{flat_map};
ghost use Rattle.qf_format.specs.Sheets.{Fits, with_more};
ghost use Rattle.mail_base.specs.Names.{id_text};
ghost use Rattle.qf_format.specs.Spelling.{line, letters, letter, parent_line, place_lines, order_lines, marks_line, eight_line, sender_lines, kept_lines, state_text, cause, row_lines, header_lines, flags, spelled};
ghost use Rattle.qf_format.specs.Valid.{IsValid};

use crate::Paper;
use crate::lengths::room;
use mail_base::{Control, Id, Kept, Kind, Marks, NoMemory, Note, Parent, Row, State, Status, Text};

/// The control text of a valid control.
pub fn print(control: &Control) -> Result<Text, NoMemory>
    requires { IsValid control.now }
    ensures { IfOk result (λ text. text ≡ spelled control.now) }
{
    let most = room(control);
    if most == u64::MAX {
        return Err(NoMemory);
    }
    let mut paper = Paper::with_room(control.group.allocator(), most as usize)?;
    print_into(control, &mut paper);
    Ok(paper.into_text())
}

/// Writes the control text on an empty paper that has room for it, as [`room`] tells. It takes no
/// memory.
#[tactic(auto, unfolding(crate::specs::Spelling::spelled))]
pub fn print_into(control: &Control, paper: &mut Paper)
    requires empty { paper.old.bytes ≡ [] }
    requires fits { length (spelled control.now) ≤ paper.old.room }
    ensures { paper.new ≡ record paper.old { bytes = spelled control.now } }
{
    put_place(paper, control);
    put_order(paper, control);
    put_sender(paper, control);
    put_kept(paper, &control.kept);
    put_rows(paper, control.rows.items());
    put_headers(paper, control.headers.items());
    put_line(paper, b".", b"");
}

#[tactic(auto, unfolding(crate::specs::Spelling::place_lines))]
fn put_place(paper: &mut Paper, control: &Control)
    requires { Fits paper.old (place_lines control.now) }
    ensures { paper.new ≡ with_more paper.old (place_lines control.now) }
{
    put_line(paper, b"V1", b"");
    put_number_line(paper, b"v", control.revision);
    if let Some(parent) = &control.parent {
        put_parent(paper, parent);
    }
    put_text_line(paper, b"g", &control.group);
}

fn put_parent(paper: &mut Paper, parent: &Parent)
    requires { Fits paper.old (parent_line (Some parent.now)) }
    ensures { paper.new ≡ with_more paper.old (parent_line (Some parent.now)) }
{
    paper.put(b"p");
    put_id(paper, parent.id);
    put_number_line(paper, b" ", parent.revision);
}

#[tactic(auto, unfolding(crate::specs::Spelling::order_lines))]
fn put_order(paper: &mut Paper, control: &Control)
    requires { Fits paper.old (order_lines control.now) }
    ensures { paper.new ≡ with_more paper.old (order_lines control.now) }
{
    put_number_line(paper, b"T", control.created);
    put_number_line(paper, b"K", control.last_try);
    put_number_line(paper, b"N", control.tries);
    put_signed_line(paper, b"P", control.priority);
    put_signed_line(paper, b"c", control.class as i128);
}

#[tactic(auto, unfolding(crate::specs::Spelling::sender_lines))]
fn put_sender(paper: &mut Paper, control: &Control)
    requires { Fits paper.old (sender_lines control.now) }
    ensures { paper.new ≡ with_more paper.old (sender_lines control.now) }
{
    put_marks(paper, control.marks);
    put_eight(paper, control.eight);
    put_text_line(paper, b"S", &control.sender);
}

fn put_marks(paper: &mut Paper, marks: Marks)
    requires { Fits paper.old (marks_line marks) }
    ensures { paper.new ≡ with_more paper.old (marks_line marks) }
{
    if marks.bounce || (marks.double || marks.warned) {
        put_letters(paper, marks);
    }
}

// The line of letters, of which some are set.
fn put_letters(paper: &mut Paper, marks: Marks)
    requires { Fits paper.old (line (codes "F" ++ letters marks)) }
    ensures { paper.new ≡ with_more paper.old (line (codes "F" ++ letters marks)) }
{
    paper.put(b"F");
    put_where(paper, marks.bounce, b"b");
    put_where(paper, marks.double, b"d");
    put_where(paper, marks.warned, b"w");
    paper.put(b"\n");
}

// A text where it is wanted.
fn put_where(paper: &mut Paper, is_set: bool, text: &[u8])
    requires { Fits paper.old (letter is_set text.now) }
    ensures { paper.new ≡ with_more paper.old (letter is_set text.now) }
{
    if is_set {
        paper.put(text);
    }
}

fn put_eight(paper: &mut Paper, eight: bool)
    requires { Fits paper.old (eight_line eight) }
    ensures { paper.new ≡ with_more paper.old (eight_line eight) }
{
    if eight {
        put_line(paper, b"B8BITMIME", b"");
    }
}

#[tactic(auto, unfolding(crate::specs::Spelling::kept_lines))]
fn put_kept(paper: &mut Paper, kept: &Kept)
    requires { Fits paper.old (kept_lines kept.now) }
    ensures { paper.new ≡ with_more paper.old (kept_lines kept.now) }
{
    put_text_line(paper, b"$r", &kept.protocol);
    put_text_line(paper, b"$s", &kept.helo);
    put_text_line(paper, b"${client_addr}", &kept.client);
}

fn put_rows(paper: &mut Paper, rows: &[Row])
    requires { Fits paper.old (flat_map row_lines rows.now) }
    ensures { paper.new ≡ with_more paper.old (flat_map row_lines rows.now) }
{
    for row in rows {
        put_row(paper, row);
    }
}

#[tactic(auto, unfolding(crate::specs::Spelling::row_lines))]
fn put_row(paper: &mut Paper, row: &Row)
    requires { Fits paper.old (row_lines row.now) }
    ensures { paper.new ≡ with_more paper.old (row_lines row.now) }
{
    put_address(paper, row.primary, row.address.bytes());
    put_state(paper, &row.state);
}

fn put_address(paper: &mut Paper, primary: bool, address: &[u8])
    requires { Fits paper.old (line (codes "R" ++ (flags primary ++ (codes ":" ++ address.now)))) }
    ensures { paper.new ≡ with_more paper.old (line (codes "R"
        ++ (flags primary ++ (codes ":" ++ address.now)))) }
{
    if primary {
        put_line(paper, b"RPFD:", address);
    } else {
        put_line(paper, b"RFD:", address);
    }
}

fn put_state(paper: &mut Paper, state: &State)
    requires { Fits paper.old (line (codes "e" ++ state_text state.now)) }
    ensures { paper.new ≡ with_more paper.old (line (codes "e" ++ state_text state.now)) }
{
    match state {
        State::Queued(None) => put_line(paper, b"eQ", b""),
        State::Queued(Some(note)) => put_line(paper, b"eQ ", note.bytes()),
        State::Sent => put_line(paper, b"eS", b""),
        State::Failed(status, note) => put_cause(paper, b"eF", status, note),
        State::Returned(id) => put_returned(paper, *id),
        State::Dead(status, note) => put_cause(paper, b"eD", status, note),
    }
}

// The line of a state with a status and a note.
fn put_cause(paper: &mut Paper, tag: &[u8], status: &Status, note: &Note)
    requires { Fits paper.old (line (tag.now ++ cause status.now note.now)) }
    ensures { paper.new ≡ with_more paper.old (line (tag.now ++ cause status.now note.now)) }
{
    paper.put(tag);
    paper.put(b" ");
    paper.put(status.bytes());
    put_line(paper, b" ", note.bytes());
}

fn put_returned(paper: &mut Paper, id: Id)
    requires { Fits paper.old (line (codes "eR " ++ id_text id)) }
    ensures { paper.new ≡ with_more paper.old (line (codes "eR " ++ id_text id)) }
{
    paper.put(b"eR ");
    put_id(paper, id);
    paper.put(b"\n");
}

fn put_headers(paper: &mut Paper, headers: &[Text])
    requires { Fits paper.old (flat_map header_lines headers.now) }
    ensures { paper.new ≡ with_more paper.old (flat_map header_lines headers.now) }
{
    for header in headers {
        put_text_line(paper, b"H", header);
    }
}

// A line of a tag and a text.
fn put_line(paper: &mut Paper, tag: &[u8], text: &[u8])
    requires { Fits paper.old (line (tag.now ++ text.now)) }
    ensures { paper.new ≡ with_more paper.old (line (tag.now ++ text.now)) }
{
    paper.put(tag);
    paper.put(text);
    paper.put(b"\n");
}

fn put_text_line(paper: &mut Paper, tag: &[u8], text: &Text)
    requires { Fits paper.old (line (tag.now ++ text.now)) }
    ensures { paper.new ≡ with_more paper.old (line (tag.now ++ text.now)) }
{
    put_line(paper, tag, text.bytes());
}

// A line of a tag and a number.
fn put_number_line(paper: &mut Paper, tag: &[u8], number: u64)
    requires { Fits paper.old (line (tag.now ++ decimal number)) }
    ensures { paper.new ≡ with_more paper.old (line (tag.now ++ decimal number)) }
{
    paper.put(tag);
    put_decimal(paper, number as u128);
    paper.put(b"\n");
}

// A line of a tag and a number that may be below 0.
fn put_signed_line(paper: &mut Paper, tag: &[u8], number: i128)
    requires { Fits paper.old (line (tag.now ++ signed_decimal number)) }
    ensures { paper.new ≡ with_more paper.old (line (tag.now ++ signed_decimal number)) }
{
    paper.put(tag);
    if number < 0 {
        paper.put(b"-");
    }
    put_decimal(paper, number.unsigned_abs());
    paper.put(b"\n");
}

// The digits of a number.
#[tactic(auto, using(crate::proofs::Numbers::decimal_small, crate::proofs::Numbers::decimal_more))]
fn put_decimal(paper: &mut Paper, number: u128)
    requires { Fits paper.old (decimal number) }
    ensures { paper.new ≡ with_more paper.old (decimal number) }
{
    if number < 10 {
        paper.put(&[b'0' + number as u8]);
        return;
    }
    put_decimal(paper, number / 10);
    paper.put(&[b'0' + (number % 10) as u8]);
}

fn put_id(paper: &mut Paper, id: Id)
    requires { Fits paper.old (id_text id) }
    ensures { paper.new ≡ with_more paper.old (id_text id) }
{
    paper.put(&id.name(Kind::Qf).bytes()[2..]);
}
