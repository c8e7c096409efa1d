// What a control text that was committed says to the log.
use crate::line::Line;
use crate::log::Log;

/// A recipient, and what stands behind the tag of its state.
#[derive(Clone, Copy)]
struct Row<'a> {
    address: &'a [u8],
    state: &'a [u8],
}

/// Tells of a new entry, whose body has so many bytes, and of its rows that were tried.
pub(crate) fn tell_new(log: Log, id: &[u8], text: &[u8], size: u64) {
    let mut line = begun(log, id);
    line.put(b"from=");
    line.put(field(text, b"S"));
    line.put(b", size=");
    line.put_number(size);
    line.put(b", class=");
    line.put(field(text, b"c"));
    line.put(b", nrcpts=");
    line.put_number(count_rows(text));
    put_known(&mut line, b", proto=", field(text, b"$r"), b"");
    put_known(
        &mut line,
        b", relay=[",
        field(text, b"${client_addr}"),
        b"]",
    );
    log.tell(line);
    tell_changes(log, id, b"", text);
}

/// Tells of each row that isn't as it was in the text before.
pub(crate) fn tell_changes(log: Log, id: &[u8], before: &[u8], text: &[u8]) {
    let mut old = before;
    let mut new = text;
    for _ in 0..u64::MAX {
        let Some((row, after)) = next_row(new) else {
            return;
        };
        new = after;
        let (was, behind) = earlier(old);
        old = behind;
        if row.state != was {
            tell_row(log, id, row, was);
        }
    }
}

// The state of the next row of the text before, and what comes behind it. A row that wasn't there
// was queued.
fn earlier(text: &[u8]) -> (&[u8], &[u8]) {
    match next_row(text) {
        Some((row, after)) => (row.state, after),
        None => (b"Q", b""),
    }
}

// Tells of a row by its state, and what this was before.
fn tell_row(log: Log, id: &[u8], row: Row<'_>, was: &[u8]) {
    let mut line = begun(log, id);
    match row.state {
        [b'R', b' ', returned @ ..] => {
            line.put(returned);
            line.put(b": DSN: ");
            line.put(cause(was).1);
        }
        [b'Q', b' ', note @ ..] => {
            put_to(&mut line, row.address);
            line.put(b", stat=Deferred: ");
            line.put(note);
        }
        [b'S', ..] => {
            put_to(&mut line, row.address);
            line.put(b", stat=Sent");
        }
        [b'F' | b'D', ..] => {
            let (status, note) = cause(row.state);
            put_to(&mut line, row.address);
            line.put(b", dsn=");
            line.put(status);
            line.put(b", stat=");
            line.put(note);
        }
        _ => {
            put_to(&mut line, row.address);
            line.put(b", stat=queued");
        }
    }
    log.tell(line);
}

fn begun(log: Log, id: &[u8]) -> Line {
    let mut line = log.line();
    line.put(id);
    line.put(b": ");
    line
}

fn put_to(line: &mut Line, address: &[u8]) {
    line.put(b"to=");
    line.put(address);
}

// A value between two texts, unless it is empty.
fn put_known(line: &mut Line, before: &[u8], value: &[u8], behind: &[u8]) {
    if !value.is_empty() {
        line.put(before);
        line.put(value);
        line.put(behind);
    }
}

// The status and the note of a state that has them.
fn cause(state: &[u8]) -> (&[u8], &[u8]) {
    let (_, rest) = split_at(state, b' ');
    split_at(rest, b' ')
}

// The next row, and what comes behind it.
fn next_row(text: &[u8]) -> Option<(Row<'_>, &[u8])> {
    let mut rest = text;
    let mut address = b"".as_slice();
    for _ in 0..u64::MAX {
        if rest.is_empty() {
            break;
        }
        let (line, after) = split_at(rest, b'\n');
        rest = after;
        match line {
            [b'R', flagged @ ..] => address = split_at(flagged, b':').1,
            [b'e', state @ ..] => return Some((Row { address, state }, rest)),
            _ => {}
        }
    }
    None
}

fn count_rows(text: &[u8]) -> u64 {
    let mut rest = text;
    let mut count: u64 = 0;
    for _ in 0..u64::MAX {
        let Some((_, after)) = next_row(rest) else {
            break;
        };
        rest = after;
        count = count.saturating_add(1);
    }
    count
}

// What stands behind a tag in the first line that begins with it.
fn field<'a>(text: &'a [u8], tag: &[u8]) -> &'a [u8] {
    let mut rest = text;
    for _ in 0..u64::MAX {
        if rest.is_empty() {
            break;
        }
        let (line, after) = split_at(rest, b'\n');
        if let Some(found) = line.strip_prefix(tag) {
            return found;
        }
        rest = after;
    }
    b""
}

// What stands before the first such byte, and what behind it.
fn split_at(text: &[u8], end: u8) -> (&[u8], &[u8]) {
    match text.iter().position(|byte| *byte == end) {
        Some(place) => (
            text.get(..place).unwrap_or(b""),
            text.get(place.saturating_add(1)..).unwrap_or(b""),
        ),
        None => (text, b""),
    }
}
