// Members and rows written out.
use alias_expand::{AliasFault, Aliases, Member};
use mail_base::{Draw, NoMemory, Resolved, RouteError, Seq, Text, Triple};

/// Adds these bytes, one after the other.
pub(crate) fn add(out: &mut Text, parts: &[&[u8]]) -> Result<(), NoMemory> {
    for part in parts {
        out.extend(part)?;
    }
    Ok(())
}

/// Adds members: `<..>` is an address, `{..}` an include.
pub(crate) fn show(members: &Seq<Member>, out: &mut Text) -> Result<(), NoMemory> {
    for member in members.items() {
        match member {
            Member::Address(text) => add(out, &[b"<", text.bytes(), b">"])?,
            Member::Include(file) => add(out, &[b"{", file.bytes(), b"}"])?,
        }
    }
    Ok(())
}

/// What reading a text comes to: 0 where it is taken, its line where it is refused, and `None`
/// where there was no memory, or the text is longer than a file may be.
pub(crate) fn outcome_of(aliases: &mut Aliases, text: &Text) -> Option<u32> {
    if text.len() > 4_294_967_295 {
        return None;
    }
    match aliases.read(text) {
        Ok(()) => Some(0),
        Err(AliasFault::Refused { line }) => Some(line),
        Err(AliasFault::NoMemory) => None,
    }
}

/// Adds the code of an error and its text.
pub(crate) fn put_error(out: &mut Text, error: &RouteError) -> Result<(), NoMemory> {
    let code = error.code;
    let digits = format!(in out.allocator(); "{code} ")?;
    add(out, &[digits.as_bytes(), error.text.bytes()])
}

fn put_triple(out: &mut Text, triple: &Triple) -> Result<(), NoMemory> {
    let (mailer, host) = (triple.mailer.bytes(), triple.host.bytes());
    add(out, &[mailer, b"/", host, b"/", triple.user.bytes()])
}

fn put_resolved(out: &mut Text, resolved: &Resolved) -> Result<(), NoMemory> {
    match resolved {
        Resolved::Goes(triple) => put_triple(out, triple),
        Resolved::Refuses(error) => put_error(out, error),
    }
}

fn put_row(out: &mut Text, row: &Draw) -> Result<(), NoMemory> {
    let mark: &[u8] = if row.primary { b"=" } else { b"" };
    add(out, &[row.address.bytes(), mark, row.sender.bytes()])?;
    put_resolved(out, &row.resolved)?;
    out.push(b';')
}

/// Adds rows, each as its address, `=` where it stands for what was asked itself, its sender, and
/// where it goes or why it goes nowhere.
pub(crate) fn put_rows(out: &mut Text, rows: &Seq<Draw>) -> Result<(), NoMemory> {
    for row in rows.items() {
        put_row(out, row)?;
    }
    Ok(())
}
