// What is told of an address, as a text.
use mail_base::{NoMemory, Resolved, RouteError, Text, Triple};

fn put_triple(out: &mut Text, triple: &Triple) -> Result<(), NoMemory> {
    out.extend(triple.mailer.bytes())?;
    out.extend(b", ")?;
    out.extend(triple.host.bytes())?;
    out.extend(b", ")?;
    out.extend(triple.user.bytes())
}

fn put_code(out: &mut Text, code: u16) -> Result<(), NoMemory> {
    let digits = format!(in out.allocator(); "{code} ")?;
    out.extend(digits.as_bytes())
}

/// The code, the status, the text and the cause's name.
pub(crate) fn put_error(out: &mut Text, error: &RouteError) -> Result<(), NoMemory> {
    put_code(out, error.code)?;
    out.extend(error.status.bytes())?;
    out.push(b' ')?;
    out.extend(error.text.bytes())?;
    put_cause(out, error.cause.name())
}

pub(crate) fn put_cause(out: &mut Text, name: &[u8]) -> Result<(), NoMemory> {
    out.extend(b" (")?;
    out.extend(name)?;
    out.push(b')')
}

pub(crate) fn put_resolved(out: &mut Text, resolved: &Resolved) -> Result<(), NoMemory> {
    match resolved {
        Resolved::Goes(triple) => put_triple(out, triple),
        Resolved::Refuses(error) => put_error(out, error),
    }
}
