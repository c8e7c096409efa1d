ghost use Rattle.std.specs.Prelude.{◌≡◌, ◌++◌, IfOk, IsTrue, OnOk, map};
ghost use Rattle.mail_base.specs.Notes.{blanked, is_status};
ghost use Rattle.mail_base.specs.declared.route.Cause.TheVariants.{BadScan, UnknownMailer};
ghost use Rattle.addr_route.specs.Errors as spec;
ghost use Rattle.addr_route.specs.inner.Texts.{name_in};

use mail_base::{Cause, NoMemory, RouteError, Status, Text, TryCopy, blanked};
use std::alloc::Global;

// A code, a status, and the text behind them up to the name that a cause may hold.
#[derive(Clone, Copy)]
struct Reply {
    code: u16,
    status: &'static [u8],
    text: &'static [u8],
}

/// The error that an address is refused with for a cause.
pub fn error_of(alloc: Global, cause: Cause) -> Result<RouteError, NoMemory>
    ensures { IfOk result (λ error. error ≡ spec.error_of cause) }
{
    let reply = reply_to(&cause);
    let text = text_of(alloc, reply.text, name_in(&cause))?;
    Ok(RouteError {
        code: reply.code,
        status: status_of(reply.status),
        text,
        cause,
    })
}

/// The error of a check set that answers with a mailer which says nothing to it.
pub fn answer_error(alloc: Global, mailer: &Text) -> Result<RouteError, NoMemory>
    ensures { IfOk result
        (λ error. error ≡ spec.error_with (spec.reply_to BadScan) (UnknownMailer mailer.now)) }
{
    let name = mailer.copy()?;
    let text = Text::of(alloc, b"Configuration error")?;
    Ok(RouteError {
        code: 451,
        status: status_of(b"4.3.5"),
        text,
        cause: Cause::UnknownMailer(name),
    })
}

fn reply_to(cause: &Cause) -> Reply
    ensures code { result.code ≡ (spec.reply_to cause.now).code }
    ensures status { result.status.now ≡ (spec.reply_to cause.now).status }
    ensures form { IsTrue (is_status result.status.now) }
    ensures text { result.text.now ++ map blanked (name_in cause.now)
        ≡ (spec.reply_to cause.now).text }
{
    match cause {
        Cause::Loop => reply_with(451, b"4.3.5", b"Configuration error"),
        Cause::Deep => reply_with(451, b"4.3.5", b"Configuration error"),
        Cause::Work => reply_with(451, b"4.3.5", b"Configuration error"),
        Cause::NoRuleset(_) => reply_with(451, b"4.3.5", b"Configuration error"),
        Cause::MapClass(_) => reply_with(451, b"4.3.5", b"Configuration error"),
        Cause::NoSuchMap(_) => reply_with(451, b"4.3.5", b"Configuration error"),
        Cause::BadScan => reply_with(451, b"4.3.5", b"Configuration error"),
        Cause::Long => reply_with(451, b"4.3.5", b"Configuration error"),
        Cause::BadAddress => reply_with(553, b"5.1.3", b"Bad address"),
        Cause::LongAddress => reply_with(553, b"5.1.3", b"Bad address"),
        Cause::NotResolved => reply_with(554, b"5.3.5", b"Address does not resolve"),
        Cause::UnknownMailer(_) => reply_with(554, b"5.3.5", b"Unknown mailer "),
        Cause::NoUser => reply_with(553, b"5.1.1", b"User required"),
        Cause::FileMailer => reply_with(550, b"5.2.4", b"File delivery not supported"),
        Cause::ErrorMailer => reply_with(451, b"4.3.5", b"Configuration error"),
    }
}

fn reply_with(code: u16, status: &'static [u8], text: &'static [u8]) -> Reply
    ensures code { result.code ≡ code }
    ensures status { result.status.now ≡ status.now }
    ensures text { result.text.now ≡ text.now }
{
    Reply { code, status, text }
}

// The name that a cause holds and its text says.
fn name_in(cause: &Cause) -> &[u8]
    ensures { result.now ≡ name_in cause.now }
{
    match cause {
        Cause::UnknownMailer(name) => name.bytes(),
        Cause::Loop => &[],
        Cause::Deep => &[],
        Cause::Work => &[],
        Cause::NoRuleset(_) => &[],
        Cause::MapClass(_) => &[],
        Cause::NoSuchMap(_) => &[],
        Cause::BadScan => &[],
        Cause::Long => &[],
        Cause::BadAddress => &[],
        Cause::LongAddress => &[],
        Cause::NotResolved => &[],
        Cause::NoUser => &[],
        Cause::FileMailer => &[],
        Cause::ErrorMailer => &[],
    }
}

/// The status of bytes that have its form.
pub fn status_of(bytes: &[u8]) -> Status
    requires { IsTrue (is_status bytes.now) }
    ensures { result ≡ bytes.now }
{
    Status::of(bytes).unwrap()
}

// A text, and a name behind it on one line.
fn text_of(alloc: Global, front: &[u8], name: &[u8]) -> Result<Text, NoMemory>
    ensures { IfOk result (λ text. text ≡ front.now ++ map blanked name.now) }
{
    let mut text = Text::of(alloc, front)?;
    push_blanked(&mut text, name)?;
    Ok(text)
}

/// Adds bytes, of which CR and LF become blanks.
pub fn push_blanked(text: &mut Text, bytes: &[u8]) -> Result<(), NoMemory>
    ensures { OnOk result (text.new ≡ text.old ++ map blanked bytes.now) }
{
    for byte in bytes {
        text.push(blanked(*byte))?;
    }
    Ok(())
}
