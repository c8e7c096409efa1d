ghost use Rattle.std.specs.Prelude.{◌≡◌, ◌≤◌, ◌++◌, IfOk, OnOk, codes};
ghost use Rattle.std.specs.Fmt.{decimal};
ghost use Rattle.mail_base.specs.Texts.{crlf};
ghost use Rattle.smtp_receive.specs.Replies.{code_text, extended_text, grant_text, out_of_memory_text, refusal_text, text_of, too_many_sessions_text, words_of};

use mail_base::{NoMemory, RouteError, Text};
use std::alloc::Global;

/// A reply that is always the same.
#[derive(Clone, Copy)]
pub(crate) enum Reply {
    LineTooLong,
    BadByte,
    Unrecognized,
    ArgumentNeeded,
    NoArgument,
    SenderGiven,
    NeedMail,
    NeedRcpt,
    SyntaxError,
    PathTooLong,
    ParameterNotKnown,
    UserRequired,
    TooManyRecipients,
    BadAddress,
    SenderOk,
    RecipientOk,
    MessageTooLarge,
    HeaderTooLarge,
    TooManyHops,
    ResetState,
    Okay,
    CannotVerify,
    NotAvailable,
    SeeStandard,
}

impl Reply {
    fn words(self) -> &'static [u8]
        ensures { result.now ≡ words_of self }
    {
        match self {
            Reply::LineTooLong => b"500 5.5.2 Line too long",
            Reply::BadByte => b"500 5.5.2 Bad byte in line",
            Reply::Unrecognized => b"500 5.5.1 Command unrecognized",
            Reply::ArgumentNeeded => b"501 5.5.4 Argument needed",
            Reply::NoArgument => b"501 5.5.4 No argument allowed",
            Reply::SenderGiven => b"503 5.5.1 Sender already given",
            Reply::NeedMail => b"503 5.5.1 Need MAIL first",
            Reply::NeedRcpt => b"503 5.5.1 Need RCPT first",
            Reply::SyntaxError => b"501 5.5.2 Syntax error in path",
            Reply::PathTooLong => b"501 5.1.3 Path too long",
            Reply::ParameterNotKnown => b"555 5.5.4 Parameter not known",
            Reply::UserRequired => b"553 5.1.3 User address required",
            Reply::TooManyRecipients => b"452 4.5.3 Too many recipients",
            Reply::BadAddress => b"553 5.1.3 Bad address",
            Reply::SenderOk => b"250 2.1.0 Sender ok",
            Reply::RecipientOk => b"250 2.1.5 Recipient ok",
            Reply::MessageTooLarge => b"552 5.3.4 Message too large",
            Reply::HeaderTooLarge => b"552 5.6.0 Header too large",
            Reply::TooManyHops => b"554 5.4.6 Too many hops",
            Reply::ResetState => b"250 2.0.0 Reset state",
            Reply::Okay => b"250 2.0.0 OK",
            Reply::CannotVerify => b"252 2.5.2 Cannot verify",
            Reply::NotAvailable => b"502 5.7.0 Not available",
            Reply::SeeStandard => b"214 2.0.0 See RFC 5321",
        }
    }

    /// The line of the reply.
    pub(crate) fn text(self, alloc: Global) -> Result<Text, NoMemory>
        ensures { IfOk result (λ text. text ≡ text_of self) }
    {
        line_text(alloc, self.words())
    }
}

/// The reply to DATA that lines of a message follow, 354.
pub(crate) fn grant(alloc: Global) -> Result<Text, NoMemory>
    ensures { IfOk result (λ text. text ≡ grant_text) }
{
    line_text(alloc, b"354 Enter mail, end with \".\" on a line by itself")
}

/// The reply to a line for which there is no memory, 452. Asked for early, it can be kept until
/// then.
pub fn out_of_memory(alloc: Global) -> Result<Text, NoMemory>
    ensures { IfOk result (λ text. text ≡ out_of_memory_text) }
{
    line_text(alloc, b"452 4.3.1 Out of memory")
}

/// The only reply to a peer with which no session begins, 421.
pub fn too_many_sessions(alloc: Global) -> Result<Text, NoMemory>
    ensures { IfOk result (λ text. text ≡ too_many_sessions_text) }
{
    line_text(alloc, b"421 4.3.2 Too many sessions")
}

/// The line of a reply in these words.
fn line_text(alloc: Global, words: &[u8]) -> Result<Text, NoMemory>
    ensures { IfOk result (λ text. text ≡ words.now ++ crlf) }
{
    let mut text = Text::of(alloc, words)?;
    text.extend(b"\r\n")?;
    Ok(text)
}

/// The line of a reply that names the host between other words.
pub(crate) fn host_text(
    alloc: Global,
    front: &[u8],
    host: &[u8],
    back: &[u8],
) -> Result<Text, NoMemory>
    ensures { IfOk result (λ text. text ≡ front.now ++ host.now ++ back.now ++ crlf) }
{
    let mut text = Text::of(alloc, front)?;
    text.extend(host)?;
    text.extend(back)?;
    text.extend(b"\r\n")?;
    Ok(text)
}

/// The reply with which a judge refuses.
pub(crate) fn refusal(alloc: Global, error: &RouteError) -> Result<Text, NoMemory>
    requires { error.now.code ≤ 999 }
    ensures { IfOk result (λ text. text ≡ refusal_text error.now) }
{
    let mut text = code_of(alloc, error.code)?;
    text.push(b' ')?;
    text.extend(error.status.bytes())?;
    text.push(b' ')?;
    text.extend(error.text.bytes())?;
    text.extend(b"\r\n")?;
    Ok(text)
}

fn code_of(alloc: Global, code: u16) -> Result<Text, NoMemory>
    requires { code ≤ 999 }
    ensures { IfOk result (λ text. text ≡ code_text code) }
{
    let digits = [
        b'0' + (code / 100) as u8,
        b'0' + (code / 10 % 10) as u8,
        b'0' + (code % 10) as u8,
    ];
    Text::of(alloc, &digits)
}

/// The reply to EHLO, by the most bytes of a message.
pub(crate) fn extended(alloc: Global, host: &[u8], limit: u64) -> Result<Text, NoMemory>
    ensures { IfOk result (λ text. text ≡ extended_text host.now limit) }
{
    let mut text = host_text(alloc, b"250-", host, b" Hello")?;
    text.extend(b"250-PIPELINING\r\n250-SIZE ")?;
    push_number(&mut text, limit)?;
    text.extend(b"\r\n250 8BITMIME\r\n")?;
    Ok(text)
}

fn push_number(text: &mut Text, number: u64) -> Result<(), NoMemory>
    ensures { OnOk result (text.new ≡ text.old ++ decimal number) }
{
    let digits = format!(in text.allocator(); "{number}")?;
    text.extend(digits.as_bytes())
}
