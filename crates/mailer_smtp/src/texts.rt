ghost use Rattle.std.specs.Prelude.{◌≡◌, map, IfOk};
ghost use Rattle.std.specs.List.{list_all, list_any};
ghost use Rattle.mailer_smtp.specs.Texts.{greeting_line, hello_word, is_said, is_said_byte, is_sayable, kit_of, mail_end, path_line, rcpt_of};

use crate::dots::stuffed;
use crate::{Kit, Letter, Speech};
use mail_base::{NoMemory, Seq, Text};
use std::alloc::Global;

/// Whether there is anybody to whom anything may be said.
pub(crate) fn is_sayable(letter: &Letter) -> bool
    ensures { result ≡ is_sayable letter.now }
{
    is_said(letter.host.bytes()) && is_said(letter.sender.bytes()) && any_said(letter.users.items())
}

fn any_said(users: &[Text]) -> bool
    ensures { result ≡ list_any is_said users.now }
{
    users.iter().any(|user| is_said(user.bytes()))
}

// Whether a text has neither CR nor LF.
fn is_said(text: &[u8]) -> bool
    ensures { result ≡ is_said text.now }
{
    text.iter().all(|byte| is_said_byte(*byte))
}

fn is_said_byte(byte: u8) -> bool
    ensures { result ≡ is_said_byte byte }
{
    byte != b'\n' && byte != b'\r'
}

/// All that may be said.
pub(crate) fn kit_of(alloc: Global, speech: Speech, letter: &Letter) -> Result<Kit, NoMemory>
    ensures { IfOk result (λ kit. kit ≡ kit_of speech letter.now) }
{
    Ok(Kit {
        hello: greeting(alloc, hello_word(speech), &letter.host)?,
        again: greeting(alloc, b"HELO", &letter.host)?,
        mail: path(alloc, b"MAIL FROM:<", &letter.sender, b">\r\n")?,
        mail_eight: path(
            alloc,
            b"MAIL FROM:<",
            &letter.sender,
            mail_end(letter.eight),
        )?,
        start: Text::of(alloc, b"DATA\r\n")?,
        quit: Text::of(alloc, b"QUIT\r\n")?,
        text: stuffed(alloc, letter.message.bytes())?,
        rcpts: rcpts(alloc, &letter.users)?,
    })
}

fn hello_word(speech: Speech) -> &'static [u8]
    ensures { result.now ≡ hello_word speech }
{
    match speech {
        Speech::Smtp => b"EHLO",
        Speech::Lmtp => b"LHLO",
    }
}

fn mail_end(eight: bool) -> &'static [u8]
    ensures { result.now ≡ mail_end eight }
{
    if eight {
        return b"> BODY=8BITMIME\r\n";
    }
    b">\r\n"
}

fn greeting(alloc: Global, word: &[u8], host: &Text) -> Result<Text, NoMemory>
    ensures { IfOk result (λ text. text ≡ greeting_line word.now host.now) }
{
    let mut text = Text::of(alloc, word)?;
    text.push(b' ')?;
    text.extend(host.bytes())?;
    text.extend(b"\r\n")?;
    Ok(text)
}

fn path(alloc: Global, word: &[u8], path: &Text, end: &[u8]) -> Result<Text, NoMemory>
    ensures { IfOk result (λ text. text ≡ path_line word.now path.now end.now) }
{
    let mut text = Text::of(alloc, word)?;
    text.extend(path.bytes())?;
    text.extend(end)?;
    Ok(text)
}

fn rcpts(alloc: Global, users: &Seq<Text>) -> Result<Seq<Option<Text>>, NoMemory>
    ensures { IfOk result (λ lines. lines ≡ map rcpt_of users.now) }
{
    let mut lines = Seq::new(alloc);
    for user in users.items() {
        lines.push(rcpt(alloc, user)?)?;
    }
    Ok(lines)
}

fn rcpt(alloc: Global, user: &Text) -> Result<Option<Text>, NoMemory>
    ensures { IfOk result (λ line. line ≡ rcpt_of user.now) }
{
    if !is_said(user.bytes()) {
        return Ok(None);
    }
    Ok(Some(path(alloc, b"RCPT TO:<", user, b">\r\n")?))
}
