ghost use Rattle.std.specs.Prelude.{◌≡◌, ◌<◌, ◌≤◌, ◌==◌, IfOk, IfSome, IsTrue, length, map, position, take};
ghost use Rattle.mail_base.specs.Notes.{is_digit, is_status};
ghost use Rattle.ruleset_run.specs.Filling.{unquoted};
ghost use Rattle.addr_route.specs.Errors as spec;

use crate::error::{push_blanked, status_of};
use crate::exit::{class_code, host_status};
use addr_tokens::join;
use bstr::ByteSlice;
use mail_base::{Cause, NoMemory, RouteError, Seq, Status, Text, Token, TryCopy, Word};
use std::alloc::Global;

/// What the mailer `error` says by its host and the tokens of its user.
pub fn said_by(alloc: Global, host: &Text, user: &Seq<Token>) -> Result<RouteError, NoMemory>
    ensures { IfOk result (λ error. error ≡ spec.error_by host.now (spec.message_of user.now)) }
{
    let message = message_of(alloc, user.items())?;
    error_by(alloc, host.bytes(), message.bytes())
}

// The tokens with a blank between two neighbouring words, without the quotes of those that have
// some.
fn message_of(alloc: Global, user: &[Token]) -> Result<Text, NoMemory>
    ensures { IfOk result (λ text. text ≡ spec.message_of user.now) }
{
    let tokens = all_bare(alloc, user)?;
    join(alloc, &tokens, Some(b' '))
}

fn all_bare(alloc: Global, tokens: &[Token]) -> Result<Seq<Token>, NoMemory>
    ensures { IfOk result (λ list. list ≡ map spec.bare tokens.now) }
{
    let mut list = Seq::new(alloc);
    for token in tokens {
        list.push(bare(alloc, token)?)?;
    }
    Ok(list)
}

fn bare(alloc: Global, token: &Token) -> Result<Token, NoMemory>
    ensures { IfOk result (λ given. given ≡ spec.bare token.now) }
{
    match token {
        Token::Quoted(text) => Ok(Token::Word(Word::of(alloc, unquoted(text.bytes()))?)),
        Token::Word(text) => Ok(Token::Word(text.copy()?)),
        Token::Op(byte) => Ok(Token::Op(*byte)),
        Token::Sign(mark) => Ok(Token::Sign(*mark)),
    }
}

// A quoted string without the double quotes at its ends.
fn unquoted(text: &[u8]) -> &[u8]
    ensures { result.now ≡ unquoted text.now }
{
    if text.len() < 2 {
        return &[];
    }
    &text[1..text.len() - 1]
}

fn error_by(alloc: Global, host: &[u8], message: &[u8]) -> Result<RouteError, NoMemory>
    ensures { IfOk result (λ error. error ≡ spec.error_by host.now message.now) }
{
    let status = host_status(host);
    match code_at(message) {
        Some(code) => with_status(alloc, code, status, &message[4..]),
        None => refusal(alloc, class_code(status), status, message),
    }
}

// The code of three digits and a blank at the front of a message.
fn code_at(message: &[u8]) -> Option<u16>
    ensures code { result ≡ spec.code_at message.now }
    ensures long { IfSome result (λ code. 4 ≤ length message.now) }
{
    match message {
        [class, tens, ones, blank, ..] => code_of(*class, *tens, *ones, *blank),
        _ => None,
    }
}

fn code_of(class: u8, tens: u8, ones: u8, blank: u8) -> Option<u16>
    ensures { result ≡ spec.code_of class tens ones blank }
{
    if (class == b'4' || class == b'5') && (is_digit(tens) && (is_digit(ones) && blank == b' ')) {
        let hundreds = (class - b'0') as u16 * 100;
        let rest = (tens - b'0') as u16 * 10 + (ones - b'0') as u16;
        return Some(hundreds + rest);
    }
    None
}

fn is_digit(byte: u8) -> bool
    ensures { result ≡ is_digit byte }
{
    byte >= b'0' && byte <= b'9'
}

// A refusal behind its code, whose status may stand at the front of the text.
fn with_status(alloc: Global, code: u16, status: &[u8], text: &[u8]) -> Result<RouteError, NoMemory>
    requires { IsTrue (is_status status.now) }
    ensures { IfOk result
        (λ error. error ≡ spec.with_status code status.now (spec.status_end text.now) text.now) }
{
    match status_end(text) {
        Some(place) => refusal(alloc, code, &text[..place], &text[place + 1..]),
        None => refusal(alloc, code, status, text),
    }
}

// The place of the first blank, where a status stands before it.
fn status_end(text: &[u8]) -> Option<usize>
    ensures place { result ≡ spec.status_end text.now }
    ensures form { IfSome result
        (λ place. IsTrue (is_status (take place text.now)) × (place < length text.now)) }
{
    match first_blank(text) {
        Some(place) => {
            if Status::of(&text[..place]).is_some() {
                return Some(place);
            }
            None
        }
        None => None,
    }
}

#[tactic(auto, using(mail_base::proofs::Dots::first_is_position))]
fn first_blank(text: &[u8]) -> Option<usize>
    ensures place { result ≡ position (λ byte. byte == 32) text.now }
    ensures within { IfSome result (λ place. place < length text.now) }
{
    text.find_byte(b' ')
}

fn refusal(alloc: Global, code: u16, status: &[u8], text: &[u8]) -> Result<RouteError, NoMemory>
    requires { IsTrue (is_status status.now) }
    ensures { IfOk result (λ error. error ≡ spec.refusal code status.now text.now) }
{
    let text = said(alloc, text)?;
    Ok(RouteError {
        code,
        status: status_of(status),
        text,
        cause: Cause::ErrorMailer,
    })
}

fn said(alloc: Global, text: &[u8]) -> Result<Text, NoMemory>
    ensures { IfOk result (λ said. said ≡ spec.said text.now) }
{
    if text.is_empty() {
        return Text::of(alloc, b"Refused");
    }
    let mut said = Text::new(alloc);
    push_blanked(&mut said, text)?;
    Ok(said)
}
