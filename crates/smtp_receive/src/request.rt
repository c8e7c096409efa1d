ghost use Rattle.std.specs.Prelude.{◌≡◌, ◌&&◌, not, length, nat_lt, true, IfOk};
ghost use Rattle.smtp_lines.specs.Commands.{as_read};
ghost use Rattle.smtp_lines.specs.Reading.{is_nothing, order_of};
ghost use Rattle.smtp_receive.specs.Dialogue.{bracketed, fault_reply, is_large, is_uncut, mail_fault, path_reply, rcpt_fault};

use crate::reply::Reply;
use addr_tokens::cut;
use mail_base::{Command, LineFault, NoMemory, Text, Verb};
use smtp_lines::command;

/// What a command line says, or the first fault that it has.
pub(crate) fn order(line: &[u8]) -> Result<Command<'_>, LineFault>
    ensures { as_read result ≡ order_of line.now }
{
    command(line)
}

/// The reply to a command that has a fault, by whether there is a sender.
pub(crate) fn fault_reply(given: bool, fault: LineFault) -> Reply
    ensures { result ≡ fault_reply given fault }
{
    match fault {
        LineFault::BadByte => Reply::BadByte,
        LineFault::Unknown => Reply::Unrecognized,
        LineFault::ArgumentNeeded => Reply::ArgumentNeeded,
        LineFault::NoArgument => Reply::NoArgument,
        LineFault::Syntax(verb) => path_reply(verb, given, Reply::SyntaxError),
        LineFault::PathTooLong(verb) => path_reply(verb, given, Reply::PathTooLong),
        LineFault::Parameter(verb) => path_reply(verb, given, Reply::ParameterNotKnown),
    }
}

/// The reply to a path, but where its command is out of place.
fn path_reply(verb: Verb, given: bool, reply: Reply) -> Reply
    ensures { result ≡ path_reply verb given reply }
{
    match (verb, given) {
        (Verb::Mail, true) => Reply::SenderGiven,
        (Verb::Rcpt, false) => Reply::NeedMail,
        _ => reply,
    }
}

/// Why a MAIL isn't put to the judge, if it isn't: by whether there is a sender, the most bytes of
/// a message, and those that are declared.
pub(crate) fn mail_fault(given: bool, limit: u64, size: Option<u128>) -> Option<Reply>
    ensures { result ≡ mail_fault given limit size }
{
    if given {
        return Some(Reply::SenderGiven);
    }
    if is_large(limit, size) {
        return Some(Reply::MessageTooLarge);
    }
    None
}

fn is_large(limit: u64, size: Option<u128>) -> bool
    ensures { result ≡ is_large limit size }
{
    match size {
        Some(size) => size > u128::from(limit),
        None => false,
    }
}

/// Why an RCPT isn't put to the judge, if it isn't: by whether there is a sender, the most
/// recipients, and how many there are.
pub(crate) fn rcpt_fault(given: bool, limit: u64, count: u64, path: &[u8]) -> Option<Reply>
    ensures { result ≡ rcpt_fault given limit count path.now }
{
    if !given {
        return Some(Reply::NeedMail);
    }
    if path.is_empty() {
        return Some(Reply::UserRequired);
    }
    if count >= limit {
        return Some(Reply::TooManyRecipients);
    }
    None
}

/// Whether a path that isn't empty can't be cut into tokens.
pub(crate) fn is_uncut(path: &[u8], angled: &Text, operators: &Text) -> Result<bool, NoMemory>
    requires { angled.now ≡ bracketed path.now }
    ensures { IfOk result (λ uncut. uncut ≡ is_uncut operators.now path.now) }
{
    if path.is_empty() {
        return Ok(false);
    }
    Ok(cut(angled.allocator(), angled, operators, true)?.is_none())
}
