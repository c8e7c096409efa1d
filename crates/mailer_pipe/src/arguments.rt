ghost use Rattle.std.specs.Prelude.{◌≡◌, ◌<◌, ◌≤◌, ◌++◌, IfNone, IfOk, IfSome, OnOk, length, position, true};
ghost use Rattle.mailer_pipe.specs.Arguments as spec;
ghost use Rattle.mailer_pipe.specs.inner.Passing.{Passes};

use cf_macros::expanded;
use mail_base::{Macros, Mailer, NoMemory, Seq, Text, TryCopy, literal};
use std::alloc::Global;

/// Whether a mailer's A gives it its users as arguments: a word behind the program's name holds
/// `$u`, or `${u}`, `$&u` or `$&{u}`. It takes no memory.
pub fn takes_users(mailer: &Mailer) -> bool
    ensures { result ≡ spec.takes_users mailer.now }
{
    words_of(mailer).iter().any(|word| holds_user(word.bytes()))
}

/// Whether a user may be an argument: the system cuts arguments at a NUL. A row of one that may not
/// be gets [`no_argument`], and no program is started for it. It takes no memory.
///
/// [`no_argument`]: crate::no_argument
pub fn is_argument(user: &Text) -> bool
    ensures { result ≡ spec.is_argument user.now }
{
    !user.bytes().contains(&0)
}

/// Whether each of these users may be an argument. It takes no memory.
pub fn are_arguments(users: &Seq<Text>) -> bool
    ensures { result ≡ spec.are_arguments users.now }
{
    users.items().iter().all(|user| is_argument(user))
}

// The words of A behind the program's name.
pub(crate) fn words_of(mailer: &Mailer) -> &[Text]
    ensures { result.now ≡ spec.words_of mailer.now }
{
    let words = mailer.args.items();
    if words.is_empty() {
        return words;
    }
    &words[1..]
}

// Whether a word holds `$u`.
fn holds_user(word: &[u8]) -> bool
    ensures { result ≡ spec.holds_user word.now }
{
    let mut place = 0;
    'bytes: while place + 1 < word.len() {
        let Some(width) = passed(&word[place..]) else {
            return true;
        };
        place += width;
    }
    false
}

// How many bytes may be passed in a search for `$u`, or `None` where the text begins with it.
fn passed(text: &[u8]) -> Option<usize>
    requires { 2 ≤ length text.now }
    ensures some { IfSome result (Passes text.now) }
    ensures none { IfNone result (spec.holds_user text.now ≡ true) }
{
    if text[0] != b'$' {
        return Some(1);
    }
    if text[1] == b'$' {
        return Some(2);
    }
    if names_user(&text[1..]) {
        return None;
    }
    Some(1)
}

fn names_user(text: &[u8]) -> bool
    ensures { result ≡ spec.names_user text.now }
{
    text.starts_with(b"u")
        || text.starts_with(b"{u}")
        || text.starts_with(b"&u")
        || text.starts_with(b"&{u}")
}

/// The arguments of a program: its words, expanded, of which the first that holds `$u` stands once
/// for each user.
pub(crate) fn arguments(
    alloc: Global,
    words: &[Text],
    macros: &Macros,
    users: &[Text],
) -> Result<Seq<Text>, NoMemory>
    ensures { IfOk result (λ args. args ≡ spec.args_of macros.now users.now words.now) }
{
    let mut args = Seq::new(alloc);
    let Some(place) = user_place(words) else {
        push_plain(&mut args, words, macros)?;
        return Ok(args);
    };
    push_plain(&mut args, &words[..place], macros)?;
    let mut own = macros.copy()?;
    push_users(&mut args, &words[place], &mut own, users)?;
    push_plain(&mut args, &words[place + 1..], &own)?;
    Ok(args)
}

// The place of the first word that holds `$u`.
fn user_place(words: &[Text]) -> Option<usize>
    ensures place { result ≡ position spec.holds_user words.now }
    ensures within { IfSome result (λ place. place < length words.now) }
{
    words.iter().position(|word| holds_user(word.bytes()))
}

// Adds words, each expanded.
fn push_plain(args: &mut Seq<Text>, words: &[Text], macros: &Macros) -> Result<(), NoMemory>
    ensures { OnOk result (args.new ≡ args.old ++ spec.plain_args macros.now words.now) }
{
    for word in words {
        args.push(expanded(args.allocator(), word, macros)?)?;
    }
    Ok(())
}

// Adds a word once for each user, and leaves the macros of the last.
fn push_users(
    args: &mut Seq<Text>,
    word: &Text,
    macros: &mut Macros,
    users: &[Text],
) -> Result<(), NoMemory>
    ensures args { OnOk result
        (args.new ≡ args.old ++ spec.user_args macros.old users.now word.now) }
    ensures macros { OnOk result (macros.new ≡ spec.with_users users.now macros.old) }
{
    for user in users {
        let value = literal(args.allocator(), user.bytes())?;
        macros.define(b"u", &value)?;
        args.push(expanded(args.allocator(), word, macros)?)?;
    }
    Ok(())
}
