ghost use Rattle.std.specs.Prelude.{◌≡◌};
ghost use Rattle.cf_macros.specs.Names as names;
ghost use Rattle.addr_test.specs.Forms as spec;
ghost use Rattle.addr_test.specs.inner.Views.{seen};

use crate::name::split_word;
use cf_macros::split_name;
use mail_base::MOST_LINE;

/// What a line asks for, where it isn't `/quit`. What it holds is borrowed from the line.
#[derive(Clone, Copy)]
pub(crate) enum Form<'a> {
    /// Nothing: it is empty, or a comment.
    Quiet,
    TooLong,
    /// Runs of sets, by their list, on an address.
    Runs(&'a [u8], &'a [u8]),
    /// `/parse`, with an address.
    Parse(&'a [u8]),
    /// `/try`, with a mailer's name and an address.
    Try(&'a [u8], &'a [u8]),
    /// `/map`, with the map's name and a key.
    Lookup(&'a [u8], &'a [u8]),
    /// `=S`, with a set's name.
    Rules(&'a [u8]),
    /// `=M`.
    Mailers,
    /// `$x`, with a macro's name.
    Value(&'a [u8]),
    /// `$=c`, with a class's name.
    Members(&'a [u8]),
    /// `.D`, with a macro's name and its value.
    Defines(&'a [u8], &'a [u8]),
    /// `.C`, with a class's name and words.
    Adds(&'a [u8], &'a [u8]),
    Unknown,
}

/// The form of a line that isn't `/quit`.
#[tactic(auto, unfolding(mail_base::specs::Limits::most_line))]
pub(crate) fn form_of(line: &[u8]) -> Form<'_>
    ensures { seen result ≡ spec.form_of line.now }
{
    let Some((first, rest)) = line.split_first() else {
        return Form::Quiet;
    };
    if *first == b'#' {
        return Form::Quiet;
    }
    if line.len() > MOST_LINE {
        return Form::TooLong;
    }
    match *first {
        b'/' => command_form(line),
        b'=' => shown_form(rest),
        b'$' => asked_form(rest),
        b'.' => change_form(rest),
        _ => sets_form(line),
    }
}

// A list of sets, and an address behind it.
fn sets_form(line: &[u8]) -> Form<'_>
    ensures { seen result ≡ spec.sets_form (spec.split_word line.now) }
{
    let (sets, address) = split_word(line);
    if lacks_name(sets) {
        return Form::Unknown;
    }
    Form::Runs(sets, address)
}

// Whether one of the names in a list of sets is empty.
fn lacks_name(sets: &[u8]) -> bool
    ensures { result ≡ spec.lacks_name sets.now }
{
    sets.split(|byte| *byte == b',').any(|name| name.is_empty())
}

fn command_form(line: &[u8]) -> Form<'_>
    ensures { seen result ≡ spec.command_form (spec.split_word line.now) }
{
    let (word, behind) = split_word(line);
    if word == b"/map".as_slice() {
        return lookup_form(behind);
    }
    if word == b"/parse".as_slice() {
        return parse_form(behind);
    }
    if word == b"/try".as_slice() {
        return try_form(behind);
    }
    Form::Unknown
}

fn parse_form(address: &[u8]) -> Form<'_>
    ensures { seen result ≡ spec.parse_form address.now }
{
    if address.is_empty() {
        return Form::Unknown;
    }
    Form::Parse(address)
}

// The name of a mailer, and an address behind it.
fn try_form(text: &[u8]) -> Form<'_>
    ensures { seen result ≡ spec.try_form (spec.split_word text.now) }
{
    let (mailer, address) = split_word(text);
    if address.is_empty() {
        return Form::Unknown;
    }
    Form::Try(mailer, address)
}

// The name of a map, and a key behind it.
fn lookup_form(text: &[u8]) -> Form<'_>
    ensures { seen result ≡ spec.lookup_form (spec.split_word text.now) }
{
    let (name, key) = split_word(text);
    if key.is_empty() {
        return Form::Unknown;
    }
    Form::Lookup(name, key)
}

fn shown_form(text: &[u8]) -> Form<'_>
    ensures { seen result ≡ spec.shown_form text.now }
{
    let Some((first, name)) = text.split_first() else {
        return Form::Unknown;
    };
    if *first == b'S' {
        return Form::Rules(name);
    }
    if *first == b'M' && name.is_empty() {
        return Form::Mailers;
    }
    Form::Unknown
}

fn asked_form(text: &[u8]) -> Form<'_>
    ensures { seen result ≡ spec.asked_form text.now }
{
    let Some((first, rest)) = text.split_first() else {
        return Form::Unknown;
    };
    if *first == b'=' {
        return members_form(rest);
    }
    value_form(text)
}

fn members_form(text: &[u8]) -> Form<'_>
    ensures { seen result ≡ spec.members_form (names.split_name text.now) }
{
    let (class, rest) = split_name(text);
    if !class.is_empty() && rest.is_empty() {
        return Form::Members(class);
    }
    Form::Unknown
}

fn value_form(text: &[u8]) -> Form<'_>
    ensures { seen result ≡ spec.value_form (names.split_name text.now) }
{
    let (name, rest) = split_name(text);
    if !name.is_empty() && rest.is_empty() {
        return Form::Value(name);
    }
    Form::Unknown
}

fn change_form(text: &[u8]) -> Form<'_>
    ensures { seen result ≡ spec.change_form text.now }
{
    let Some((first, rest)) = text.split_first() else {
        return Form::Unknown;
    };
    if *first == b'D' {
        return defines_form(rest);
    }
    if *first == b'C' {
        return adds_form(rest);
    }
    Form::Unknown
}

fn defines_form(text: &[u8]) -> Form<'_>
    ensures { seen result ≡ spec.defines_form (names.split_name text.now) }
{
    let (name, value) = split_name(text);
    if name.is_empty() {
        return Form::Unknown;
    }
    Form::Defines(name, value)
}

fn adds_form(text: &[u8]) -> Form<'_>
    ensures { seen result ≡ spec.adds_form (names.split_name text.now) }
{
    let (class, words) = split_name(text);
    if class.is_empty() {
        return Form::Unknown;
    }
    Form::Adds(class, words)
}
