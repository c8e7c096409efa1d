ghost use Rattle.std.specs.Prelude.{◌≡◌, ◌==◌, ◌++◌, IfOk, OnOk, filter, map};
ghost use Rattle.std.specs.List.{list_any};
ghost use Rattle.mail_header.specs.Fields.{is_named, name_of};
ghost use Rattle.mail_header.specs.Made as spec;

use crate::fields::{is_named, name_of};
use crate::made::{is_received, made};
use mail_base::{Config, HeaderLine, Macros, Mailer, NoMemory, Seq, Text, TryCopy, first_bytes};

/// The headers of a message as a mailer delivers it: those that are there, and behind them, in the
/// order of the configuration, those of its H lines. An H line adds its header where it has no
/// flags or the mailer has one of them, no header of its name is there, without case, and, where
/// its name begins with `Resent-`, some such header is there. `Received` is put first on receipt,
/// and not here. An expansion that is refused counts as empty (Sendmail Installation and Operation
/// Guide, "H: Define Header").
pub fn added(
    config: &Config,
    mailer: &Mailer,
    macros: &Macros,
    headers: &Seq<Text>,
) -> Result<Seq<Text>, NoMemory>
    ensures { IfOk result
        (λ all. all ≡ spec.added_of config.now.headers mailer.now macros.now headers.now) }
{
    let mut all = headers.copy()?;
    add_made(
        &mut all,
        config.headers.items(),
        mailer,
        macros,
        headers.items(),
    )?;
    Ok(all)
}

// Adds those that H lines make for a message with these headers.
fn add_made(
    all: &mut Seq<Text>,
    lines: &[HeaderLine],
    mailer: &Mailer,
    macros: &Macros,
    headers: &[Text],
) -> Result<(), NoMemory>
    ensures { OnOk result (all.new ≡ all.old
        ++ map (spec.made_of macros.now) (filter (spec.is_added mailer.now headers.now) lines.now)) }
{
    for line in lines {
        if is_added(mailer, headers, line) {
            all.push(made(line, macros)?)?;
        }
    }
    Ok(())
}

fn is_added(mailer: &Mailer, headers: &[Text], line: &HeaderLine) -> bool
    ensures { result ≡ spec.is_added mailer.now headers.now line.now }
{
    !is_received(line)
        && is_wanted(mailer, line)
        && !has_named(headers, line)
        && (!is_resent(line.name.bytes()) || has_resent(headers))
}

fn is_wanted(mailer: &Mailer, line: &HeaderLine) -> bool
    ensures { result ≡ spec.is_wanted mailer.now line.now }
{
    line.flags.is_empty() || has_one(mailer, line.flags.bytes())
}

// Whether a mailer has one of these flags.
fn has_one(mailer: &Mailer, flags: &[u8]) -> bool
    ensures { result ≡ list_any (λ f. list_any (λ m. m == f) mailer.now.flags) flags.now }
{
    flags.iter().any(|flag| has_flag(mailer, *flag))
}

/// Whether a mailer has a flag.
pub(crate) fn has_flag(mailer: &Mailer, flag: u8) -> bool
    ensures { result ≡ list_any (λ m. m == flag) mailer.now.flags }
{
    mailer.flags.bytes().contains(&flag)
}

// Whether a header of that H line's name is there.
fn has_named(headers: &[Text], line: &HeaderLine) -> bool
    ensures { result ≡ list_any (is_named line.now.name) headers.now }
{
    headers
        .iter()
        .any(|header| is_named(line.name.bytes(), header.bytes()))
}

// Whether a header is there whose name begins with `Resent-`.
fn has_resent(headers: &[Text]) -> bool
    ensures { result ≡ list_any (λ header. spec.is_resent (name_of header)) headers.now }
{
    headers
        .iter()
        .any(|header| is_resent(name_of(header.bytes())))
}

fn is_resent(name: &[u8]) -> bool
    ensures { result ≡ spec.is_resent name.now }
{
    first_bytes(name, 7).eq_ignore_ascii_case(b"Resent-")
}
