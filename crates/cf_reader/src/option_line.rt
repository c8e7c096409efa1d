ghost use Rattle.std.specs.Prelude.{◌≡◌, ◌↔◌, ◌∷◌, [], OnOk, OnErr, IsTrue, Some, None, not};
ghost use Rattle.cf_reader.specs.Reads.{first_fault};
ghost use Rattle.cf_reader.specs.inner.Readings.{Reads};
ghost use Rattle.cf_reader.specs.declared.fault.Fault.TheVariants.{BadOption};
ghost use Rattle.cf_reader.specs.declared.setting.Setting.TheVariants.{DaemonPort};
ghost use Rattle.cf_reader.specs.OptionLines as spec;

use crate::daemon_port::daemon_port;
use crate::fault::{Fault, LineStop};
use crate::fields::split_at;
use crate::option_value::set;
use crate::setting::{Setting, WordOption};
use mail_base::{Options, Text, stripped};
use std::alloc::Global;

/// Sets the option of an O line, by what follows the letter, and tells which it is, or `None` where
/// the line is ignored with a warning. `late` tells whether an S or R line came before, and
/// `listens` whether DaemonPortOptions was set: a second one is judged and ignored. After an error
/// the options are as before.
pub(crate) fn option_line(
    alloc: Global,
    options: &mut Options,
    text: &[u8],
    late: bool,
    listens: bool,
) -> Result<Option<Setting>, LineStop>
    ensures reads { Reads result (spec.fault_of_option late text.now)
        (spec.setting_of listens text.now) }
    ensures ok { OnOk result (options.new ≡ spec.options_after listens text.now options.old) }
    ensures err { OnErr result (options.new ≡ options.old) }
{
    let Some(setting) = option_named(text) else {
        return Ok(None);
    };
    if late && is_operators(setting) {
        return Err(LineStop::Refused(Fault::OperatorsLate));
    }
    let value = Text::of(alloc, value_of(text))?;
    if listens && is_daemon_port(setting) {
        return second_port(alloc, &value);
    }
    if !set(alloc, options, setting, value)? {
        return Err(LineStop::Refused(Fault::BadOption));
    }
    Ok(Some(setting))
}

// The option that a line names, or `None` where it names none that is read.
fn option_named(text: &[u8]) -> Option<Setting>
    ensures { result ≡ spec.option_named text.now }
{
    let (first, rest) = text.split_first()?;
    if *first != b' ' {
        return None;
    }
    let (name, _) = split_at(rest, b'=');
    Setting::named(stripped(name))
}

fn value_of(text: &[u8]) -> &[u8]
    ensures { result.now ≡ spec.value_of text.now }
{
    let (_, value) = split_at(text, b'=');
    stripped(value)
}

fn is_operators(setting: Setting) -> bool
    ensures { result ≡ spec.is_operators (Some setting) }
{
    matches!(setting, Setting::Word(WordOption::OperatorChars))
}

fn is_daemon_port(setting: Setting) -> bool
    ensures { IsTrue result ↔ (setting ≡ DaemonPort) }
{
    matches!(setting, Setting::DaemonPort)
}

// DaemonPortOptions once more: its value is judged, and not taken.
fn second_port(alloc: Global, value: &Text) -> Result<Option<Setting>, LineStop>
    ensures { Reads result
        (first_fault ((BadOption, not (spec.is_valid DaemonPort value.now)) ∷ [])) None }
{
    match daemon_port(alloc, value)? {
        Some(_) => Ok(None),
        None => Err(LineStop::Refused(Fault::BadOption)),
    }
}
