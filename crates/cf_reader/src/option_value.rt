ghost use Rattle.std.specs.Prelude.{◌≡◌, IfOk, OnOk, OnErr};
ghost use Rattle.cf_reader.specs.declared.setting.Setting.TheVariants.{Number, Time, Word, DaemonPort};
ghost use Rattle.cf_reader.specs.OptionLines as spec;
ghost use Rattle.cf_reader.specs.inner.Settled.{settled};

use crate::alias_paths::add_paths;
use crate::daemon_port::daemon_port;
use crate::setting::{NumberOption, Setting, TimeOption, WordOption};
use crate::values::{option_number, time_in};
use mail_base::{NoMemory, Options, Text};
use std::alloc::Global;

/// Sets an option where the value is in its grammar, and tells whether it is. Else, and after
/// `NoMemory`, the options are as before.
pub(crate) fn set(
    alloc: Global,
    options: &mut Options,
    setting: Setting,
    value: Text,
) -> Result<bool, NoMemory>
    ensures valid { IfOk result (λ valid. valid ≡ spec.is_valid setting value) }
    ensures ok { OnOk result (options.new ≡ settled setting value options.old) }
    ensures err { OnErr result (options.new ≡ options.old) }
{
    match setting {
        Setting::Number(option) => Ok(set_number(options, option, &value)),
        Setting::Time(option) => Ok(set_time(options, option, &value)),
        Setting::Word(option) => Ok(set_word(options, option, value)),
        Setting::AliasFile => {
            add_paths(alloc, &mut options.alias_files, &value)?;
            Ok(true)
        }
        Setting::DaemonPort => set_daemon_port(alloc, options, &value),
    }
}

fn set_number(options: &mut Options, option: NumberOption, value: &Text) -> bool
    ensures valid { result ≡ spec.is_valid (Number option) value.now }
    ensures options { options.new ≡ settled (Number option) value.now options.old }
{
    match option_number(value) {
        Some(number) => {
            put_number(options, option, number);
            true
        }
        None => false,
    }
}

fn put_number(options: &mut Options, option: NumberOption, number: u64)
    ensures { options.new ≡ spec.with_number option number options.old }
{
    match option {
        NumberOption::MaxDaemonSessions => options.max_daemon_sessions = number,
        NumberOption::MaxHopCount => options.max_hop_count = number,
        NumberOption::MaxAliasRecursion => options.max_alias_recursion = number,
        NumberOption::MaxMessageSize => options.max_message_size = number,
        NumberOption::MaxRecipients => options.max_recipients_per_message = number,
        NumberOption::RecipientFactor => options.recipient_factor = number,
        NumberOption::ClassFactor => options.class_factor = number,
        NumberOption::RetryFactor => options.retry_factor = number,
    }
}

fn set_time(options: &mut Options, option: TimeOption, value: &Text) -> bool
    ensures valid { result ≡ spec.is_valid (Time option) value.now }
    ensures options { options.new ≡ settled (Time option) value.now options.old }
{
    match time_in(value, option.unit()) {
        Some(seconds) => {
            put_time(options, option, seconds);
            true
        }
        None => false,
    }
}

fn put_time(options: &mut Options, option: TimeOption, seconds: u64)
    ensures { options.new ≡ spec.with_time option seconds options.old }
{
    match option {
        TimeOption::QueueReturn => options.queue_return = seconds,
        TimeOption::QueueWarn => options.queue_warn = Some(seconds),
        TimeOption::MinQueueAge => options.min_queue_age = seconds,
    }
}

fn set_word(options: &mut Options, option: WordOption, value: Text) -> bool
    ensures valid { result ≡ spec.is_valid (Word option) value }
    ensures options { options.new ≡ settled (Word option) value options.old }
{
    if !is_valid_word(option, &value) {
        return false;
    }
    put_word(options, option, value);
    true
}

fn is_valid_word(option: WordOption, value: &Text) -> bool
    ensures { result ≡ spec.is_valid (Word option) value.now }
{
    match option {
        WordOption::QueueDirectory => !value.bytes().contains(&b'*'),
        WordOption::DoubleBounceAddress => !value.is_empty(),
        WordOption::HostsFile | WordOption::HomesFile | WordOption::OperatorChars => true,
    }
}

fn put_word(options: &mut Options, option: WordOption, value: Text)
    ensures { options.new ≡ spec.with_word option value options.old }
{
    match option {
        WordOption::QueueDirectory => options.queue_directory = value,
        WordOption::HostsFile => options.hosts_file = value,
        WordOption::HomesFile => options.homes_file = Some(value),
        WordOption::OperatorChars => options.operator_chars = value,
        WordOption::DoubleBounceAddress => options.double_bounce_address = value,
    }
}

fn set_daemon_port(alloc: Global, options: &mut Options, value: &Text) -> Result<bool, NoMemory>
    ensures valid { IfOk result (λ valid. valid ≡ spec.is_valid DaemonPort value.now) }
    ensures ok { OnOk result (options.new ≡ settled DaemonPort value.now options.old) }
    ensures err { OnErr result (options.new ≡ options.old) }
{
    match daemon_port(alloc, value)? {
        Some(port) => {
            options.daemon_port = port;
            Ok(true)
        }
        None => Ok(false),
    }
}
