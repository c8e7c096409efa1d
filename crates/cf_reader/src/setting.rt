ghost use Rattle.std.specs.Prelude.{◌≡◌};
ghost use Rattle.mail_base.specs.Catalogs.{value_like};
ghost use Rattle.cf_values.specs.Times.{IsLetter};
ghost use Rattle.cf_reader.specs.Settings as spec;

/// An option that is read.
#[derive(Clone, Copy)]
pub(crate) enum Setting {
    Number(NumberOption),
    Time(TimeOption),
    Word(WordOption),
    AliasFile,
    DaemonPort,
}

/// An option whose value is a number.
#[derive(Clone, Copy)]
pub(crate) enum NumberOption {
    MaxDaemonSessions,
    MaxHopCount,
    MaxAliasRecursion,
    MaxMessageSize,
    MaxRecipients,
    RecipientFactor,
    ClassFactor,
    RetryFactor,
}

/// An option whose value is a time.
#[derive(Clone, Copy)]
pub(crate) enum TimeOption {
    QueueReturn,
    QueueWarn,
    MinQueueAge,
}

/// An option whose value is taken as it is written.
#[derive(Clone, Copy)]
pub(crate) enum WordOption {
    QueueDirectory,
    HostsFile,
    HomesFile,
    OperatorChars,
    DoubleBounceAddress,
}

impl Setting {
    /// The option of a name, without ASCII case, or `None` where it isn't read.
    pub(crate) fn named(name: &[u8]) -> Option<Setting>
        ensures { result ≡ spec.setting_named name.now }
    {
        if let Some(option) = NumberOption::named(name) {
            return Some(Setting::Number(option));
        }
        if let Some(option) = TimeOption::named(name) {
            return Some(Setting::Time(option));
        }
        if let Some(option) = WordOption::named(name) {
            return Some(Setting::Word(option));
        }
        if name.eq_ignore_ascii_case(b"AliasFile") {
            return Some(Setting::AliasFile);
        }
        if name.eq_ignore_ascii_case(b"DaemonPortOptions") {
            return Some(Setting::DaemonPort);
        }
        None
    }
}

impl NumberOption {
    fn named(name: &[u8]) -> Option<NumberOption>
        ensures { result ≡ value_like name.now spec.number_options }
    {
        if name.eq_ignore_ascii_case(b"MaxDaemonSessions") {
            return Some(NumberOption::MaxDaemonSessions);
        }
        if name.eq_ignore_ascii_case(b"MaxHopCount") {
            return Some(NumberOption::MaxHopCount);
        }
        if name.eq_ignore_ascii_case(b"MaxAliasRecursion") {
            return Some(NumberOption::MaxAliasRecursion);
        }
        if name.eq_ignore_ascii_case(b"MaxMessageSize") {
            return Some(NumberOption::MaxMessageSize);
        }
        if name.eq_ignore_ascii_case(b"MaxRecipientsPerMessage") {
            return Some(NumberOption::MaxRecipients);
        }
        if name.eq_ignore_ascii_case(b"RecipientFactor") {
            return Some(NumberOption::RecipientFactor);
        }
        if name.eq_ignore_ascii_case(b"ClassFactor") {
            return Some(NumberOption::ClassFactor);
        }
        if name.eq_ignore_ascii_case(b"RetryFactor") {
            return Some(NumberOption::RetryFactor);
        }
        None
    }
}

impl TimeOption {
    fn named(name: &[u8]) -> Option<TimeOption>
        ensures { result ≡ value_like name.now spec.time_options }
    {
        if name.eq_ignore_ascii_case(b"Timeout.queuereturn") {
            return Some(TimeOption::QueueReturn);
        }
        if name.eq_ignore_ascii_case(b"Timeout.queuewarn") {
            return Some(TimeOption::QueueWarn);
        }
        if name.eq_ignore_ascii_case(b"MinQueueAge") {
            return Some(TimeOption::MinQueueAge);
        }
        None
    }

    /// The letter of the unit that a number without a letter has.
    pub(crate) fn unit(self) -> u8
        ensures value { result ≡ spec.unit_of self }
        ensures letter { IsLetter result }
    {
        match self {
            TimeOption::QueueReturn => b'd',
            TimeOption::QueueWarn => b'h',
            TimeOption::MinQueueAge => b'm',
        }
    }
}

impl WordOption {
    fn named(name: &[u8]) -> Option<WordOption>
        ensures { result ≡ value_like name.now spec.word_options }
    {
        if name.eq_ignore_ascii_case(b"QueueDirectory") {
            return Some(WordOption::QueueDirectory);
        }
        if name.eq_ignore_ascii_case(b"HostsFile") {
            return Some(WordOption::HostsFile);
        }
        if name.eq_ignore_ascii_case(b"HomesFile") {
            return Some(WordOption::HomesFile);
        }
        if name.eq_ignore_ascii_case(b"OperatorChars") {
            return Some(WordOption::OperatorChars);
        }
        if name.eq_ignore_ascii_case(b"DoubleBounceAddress") {
            return Some(WordOption::DoubleBounceAddress);
        }
        None
    }
}
