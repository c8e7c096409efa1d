use thiserror::Error;

/// A verb of SMTP, without case (RFC 5321, section 4.1.1).
#[derive(Clone, Copy, Debug, PartialEq, Eq)]
pub enum Verb {
    Helo,
    Ehlo,
    Mail,
    Rcpt,
    Data,
    Rset,
    Noop,
    Quit,
    Vrfy,
    Expn,
    Help,
}

/// A command line as it was read (RFC 5321, section 4.1.1). What it holds is borrowed from the
/// line.
#[derive(Clone, Copy, Debug)]
pub enum Command<'a> {
    /// `HELO` with its argument (section 4.1.1.1).
    Helo(&'a [u8]),
    /// `EHLO` with its argument (section 4.1.1.1).
    Ehlo(&'a [u8]),
    /// `MAIL FROM:` a path without its angles and source route (section 4.1.1.2).
    Mail {
        path: &'a [u8],
        /// The value of `SIZE=`, of 1 to 20 digits (RFC 1870).
        size: Option<u128>,
        /// Whether `BODY=8BITMIME` was said (RFC 6152).
        eight: bool,
    },
    /// `RCPT TO:` a path without its angles and source route (section 4.1.1.3).
    Rcpt {
        path: &'a [u8],
    },
    /// Section 4.1.1.4.
    Data,
    /// Section 4.1.1.5.
    Rset,
    /// Section 4.1.1.9. Its argument isn't kept.
    Noop,
    /// Section 4.1.1.10.
    Quit,
    /// Section 4.1.1.6. Its argument isn't kept.
    Vrfy,
    /// Section 4.1.1.7. Its argument isn't kept.
    Expn,
    /// Section 4.1.1.8. Its argument isn't kept.
    Help,
}

/// Why a line is no command, by the first of these that holds. A verb tells `MAIL` from `RCPT`.
#[derive(Clone, Copy, Debug, PartialEq, Eq, Error)]
pub enum LineFault {
    /// It holds a byte below 32 but tab, or 127.
    #[error("a byte that no command holds")]
    BadByte,
    /// Its verb isn't known, or it is empty.
    #[error("an unknown verb")]
    Unknown,
    /// `HELO`, `EHLO` or `VRFY` has no argument.
    #[error("an argument is needed")]
    ArgumentNeeded,
    /// `DATA`, `RSET` or `QUIT` has one.
    #[error("no argument is allowed")]
    NoArgument,
    /// It isn't in the grammar of its verb.
    #[error("the path isn't in the grammar")]
    Syntax(Verb),
    /// The path, its local part or its domain is too long.
    #[error("the path is too long")]
    PathTooLong(Verb),
    /// It has a parameter that isn't known, or one whose value isn't in its grammar.
    #[error("an unknown parameter")]
    Parameter(Verb),
}
