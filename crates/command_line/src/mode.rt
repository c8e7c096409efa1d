use mail_base::Text;
use mail_submit::SubmitWords;

/// The configuration file that is read where no word names one.
pub const DEFAULT_FILE: &[u8] = b"/etc/mail/sendmail.cf";

/// What a run is to do.
#[derive(Debug, Drop, PartialEq, Eq)]
pub enum Job {
    /// `-bt`: address test mode.
    Test,
    /// `-bs`: serves one SMTP session on standard input and output.
    Session,
    /// `-bd`: serves sessions at a port; with the seconds of its `-q`.
    Daemon { wait: Option<u64> },
    /// `-q`: makes one queue run; `-qGname` over the entries of that group alone.
    Run { group: Option<Text> },
    /// `-bp`: prints the listing of the queue.
    List,
    /// No mode, but `-t` or an address: takes in the mail on standard input.
    Submit(SubmitWords),
}

/// What a command line says.
#[derive(Drop)]
pub struct Mode {
    /// The name of the configuration file.
    pub file: Text,
    pub job: Job,
}
