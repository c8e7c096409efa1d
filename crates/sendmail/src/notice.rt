// The one line on standard error that says how a run ended.
use mail_base::RouteError;
use sendmail_run::Outcome;
use std::io;
use std::io::Write;

/// Writes the line that says how a run of so many words ended; nothing for one that is done.
pub fn tell(errors: &mut impl Write, outcome: &Outcome, words: usize) -> io::Result<()> {
    match outcome {
        Outcome::Done => Ok(()),
        Outcome::Usage(place) if *place as usize == words => {
            writeln!(errors, "sendmail: bad word {place}: a word is missing")
        }
        Outcome::Usage(place) => writeln!(errors, "sendmail: bad word {place}"),
        Outcome::NoFile(name) => {
            errors.write_all(b"sendmail: no file ")?;
            errors.write_all(name.bytes())?;
            errors.write_all(b"\n")
        }
        Outcome::NoMemory => errors.write_all(b"sendmail: no memory\n"),
        Outcome::FilesFault => errors.write_all(b"sendmail: files fault\n"),
        Outcome::WriteFault => errors.write_all(b"sendmail: write fault\n"),
        Outcome::ReadFault => errors.write_all(b"sendmail: read fault\n"),
        Outcome::InputLarge => errors.write_all(b"sendmail: input too large\n"),
        Outcome::AliasLine(name, line) => {
            errors.write_all(b"sendmail: ")?;
            errors.write_all(name.bytes())?;
            writeln!(errors, ", line {line}: alias refused")
        }
        Outcome::ConfigLine(line, fault) => {
            writeln!(errors, "sendmail: configuration line {line}: {fault}")
        }
        Outcome::FloorFault => errors.write_all(b"sendmail: floor fault\n"),
        Outcome::TurnsSpent(_) => errors.write_all(b"sendmail: turns spent\n"),
        Outcome::SpoolFault => errors.write_all(b"sendmail: spool fault\n"),
        Outcome::IdsSpent => errors.write_all(b"sendmail: ids spent\n"),
        Outcome::MessageRefused(code) => writeln!(errors, "sendmail: message refused: {code}"),
        Outcome::NoRecipient => errors.write_all(b"sendmail: no recipient\n"),
        Outcome::BadRecipient(number, error) => tell_refused(errors, *number, error),
    }
}

// The line of a recipient that is refused.
fn tell_refused(errors: &mut impl Write, number: u64, error: &RouteError) -> io::Result<()> {
    write!(
        errors,
        "sendmail: recipient {number} refused: {} ",
        error.code
    )?;
    errors.write_all(error.status.bytes())?;
    errors.write_all(b" ")?;
    errors.write_all(error.text.bytes())?;
    errors.write_all(b"\n")
}
