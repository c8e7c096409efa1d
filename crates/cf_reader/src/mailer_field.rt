ghost use Rattle.std.specs.Prelude.{◌≡◌};
ghost use Rattle.std.specs.List.{list_any};
ghost use Rattle.cf_reader.specs.MailerLines as spec;

use crate::fields::Field;
use crate::values::field_number;

/// A field of a mailer.
#[derive(Clone, Copy)]
pub(crate) enum MailerField {
    Path,
    Flags,
    Sender,
    Recipient,
    Args,
    LineEnd,
    Most,
    Group,
    Batch,
    Ignored,
}

impl MailerField {
    /// The field with this letter, or `None` where mailers have none.
    pub(crate) fn of(letter: u8) -> Option<MailerField>
        ensures { result ≡ spec.mailer_field letter }
    {
        match letter {
            b'P' => Some(MailerField::Path),
            b'F' => Some(MailerField::Flags),
            b'S' => Some(MailerField::Sender),
            b'R' => Some(MailerField::Recipient),
            b'A' => Some(MailerField::Args),
            b'E' => Some(MailerField::LineEnd),
            b'M' => Some(MailerField::Most),
            b'Q' => Some(MailerField::Group),
            b'r' => Some(MailerField::Batch),
            _ => ignored(letter),
        }
    }
}

fn ignored(letter: u8) -> Option<MailerField>
    ensures { result ≡ spec.ignored letter }
{
    match letter {
        b'L' | b'C' | b'D' | b'N' | b'T' | b'U' | b'W' | b'm' | b'/' => Some(MailerField::Ignored),
        _ => None,
    }
}

/// Whether one of the fields is none that mailers have.
pub(crate) fn has_unknown(fields: &[Field]) -> bool
    ensures { result ≡ list_any spec.is_unknown fields.now }
{
    fields.iter().any(|field| is_unknown(field))
}

fn is_unknown(field: &Field) -> bool
    ensures { result ≡ spec.is_unknown field.now }
{
    MailerField::of(field.letter()).is_none()
}

/// Whether one of the fields has no number where it wants one.
pub(crate) fn has_bad_field(fields: &[Field]) -> bool
    ensures { result ≡ list_any spec.is_bad_field fields.now }
{
    fields.iter().any(|field| is_bad_field(field))
}

fn is_bad_field(field: &Field) -> bool
    ensures { result ≡ spec.is_bad_field field.now }
{
    match MailerField::of(field.letter()) {
        Some(MailerField::Most) => field_number(&field.value).is_none(),
        Some(MailerField::Batch) => field_number(&field.value).is_none(),
        _ => false,
    }
}
