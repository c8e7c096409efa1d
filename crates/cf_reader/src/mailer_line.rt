ghost use Rattle.std.specs.Prelude.{◌≡◌, IfOk, OnOk, Some, fold};
ghost use Rattle.cf_reader.specs.inner.Readings.{Reads};
ghost use Rattle.mail_base.specs.Whites.{stripped};
ghost use Rattle.cf_reader.specs.MailerLines as spec;
ghost use Rattle.cf_reader.specs.declared.mailer_field.MailerField.TheVariants.{Sender, Recipient};

use crate::cuts::cut_at;
use crate::fault::{Fault, LineStop};
use crate::fields::{Field, line_fields, line_name};
use crate::mailer_field::{MailerField, has_bad_field, has_unknown};
use crate::values::{if_some, number_of};
use cf_values::flags;
use mail_base::{Mailer, NoMemory, Seq, Text, TryCopy, stripped, words_of};
use std::alloc::Global;

/// The mailer of an M line, by what follows the letter.
pub(crate) fn mailer_line(alloc: Global, text: &[u8]) -> Result<Mailer, LineStop>
    ensures { Reads result (spec.fault_of_mailer text.now) (spec.mailer_of text.now) }
{
    let fields = line_fields(alloc, text)?;
    if has_unknown(fields.items()) {
        return Err(LineStop::Refused(Fault::UnknownMailerField));
    }
    let mailer = mailer_of(alloc, line_name(text), fields.items())?;
    if lacks_path(&mailer) {
        return Err(LineStop::Refused(Fault::NoPath));
    }
    if has_bad_field(fields.items()) {
        return Err(LineStop::Refused(Fault::BadOption));
    }
    Ok(mailer)
}

fn lacks_path(mailer: &Mailer) -> bool
    ensures { result ≡ spec.lacks_path mailer.now }
{
    mailer.path.is_empty() || mailer.args.is_empty()
}

fn mailer_of(alloc: Global, name: &[u8], fields: &[Field]) -> Result<Mailer, NoMemory>
    ensures { IfOk result
        (λ mailer. mailer ≡ fold spec.with_field (spec.first_mailer name.now) fields.now) }
{
    let mut mailer = first_mailer(alloc, name)?;
    for field in fields {
        set_field(alloc, &mut mailer, field)?;
    }
    Ok(mailer)
}

fn first_mailer(alloc: Global, name: &[u8]) -> Result<Mailer, NoMemory>
    ensures { IfOk result (λ mailer. mailer ≡ spec.first_mailer name.now) }
{
    Ok(Mailer {
        name: Text::of(alloc, name)?,
        line_end: Text::of(alloc, b"\n")?,
        path: Text::new(alloc),
        flags: Text::new(alloc),
        envelope_from: None,
        header_from: None,
        envelope_to: None,
        header_to: None,
        args: Seq::new(alloc),
        most: 0,
        group: None,
        batch: 100,
    })
}

fn set_field(alloc: Global, mailer: &mut Mailer, field: &Field) -> Result<(), NoMemory>
    ensures { OnOk result (mailer.new ≡ spec.with_field mailer.old field.now) }
{
    let value = &field.value;
    match MailerField::of(field.letter()) {
        Some(MailerField::Path) => mailer.path = value.copy()?,
        Some(MailerField::Flags) => mailer.flags = flags(alloc, value)?,
        Some(MailerField::Sender) => set_sender(alloc, mailer, value)?,
        Some(MailerField::Recipient) => set_recipient(alloc, mailer, value)?,
        Some(MailerField::Args) => mailer.args = words_of(alloc, value.bytes())?,
        Some(MailerField::LineEnd) => mailer.line_end = line_end(alloc, value)?,
        Some(MailerField::Most) => mailer.most = number_of(value),
        Some(MailerField::Group) => mailer.group = if_some(alloc, value.bytes())?,
        Some(MailerField::Batch) => mailer.batch = number_of(value).max(1),
        Some(MailerField::Ignored) | None => {}
    }
    Ok(())
}

fn set_sender(alloc: Global, mailer: &mut Mailer, value: &Text) -> Result<(), NoMemory>
    ensures { OnOk result (mailer.new ≡ spec.with_value (Some Sender) value.now mailer.old) }
{
    let (envelope, header) = sets_of(alloc, value.bytes())?;
    mailer.envelope_from = envelope;
    mailer.header_from = header;
    Ok(())
}

fn set_recipient(alloc: Global, mailer: &mut Mailer, value: &Text) -> Result<(), NoMemory>
    ensures { OnOk result (mailer.new ≡ spec.with_value (Some Recipient) value.now mailer.old) }
{
    let (envelope, header) = sets_of(alloc, value.bytes())?;
    mailer.envelope_to = envelope;
    mailer.header_to = header;
    Ok(())
}

// The rulesets for the envelope and for headers.
fn sets_of(alloc: Global, value: &[u8]) -> Result<(Option<Text>, Option<Text>), NoMemory>
    ensures { IfOk result (λ sets. sets ≡ spec.sets_of value.now) }
{
    match cut_at(value, b'/') {
        Some((envelope, header)) => sets(alloc, envelope, header),
        None => sets(alloc, value, value),
    }
}

fn sets(
    alloc: Global,
    envelope: &[u8],
    header: &[u8],
) -> Result<(Option<Text>, Option<Text>), NoMemory>
    ensures { IfOk result
        (λ sets. sets
        ≡ (spec.set_named (stripped envelope.now), spec.set_named (stripped header.now))) }
{
    let envelope = set_named(alloc, stripped(envelope))?;
    let header = set_named(alloc, stripped(header))?;
    Ok((envelope, header))
}

// The ruleset that a mailer names. `0` is none: set 0 chooses mailers, and rewrites no address.
fn set_named(alloc: Global, name: &[u8]) -> Result<Option<Text>, NoMemory>
    ensures { IfOk result (λ set. set ≡ spec.set_named name.now) }
{
    if name == b"0".as_slice() {
        return Ok(None);
    }
    if_some(alloc, name)
}

// What ends a line, which is LF where the value is empty.
fn line_end(alloc: Global, value: &Text) -> Result<Text, NoMemory>
    ensures { IfOk result (λ end. end ≡ spec.line_end_of value.now) }
{
    if value.is_empty() {
        return Text::of(alloc, b"\n");
    }
    value.copy()
}
