ghost use Rattle.std.specs.Prelude.{◌≡◌, IfOk, OnOk, fold};
ghost use Rattle.std.specs.List.{list_any};
ghost use Rattle.cf_reader.specs.inner.Readings.{Reads};
ghost use Rattle.cf_reader.specs.GroupLines as spec;

use crate::fault::{Fault, LineStop};
use crate::fields::{Field, line_fields, line_name};
use crate::values::{field_number, number_of, time_in};
use mail_base::{Group, NoMemory, Text, TryCopy};
use std::alloc::Global;

/// A field of a queue group.
#[derive(Clone, Copy)]
pub(crate) enum GroupField {
    Path,
    Recipients,
    Runners,
    Interval,
    Jobs,
}

impl GroupField {
    fn of(letter: u8) -> Option<GroupField>
        ensures { result ≡ spec.group_field letter }
    {
        match letter {
            b'P' => Some(GroupField::Path),
            b'r' => Some(GroupField::Recipients),
            b'R' => Some(GroupField::Runners),
            b'I' => Some(GroupField::Interval),
            b'J' => Some(GroupField::Jobs),
            _ => None,
        }
    }
}

/// The queue group of a Q line, by what follows the letter. `again` tells whether a Q line had its
/// name before. The path is empty where none is set.
pub(crate) fn group_line(alloc: Global, text: &[u8], again: bool) -> Result<Group, LineStop>
    ensures { Reads result (spec.fault_of_group again text.now) (spec.group_of text.now) }
{
    if again {
        return Err(LineStop::Refused(Fault::DuplicateGroup));
    }
    let fields = line_fields(alloc, text)?;
    if has_bad_field(fields.items()) {
        return Err(LineStop::Refused(Fault::BadOption));
    }
    Ok(group_of(alloc, line_name(text), fields.items())?)
}

fn has_bad_field(fields: &[Field]) -> bool
    ensures { result ≡ list_any spec.is_bad_field fields.now }
{
    fields.iter().any(|field| is_bad_field(field))
}

fn is_bad_field(field: &Field) -> bool
    ensures { result ≡ spec.is_bad_field field.now }
{
    match GroupField::of(field.letter()) {
        None => false,
        Some(GroupField::Path) => false,
        Some(GroupField::Interval) => time_in(&field.value, b'm').is_none(),
        Some(GroupField::Recipients) => field_number(&field.value).is_none(),
        Some(GroupField::Runners) => field_number(&field.value).is_none(),
        Some(GroupField::Jobs) => field_number(&field.value).is_none(),
    }
}

fn group_of(alloc: Global, name: &[u8], fields: &[Field]) -> Result<Group, NoMemory>
    ensures { IfOk result
        (λ group. group ≡ fold spec.with_group_field (spec.first_group name.now) fields.now) }
{
    let mut group = first_group(alloc, name)?;
    for field in fields {
        set_field(&mut group, field)?;
    }
    Ok(group)
}

fn first_group(alloc: Global, name: &[u8]) -> Result<Group, NoMemory>
    ensures { IfOk result (λ group. group ≡ spec.first_group name.now) }
{
    let name = Text::of(alloc, name)?;
    Ok(Group::new(name, Text::new(alloc)))
}

fn set_field(group: &mut Group, field: &Field) -> Result<(), NoMemory>
    ensures { OnOk result (group.new ≡ spec.with_group_field group.old field.now) }
{
    match GroupField::of(field.letter()) {
        None => {}
        Some(GroupField::Path) => group.path = field.value.copy()?,
        Some(GroupField::Recipients) => group.recipients = number_of(&field.value),
        Some(GroupField::Runners) => group.runners = number_of(&field.value).max(1),
        Some(GroupField::Interval) => group.interval = time_in(&field.value, b'm'),
        Some(GroupField::Jobs) => group.jobs = number_of(&field.value),
    }
    Ok(())
}
