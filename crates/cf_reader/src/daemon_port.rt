ghost use Rattle.std.specs.Prelude.{◌≡◌, IfOk, OnOk, fold};
ghost use Rattle.std.specs.List.{list_all};
ghost use Rattle.cf_reader.specs.Values.{number_in};
ghost use Rattle.cf_reader.specs.OptionLines as spec;

use crate::fields::{Field, fields};
use crate::values::{if_some, number_in};
use mail_base::{DaemonPort, NoMemory, Text};
use std::alloc::Global;

/// Where the daemon listens by the fields of a value, or `None` where a Port has no port.
pub(crate) fn daemon_port(alloc: Global, value: &Text) -> Result<Option<DaemonPort>, NoMemory>
    ensures { IfOk result (λ port. port ≡ spec.daemon_port value.now) }
{
    let fields = fields(alloc, value.bytes())?;
    if !are_good(fields.items()) {
        return Ok(None);
    }
    let port = port_of(alloc, fields.items())?;
    Ok(Some(port))
}

fn are_good(fields: &[Field]) -> bool
    ensures { result ≡ list_all spec.is_good_field fields.now }
{
    fields.iter().all(|field| is_good_field(field))
}

fn is_good_field(field: &Field) -> bool
    ensures { result ≡ spec.is_good_field field.now }
{
    field.letter() != b'P' || port_in(&field.value).is_some()
}

// A port: a name of one, or a number.
fn port_in(value: &Text) -> Option<u16>
    ensures { result ≡ spec.port_in value.now }
{
    if value.bytes() == b"smtp".as_slice() {
        return Some(25);
    }
    if value.bytes() == b"submission".as_slice() {
        return Some(587);
    }
    numbered_port(value)
}

fn numbered_port(value: &Text) -> Option<u16>
    ensures { result ≡ number_in 65_535 value.now }
{
    match number_in(value, 65_535) {
        Some(port) => Some(port as u16),
        None => None,
    }
}

fn port_of(alloc: Global, fields: &[Field]) -> Result<DaemonPort, NoMemory>
    ensures { IfOk result (λ port. port ≡ fold spec.with_field spec.first_port fields.now) }
{
    let mut port = DaemonPort {
        port: 25,
        address: None,
    };
    for field in fields {
        set_field(alloc, &mut port, field)?;
    }
    Ok(port)
}

fn set_field(alloc: Global, port: &mut DaemonPort, field: &Field) -> Result<(), NoMemory>
    ensures { OnOk result (port.new ≡ spec.with_field port.old field.now) }
{
    match field.letter() {
        b'P' => port.port = port_in(&field.value).unwrap_or(25),
        b'A' => port.address = if_some(alloc, field.value.bytes())?,
        _ => {}
    }
    Ok(())
}
