ghost use Rattle.std.specs.Prelude.{◌≡◌, ◌+◌, ◌≤◌, ◌++◌, All, Option, IfOk, OnOk, filter, find, length, map, option_map, slice_get};
ghost use Rattle.std.specs.Option.{option_copied};
ghost use Rattle.mail_header.specs.Headers as headers;
ghost use Rattle.mail_submit.specs.Submissions as spec;

use mail_base::{NoMemory, Seq, Text};
use mail_header::{Span, is_named, places};
use std::alloc::Global;

/// The recipients that headers name, in their order.
pub(crate) fn recipients_in(alloc: Global, headers: &[Text]) -> Result<Seq<Text>, NoMemory>
    ensures { IfOk result (λ recipients. recipients ≡ spec.recipients_in headers.now) }
{
    let mut recipients = Seq::new(alloc);
    for header in headers {
        add_recipients(&mut recipients, header)?;
    }
    Ok(recipients)
}

/// Adds the addresses of a header, if it names recipients.
fn add_recipients(recipients: &mut Seq<Text>, header: &Text) -> Result<(), NoMemory>
    ensures { OnOk result
        (recipients.new ≡ recipients.old ++ spec.recipients_of_one header.now) }
{
    if is_addressed(header.bytes()) {
        return add_header(recipients, header);
    }
    Ok(())
}

fn add_header(list: &mut Seq<Text>, header: &Text) -> Result<(), NoMemory>
    ensures { OnOk result (list.new ≡ list.old ++ spec.addresses_in header.now) }
{
    let places = places(header)?;
    add_addresses(list, header.bytes(), places.items())
}

fn add_addresses(list: &mut Seq<Text>, header: &[u8], places: &[Span]) -> Result<(), NoMemory>
    requires { All (λ place. place.start + place.length ≤ length header.now) places.now }
    ensures { OnOk result (list.new ≡ list.old ++ map (spec.address_at header.now) places.now) }
{
    for place in places {
        list.push(address_at(list.allocator(), header, place)?)?;
    }
    Ok(())
}

/// The first address of the first `From` header, if it has one.
pub(crate) fn first_from(headers: &[Text]) -> Result<Option<Text>, NoMemory>
    ensures { IfOk result (λ address. address ≡ spec.first_from headers.now) }
{
    match from_header(headers) {
        Some(header) => first_address(header),
        None => Ok(None),
    }
}

fn from_header(headers: &[Text]) -> Option<&Text>
    ensures { option_copied result ≡ find spec.is_from headers.now }
{
    headers.iter().find(|header| is_from(header))
}

fn first_address(header: &Text) -> Result<Option<Text>, NoMemory>
    ensures { IfOk result (λ address. address ≡ slice_get (spec.addresses_in header.now) 0) }
{
    let places = places(header)?;
    match places.items().first() {
        Some(place) => {
            let address = address_at(header.allocator(), header.bytes(), place)?;
            Ok(Some(address))
        }
        None => Ok(None),
    }
}

/// The address at a place of a header, without the CRs and LFs of folds.
fn address_at(alloc: Global, header: &[u8], place: &Span) -> Result<Text, NoMemory>
    requires { place.now.start + place.now.length ≤ length header.now }
    ensures { IfOk result (λ address. address ≡ spec.address_at header.now place.now) }
{
    unfolded(alloc, &header[place.start..place.start + place.length])
}

fn unfolded(alloc: Global, text: &[u8]) -> Result<Text, NoMemory>
    ensures { IfOk result (λ address. address ≡ filter headers.is_plain text.now) }
{
    let bytes = text
        .iter()
        .copied()
        .filter(|byte| is_plain(*byte))
        .collect(alloc)?;
    Ok(Text::from_vec(bytes))
}

fn is_plain(byte: u8) -> bool
    ensures { result ≡ headers.is_plain byte }
{
    byte != b'\r' && byte != b'\n'
}

/// Whether a header names recipients.
fn is_addressed(header: &[u8]) -> bool
    ensures { result ≡ spec.is_addressed header.now }
{
    is_named(b"To", header) || (is_named(b"Cc", header) || is_bcc(header))
}

pub(crate) fn is_bcc(header: &[u8]) -> bool
    ensures { result ≡ spec.is_bcc header.now }
{
    is_named(b"Bcc", header)
}

fn is_from(header: &Text) -> bool
    ensures { result ≡ spec.is_from header.now }
{
    is_named(b"From", header.bytes())
}
