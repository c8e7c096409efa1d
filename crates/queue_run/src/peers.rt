ghost use Rattle.std.specs.Prelude.{◌≡◌, ◌==◌, ◌≤◌, ◌++◌, ◌∷◌, [], IfOk, OnOk, Some, false, if◌then◌else◌, length, nat_le, true, unwrap_or};
ghost use Rattle.std.specs.List.{list_all};
ghost use Rattle.map_tables.specs.Hosts.{host_address};
ghost use Rattle.mail_base.specs.Notes as notes;
ghost use Rattle.queue_run.specs.Peers as spec;

use cf_macros::expanded;
use link_edge::Peer;
use mail_base::{Macros, Mailer, NoMemory, Seq, Text, TryCopy};
use map_tables::Maps;
use std::alloc::Global;

/// The peers of a network mailer, in the order of the list in its field A, whose words are
/// expanded: with `FILE` one socket, and else ports of hosts. Hosts that aren't known and an empty
/// path are passed over, so there may be none (Sendmail Installation and Operation Guide, "M:
/// Define Mailer"; hosts(5)).
pub(crate) fn peers_of(
    alloc: Global,
    maps: &Maps,
    mailer: &Mailer,
    macros: &Macros,
) -> Result<Seq<Peer>, NoMemory>
    ensures { IfOk result (λ peers. peers ≡ spec.peers_of maps.now mailer.now macros.now) }
{
    let second = second_word(alloc, mailer, macros)?;
    if is_local(mailer) {
        return socket(alloc, second);
    }
    let port = third_port(alloc, mailer, macros)?;
    peers_in(alloc, maps, port, second.bytes())
}

// Whether the peer is a socket of this machine.
fn is_local(mailer: &Mailer) -> bool
    ensures { result ≡ spec.is_local mailer.now }
{
    match mailer.args.get(0) {
        Some(word) => word.bytes().eq_ignore_ascii_case(b"FILE"),
        None => false,
    }
}

// The word of A at a place, expanded.
fn word_at(
    alloc: Global,
    mailer: &Mailer,
    macros: &Macros,
    place: usize,
) -> Result<Option<Text>, NoMemory>
    ensures { IfOk result (λ word. word ≡ spec.word_at mailer.now macros.now place) }
{
    match mailer.args.get(place) {
        Some(word) => Ok(Some(expanded(alloc, word, macros)?)),
        None => Ok(None),
    }
}

// The second word of A, expanded; an empty one where there is none.
fn second_word(alloc: Global, mailer: &Mailer, macros: &Macros) -> Result<Text, NoMemory>
    ensures { IfOk result (λ word. word ≡ unwrap_or (spec.word_at mailer.now macros.now 1) []) }
{
    match word_at(alloc, mailer, macros, 1)? {
        Some(word) => Ok(word),
        None => Ok(Text::new(alloc)),
    }
}

// The port that the third word of A says.
fn third_port(alloc: Global, mailer: &Mailer, macros: &Macros) -> Result<u16, NoMemory>
    ensures { IfOk result (λ port. port ≡ spec.port_of (spec.word_at mailer.now macros.now 2)) }
{
    match word_at(alloc, mailer, macros, 2)? {
        Some(word) => Ok(port_of(word.bytes())),
        None => Ok(25),
    }
}

// The port that a word says; 25 where it is no port.
fn port_of(word: &[u8]) -> u16
    ensures { result ≡ spec.port_of (Some word.now) }
{
    if word.is_empty() || word.len() > 5 || !are_digits(word) {
        return 25;
    }
    port_by(number_in(word))
}

fn port_by(number: u32) -> u16
    ensures { result ≡ if nat_le number 65535 then number else 25 }
{
    match u16::try_from(number) {
        Ok(port) => port,
        Err(_) => 25,
    }
}

fn are_digits(text: &[u8]) -> bool
    ensures { result ≡ list_all notes.is_digit text.now }
{
    text.iter().all(|byte| is_digit(*byte))
}

fn is_digit(byte: u8) -> bool
    ensures { result ≡ notes.is_digit byte }
{
    byte >= b'0' && byte <= b'9'
}

// The number that a few digits write.
fn number_in(digits: &[u8]) -> u32
    requires { length digits.now ≤ 5 }
    ensures { result ≡ spec.number_in digits.now }
{
    let mut number: u32 = 0;
    for digit in digits {
        number = number * 10 + u32::from(digit.saturating_sub(b'0'));
    }
    number
}

// The socket at a path, if there is one.
fn socket(alloc: Global, path: Text) -> Result<Seq<Peer>, NoMemory>
    ensures { IfOk result (λ peers. peers ≡ spec.socket_at path) }
{
    let mut peers = Seq::new(alloc);
    if path.is_empty() {
        return Ok(peers);
    }
    peers.push(Peer::Path(path))?;
    Ok(peers)
}

// The peers of a list of hosts, cut in one pass at its colons outside brackets.
fn peers_in(alloc: Global, maps: &Maps, port: u16, list: &[u8]) -> Result<Seq<Peer>, NoMemory>
    ensures { IfOk result (λ peers. peers ≡ spec.peers_in maps.now port (spec.hosts_in list.now)) }
{
    let mut peers = Seq::new(alloc);
    let mut begin = 0;
    let mut inside = false;
    for (place, byte) in list.iter().enumerate() {
        if *byte == b':' && !inside {
            add_peer(alloc, maps, port, &list[begin..place], &mut peers)?;
            begin = place + 1;
            continue;
        }
        inside = is_inside(inside, *byte);
    }
    add_peer(alloc, maps, port, &list[begin..], &mut peers)?;
    Ok(peers)
}

// Whether what follows a byte stands in brackets.
fn is_inside(inside: bool, byte: u8) -> bool
    ensures { result ≡ if byte == 91 then true else if byte == 93 then false else inside }
{
    match byte {
        b'[' => true,
        b']' => false,
        _ => inside,
    }
}

// Adds the peer of a host, if it is known.
fn add_peer(
    alloc: Global,
    maps: &Maps,
    port: u16,
    host: &[u8],
    peers: &mut Seq<Peer>,
) -> Result<(), NoMemory>
    ensures { OnOk result (peers.new ≡ peers.old ++ spec.peers_in maps.now port (host.now ∷ [])) }
{
    if let Some(address) = address_of(alloc, maps, host)? {
        peers.push(Peer::Host { address, port })?;
    }
    Ok(())
}

// What is dialled for a host.
fn address_of(alloc: Global, maps: &Maps, host: &[u8]) -> Result<Option<Text>, NoMemory>
    ensures { IfOk result (λ address. address ≡ spec.address_of maps.now host.now) }
{
    match host.split_first() {
        Some((first, rest)) => {
            if *first == b'[' {
                return without_last(alloc, rest, b']');
            }
            address_named(alloc, maps, host)
        }
        None => address_named(alloc, maps, host),
    }
}

// A text without the byte that ends it, where that is this one.
fn without_last(alloc: Global, text: &[u8], end: u8) -> Result<Option<Text>, NoMemory>
    ensures { IfOk result (λ rest. rest ≡ spec.without_last end text.now) }
{
    match text.split_last() {
        Some((last, rest)) => {
            if *last == end {
                return Ok(Some(Text::of(alloc, rest)?));
            }
            Ok(None)
        }
        None => Ok(None),
    }
}

// The address of a name by the host table, or of the name without the dot that ends it.
fn address_named(alloc: Global, maps: &Maps, name: &[u8]) -> Result<Option<Text>, NoMemory>
    ensures { IfOk result (λ address. address ≡ spec.address_named maps.now name.now) }
{
    let whole = Text::of(alloc, name)?;
    if let Some(address) = known_address(maps, &whole)? {
        return Ok(Some(address));
    }
    match without_last(alloc, name, b'.')? {
        Some(bare) => known_address(maps, &bare),
        None => Ok(None),
    }
}

// The address of a name by the host table.
fn known_address(maps: &Maps, name: &Text) -> Result<Option<Text>, NoMemory>
    ensures { IfOk result (λ address. address ≡ host_address name.now maps.now.hosts) }
{
    match maps.host(name) {
        Some(address) => Ok(Some(address.copy()?)),
        None => Ok(None),
    }
}
