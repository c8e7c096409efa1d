ghost use Rattle.std.specs.Prelude.{◌≡◌, IsTrue};
ghost use Rattle.mail_base.specs.Notes.{is_status};
ghost use Rattle.addr_route.specs.Errors as spec;

use mail_base::{Status, exit_status};

/// The status that a host says to the mailer `error`: itself, or that of the exit which it names.
pub fn host_status(host: &[u8]) -> &[u8]
    ensures status { result.now ≡ spec.host_status host.now }
    ensures form { IsTrue (is_status result.now) }
{
    if Status::of(host).is_some() {
        return host;
    }
    exit_status(exit_of(host))
}

/// The code where a message has none.
pub fn class_code(status: &[u8]) -> u16
    ensures { result ≡ spec.class_code status.now }
{
    match status.first() {
        Some(class) => {
            if *class == b'4' {
                return 450;
            }
            550
        }
        None => 550,
    }
}

// The exit of a name without ASCII case, or of a number from 64 to 78 (sysexits).
fn exit_of(host: &[u8]) -> Option<u8>
    ensures { result ≡ spec.exit_of host.now }
{
    if host.eq_ignore_ascii_case(b"usage") {
        return Some(64);
    }
    if host.eq_ignore_ascii_case(b"nouser") {
        return Some(67);
    }
    if host.eq_ignore_ascii_case(b"nohost") {
        return Some(68);
    }
    if host.eq_ignore_ascii_case(b"unavailable") {
        return Some(69);
    }
    if host.eq_ignore_ascii_case(b"software") {
        return Some(70);
    }
    if host.eq_ignore_ascii_case(b"tempfail") {
        return Some(75);
    }
    if host.eq_ignore_ascii_case(b"protocol") {
        return Some(76);
    }
    if host.eq_ignore_ascii_case(b"config") {
        return Some(78);
    }
    exit_numbered(host)
}

fn exit_numbered(host: &[u8]) -> Option<u8>
    ensures { result ≡ spec.exit_numbered host.now }
{
    match host {
        [tens, ones] => exit_of_digits(*tens, *ones),
        _ => None,
    }
}

// The exit of two digits.
fn exit_of_digits(tens: u8, ones: u8) -> Option<u8>
    ensures { result ≡ spec.exit_of_digits tens ones }
{
    if tens == b'6' && (b'4' <= ones && ones <= b'9') {
        return Some(60 + (ones - b'0'));
    }
    if tens == b'7' && (b'0' <= ones && ones <= b'8') {
        return Some(70 + (ones - b'0'));
    }
    None
}
