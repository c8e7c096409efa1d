ghost use Rattle.std.specs.Prelude.{◌≡◌};
ghost use Rattle.std.specs.List.{list_any};
ghost use Rattle.mail_header.specs.Fields.{is_named};
ghost use Rattle.header_rewrite.specs.Names as spec;

use mail_header::is_named;

/// The headers with senders.
const SENDERS: [&[u8]; 7] = [
    b"From",
    b"Sender",
    b"Reply-To",
    b"Errors-To",
    b"Resent-From",
    b"Resent-Sender",
    b"Resent-Reply-To",
];

/// The headers with recipients.
const RECIPIENTS: [&[u8]; 6] = [
    b"To",
    b"Cc",
    b"Bcc",
    b"Resent-To",
    b"Resent-Cc",
    b"Resent-Bcc",
];

/// Whether a header has senders, by its name.
pub(crate) fn is_sender(header: &[u8]) -> bool
    ensures { result ≡ spec.is_one_of spec.sender_names header.now }
{
    is_one_of(&SENDERS, header)
}

/// Whether a header has recipients, by its name.
pub(crate) fn is_recipient(header: &[u8]) -> bool
    ensures { result ≡ spec.is_one_of spec.recipient_names header.now }
{
    is_one_of(&RECIPIENTS, header)
}

fn is_one_of(names: &[&[u8]], header: &[u8]) -> bool
    ensures { result ≡ list_any (λ name. is_named name.now header.now) names.now }
{
    names.iter().any(|name| is_named(name, header))
}
