ghost use Rattle.std.specs.Prelude.{◌≡◌};
ghost use Rattle.mail_base.specs.Notes.{blanked};
ghost use Rattle.mail_base.specs.Texts.{is_blank};
ghost use Rattle.mail_base.specs.Whites.{is_white};

/// Whether a byte is white space: it is at most a space, or 127.
pub fn is_white(byte: u8) -> bool
    ensures { result ≡ is_white byte }
{
    byte <= b' ' || byte == 127
}

/// Whether a byte is a space or a tab.
pub fn is_blank(byte: u8) -> bool
    ensures { result ≡ is_blank byte }
{
    byte == b' ' || byte == b'\t'
}

/// A blank in place of a CR or an LF, and any other byte as it is.
pub fn blanked(byte: u8) -> u8
    ensures { result ≡ blanked byte }
{
    if byte == b'\n' || byte == b'\r' {
        b' '
    } else {
        byte
    }
}
