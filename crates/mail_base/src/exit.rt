ghost use Rattle.std.specs.Prelude.{◌≡◌, IsTrue};
ghost use Rattle.mail_base.specs.Exits.{exit_status, numbered_status};
ghost use Rattle.mail_base.specs.Notes.{is_status};

/// The status of the exit of a program, or of one that ended with none.
pub fn exit_status(exit: Option<u8>) -> &'static [u8]
    ensures status { result.now ≡ exit_status exit }
    ensures form { IsTrue (is_status result.now) }
{
    match exit {
        Some(number) => numbered_status(number),
        None => b"5.0.0",
    }
}

/// The status of an exit of a program (sysexits; RFC 3463).
pub fn numbered_status(exit: u8) -> &'static [u8]
    ensures status { result.now ≡ numbered_status exit }
    ensures form { IsTrue (is_status result.now) }
{
    match exit {
        64 => b"5.5.4",
        65 => b"5.6.0",
        67 => b"5.1.1",
        68 => b"5.1.2",
        75 => b"4.3.0",
        76 => b"5.5.0",
        77 => b"5.7.0",
        78 => b"5.3.5",
        _ => b"5.3.0",
    }
}
