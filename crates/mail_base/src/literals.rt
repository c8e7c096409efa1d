ghost use Rattle.std.specs.Prelude.{◌≡◌, ◌++◌, IfOk, OnOk};
ghost use Rattle.mail_base.specs.Literals as spec;

use crate::{NoMemory, Text};
use std::alloc::Global;

/// The value of a macro that stands for a text: where the macro is expanded, each byte of the text
/// comes, dollar signs too.
pub fn literal(alloc: Global, text: &[u8]) -> Result<Text, NoMemory>
    ensures { IfOk result (λ value. value ≡ spec.literal text.now) }
{
    let mut value = Text::new(alloc);
    for byte in text {
        push_literal(&mut value, *byte)?;
    }
    Ok(value)
}

fn push_literal(value: &mut Text, byte: u8) -> Result<(), NoMemory>
    ensures { OnOk result (value.new ≡ value.old ++ spec.literal_byte byte) }
{
    if byte == b'$' {
        return value.extend(b"$$");
    }
    value.push(byte)
}
