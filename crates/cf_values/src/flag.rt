ghost use Rattle.std.specs.Prelude.{◌≡◌, IfOk};
ghost use Rattle.cf_values.specs.Flags.{flags_of};

use mail_base::{NoMemory, Text, is_white};
use std::alloc::Global;

/// The flags of a text: its bytes without the white space among them, which is a space, a tab, any
/// byte below 32, and 127. It refuses no text (Sendmail Installation and Operation Guide, "M:
/// Define Mailer").
pub fn flags(alloc: Global, text: &Text) -> Result<Text, NoMemory>
    ensures { IfOk result (λ flags. flags ≡ flags_of text.now) }
{
    let bytes = text
        .bytes()
        .iter()
        .copied()
        .filter(|byte| !is_white(*byte))
        .collect(alloc)?;
    Ok(Text::from_vec(bytes))
}
