ghost use Rattle.std.specs.Prelude.{◌≡◌, OnOk};
ghost use Rattle.cf_reader.specs.DefineLines.{with_macro};

use cf_macros::split_name;
use mail_base::{Macros, NoMemory, Text};
use std::alloc::Global;

/// Sets the macro of a D line, by what follows the letter.
pub(crate) fn define(alloc: Global, text: &[u8], macros: &mut Macros) -> Result<(), NoMemory>
    ensures { OnOk result (macros.new ≡ with_macro text.now macros.old) }
{
    let (name, value) = split_name(text);
    macros.set(&Text::of(alloc, name)?, &Text::of(alloc, value)?)
}
