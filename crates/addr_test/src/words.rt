ghost use Rattle.std.specs.Prelude.{◌≡◌, map, IfOk};
ghost use Rattle.addr_test.specs.Forms.{names_in};

use mail_base::{NoMemory, Seq, Text, texts_of};
use std::alloc::Global;

/// The names in a list of sets, which stand between commas.
pub(crate) fn names(alloc: Global, sets: &[u8]) -> Result<Seq<Text>, NoMemory>
    ensures { IfOk result (λ names. names ≡ names_in sets.now) }
{
    let slices = name_slices(alloc, sets)?;
    texts_of(alloc, slices.as_slice())
}

fn name_slices(alloc: Global, sets: &[u8]) -> Result<Vec<&[u8]>, NoMemory>
    ensures { IfOk result (λ slices. map (λ slice. slice.now) slices.items ≡ names_in sets.now) }
{
    let slices = sets.split(|byte| *byte == b',').collect(alloc)?;
    Ok(slices)
}
