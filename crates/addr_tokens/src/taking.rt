ghost use Rattle.std.specs.Prelude.{◌≡◌, ◌+◌, ◌^◌, ◌<◌, ◌≤◌, ◌==◌, ◌||◌, ℕ, List, Bool, Ok, true, length, drop, map, reverse, slice_index, IfOk};
ghost use Rattle.addr_tokens.specs.Pieces.{Alphabet, is_special};
ghost use Rattle.addr_tokens.specs.Reader as reader;
ghost use Rattle.addr_tokens.specs.inner.Scanning.{At, Goes};
ghost use Rattle.addr_tokens.specs.inner.Tables.{IsTable};
ghost use Rattle.addr_tokens.specs.inner.Views.{piece_of, size_of};

use crate::ScanFault;
use crate::ending::word_length;
use crate::front::{Front, marked_of};
use crate::gathering::{Angles, Gathering};
use crate::given::Given;
use crate::table::{Table, is_marked};
use mail_base::is_white;

/// Takes the piece that the rest of a text begins with, before which so many bytes stand. Answers
/// how many bytes it has.
// Most pieces are words, white space and operators: what each of these takes is put in on its own.
#[inline(always)]
pub(crate) fn take_first<T: Given>(
    table: &Table,
    rest: &[u8],
    place: usize,
    unclosed: &mut Angles,
    gathering: &mut Gathering<T>,
) -> Result<usize, ScanFault>
    requires some { 0 < length rest.now }
    requires place { place + length rest.now < 2 ^ 64 }
    ensures some { IfOk result (λ size. 0 < size) }
    ensures goes { (alphabet : Alphabet) (angles : Bool) (text : List ℕ)
        → IsTable alphabet table.now.listed table.now.dollars → T.serves alphabet.dollars
        → rest.now ≡ drop place text → place < length text
        → At alphabet angles text unclosed.old.checked place (reverse unclosed.old.places.items)
        gathering.old.is_long (map T.seen gathering.old.given)
        → Goes alphabet angles text unclosed.new.checked place (reverse unclosed.new.places.items)
        gathering.new.is_long (map T.seen gathering.new.given) result }
{
    let byte = rest[0];
    if table.is_lone(byte) {
        let size = word_length(table, &rest[1..]) + 1;
        return take(Front::Run(size), rest, place, unclosed, gathering);
    }
    if is_white(byte) {
        return take(Front::White, rest, place, unclosed, gathering);
    }
    if !is_marked(byte) {
        return take(Front::Operator(byte), rest, place, unclosed, gathering);
    }
    take_marked(table, rest, place, unclosed, gathering)
}

/// The same, where a byte begins the rest that quotes or comments, or a dollar sign.
fn take_marked<T: Given>(
    table: &Table,
    rest: &[u8],
    place: usize,
    unclosed: &mut Angles,
    gathering: &mut Gathering<T>,
) -> Result<usize, ScanFault>
    requires some { 0 < length rest.now }
    requires marked { (is_special (slice_index rest.now 0) || slice_index rest.now 0 == 36)
        ≡ true }
    requires place { place + length rest.now < 2 ^ 64 }
    ensures some { IfOk result (λ size. 0 < size) }
    ensures goes { (alphabet : Alphabet) (angles : Bool) (text : List ℕ)
        → IsTable alphabet table.now.listed table.now.dollars → T.serves alphabet.dollars
        → rest.now ≡ drop place text → place < length text
        → At alphabet angles text unclosed.old.checked place (reverse unclosed.old.places.items)
        gathering.old.is_long (map T.seen gathering.old.given)
        → Goes alphabet angles text unclosed.new.checked place (reverse unclosed.new.places.items)
        gathering.new.is_long (map T.seen gathering.new.given) result }
{
    let front = marked_of(table, rest, place as u64)?;
    take(front, rest, place, unclosed, gathering)
}

/// The same of a piece that was told.
#[inline(always)]
fn take<T: Given>(
    front: Front,
    rest: &[u8],
    place: usize,
    unclosed: &mut Angles,
    gathering: &mut Gathering<T>,
) -> Result<usize, ScanFault>
    requires within { size_of front ≤ length rest.now }
    ensures size { IfOk result (λ size. size ≡ size_of front) }
    ensures goes { (alphabet : Alphabet) (angles : Bool) (text : List ℕ)
        → T.serves alphabet.dollars → rest.now ≡ drop place text → place < length text
        → reader.first_of alphabet place (slice_index rest.now 0) (drop 1 rest.now)
        ≡ Ok (piece_of front rest.now, drop (size_of front) rest.now)
        → At alphabet angles text unclosed.old.checked place (reverse unclosed.old.places.items)
        gathering.old.is_long (map T.seen gathering.old.given)
        → Goes alphabet angles text unclosed.new.checked place (reverse unclosed.new.places.items)
        gathering.new.is_long (map T.seen gathering.new.given) result }
{
    unclosed.note(front, place as u64)?;
    gathering.add(front, rest)?;
    Ok(front.size())
}
