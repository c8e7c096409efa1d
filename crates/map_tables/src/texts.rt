ghost use Rattle.std.specs.Prelude.{◌≡◌, Some, IfOk, OnOk};
ghost use Rattle.std.specs.Option.{option_copied};
ghost use Rattle.map_tables.specs.Tables.{text_of, with_first};
ghost use Rattle.map_tables.specs.inner.FilePlaces as spec;
ghost use Rattle.map_tables.specs.inner.FilePlaces.{bytes_at, text_at};

use crate::Named;
use mail_base::{Catalog, MapLine, NoMemory, Seq, Text, TryCopy};
use std::alloc::Global;

/// The names of files, each with the place of the first file that has it.
pub(crate) fn first_places(alloc: Global, texts: &[Named]) -> Result<Catalog<usize>, NoMemory>
    ensures { IfOk result (λ places. places ≡ spec.first_places texts.now) }
{
    let mut places = Catalog::new(alloc);
    for (place, text) in texts.iter().enumerate() {
        put_place(&mut places, &text.name, place)?;
    }
    Ok(places)
}

// Puts in the place of a name, unless the name is there.
fn put_place(places: &mut Catalog<usize>, name: &Text, place: usize) -> Result<(), NoMemory>
    ensures { OnOk result (places.new ≡ with_first places.old (name.now, place)) }
{
    match places.get(name) {
        Some(_) => Ok(()),
        None => places.set(name.copy()?, place),
    }
}

/// The text of the file of a K line, with the first places of the files' names.
pub(crate) fn text_of<'a>(
    texts: &'a Seq<Named>,
    places: &Catalog<usize>,
    line: &MapLine,
) -> &'a [u8]
    requires { places.now ≡ spec.first_places texts.now }
    ensures { result.now ≡ text_of texts.now line.now.file }
{
    match &line.file {
        Some(file) => bytes_of(texts, places, file),
        None => &[],
    }
}

fn bytes_of<'a>(texts: &'a Seq<Named>, places: &Catalog<usize>, file: &Text) -> &'a [u8]
    requires { places.now ≡ spec.first_places texts.now }
    ensures { result.now ≡ text_of texts.now (Some file.now) }
{
    bytes_at(text_at(texts.items(), places.get(file)))
}

fn text_at<'a>(texts: &'a [Named], place: Option<&usize>) -> Option<&'a Named>
    ensures { option_copied result ≡ text_at texts.now (option_copied place.entry) }
{
    texts.get(*place?)
}

fn bytes_at(text: Option<&Named>) -> &[u8]
    ensures { result.now ≡ bytes_at (option_copied text.entry) }
{
    match text {
        Some(text) => text.bytes.bytes(),
        None => &[],
    }
}
