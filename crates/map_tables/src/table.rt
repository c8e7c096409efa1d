ghost use Rattle.std.specs.Prelude.{◌≡◌, List, ℕ, IfOk, OnOk, fold};
ghost use Rattle.std.specs.List.{list_all};
ghost use Rattle.std.specs.Option.{option_copied, option_to_list};
ghost use Rattle.mail_base.specs.Catalogs.{value_at};
ghost use Rattle.mail_base.specs.Whites.{is_white};
ghost use Rattle.map_tables.specs.Marks.{is_silent};
ghost use Rattle.map_tables.specs.Tables.{column_pair, file_pairs, first_pairs, folded_key, line_pair, pair_by, with_first, word_pair};
ghost use Rattle.map_tables.specs.Tables as spec;
ghost use Rattle.map_tables.specs.inner.FilePlaces.{first_places};

use crate::Named;
use crate::lines::{begins_with, column};
use crate::texts::text_of;
use mail_base::{
    Catalog, MapClass, MapLine, NoMemory, Seq, Text, TryCopy, is_white, split_line, without_whites,
    word_length,
};
use std::alloc::Global;

/// A K line with the table of its file.
#[derive(Drop)]
pub struct Table {
    pub line: MapLine,
    /// The keys as they are compared, each with the value of its first line.
    pub pairs: Catalog<Text>,
}

/// The first line of a key counts: the table has at each key what the first of the file's pairs
/// with it has.
pub fn first_line_counts()
    ensures { (map : MapLine) (text key : List ℕ)
        → value_at key (first_pairs (file_pairs map text)) ≡ value_at key (file_pairs map text) }
{}

impl Table {
    /// The table of a K line, with the first places of the files' names.
    pub(crate) fn load(
        alloc: Global,
        line: &MapLine,
        texts: &Seq<Named>,
        places: &Catalog<usize>,
    ) -> Result<Table, NoMemory>
        requires { places.now ≡ first_places texts.now }
        ensures { IfOk result (λ table. table ≡ spec.table texts.now line.now) }
    {
        let pairs = pairs_of(alloc, line, text_of(texts, places, line))?;
        let line = line.copy()?;
        Ok(Table { line, pairs })
    }

    /// The value of a key, if there is one.
    pub(crate) fn get(&self, key: &Text) -> Result<Option<&Text>, NoMemory>
        ensures { IfOk result
            (λ value. option_copied value
            ≡ value_at (folded_key self.now.line key.now) self.now.pairs) }
    {
        let key = folded_key(&self.line, key)?;
        Ok(self.pairs.get(&key))
    }
}

// The table of the lines of a text.
fn pairs_of(alloc: Global, map: &MapLine, text: &[u8]) -> Result<Catalog<Text>, NoMemory>
    ensures { IfOk result (λ pairs. pairs ≡ first_pairs (file_pairs map.now text.now)) }
{
    let mut pairs = Catalog::new(alloc);
    let mut rest = text;
    'lines: while !rest.is_empty() {
        let (line, after) = split_line(rest);
        put_pair(&mut pairs, line_pair(alloc, map, line)?)?;
        rest = after;
    }
    Ok(pairs)
}

/// Puts in the pair that a line says, if it says one, unless its key is there: the first line of a
/// key counts.
pub fn put_pair(pairs: &mut Catalog<Text>, pair: Option<(Text, Text)>) -> Result<(), NoMemory>
    ensures { OnOk result (pairs.new ≡ fold with_first pairs.old (option_to_list pair)) }
{
    match pair {
        Some((key, value)) => put_first(pairs, key, value),
        None => Ok(()),
    }
}

fn put_first(pairs: &mut Catalog<Text>, key: Text, value: Text) -> Result<(), NoMemory>
    ensures { OnOk result (pairs.new ≡ with_first pairs.old (key, value)) }
{
    match pairs.get(&key) {
        Some(_) => Ok(()),
        None => pairs.set(key, value),
    }
}

fn line_pair(alloc: Global, map: &MapLine, line: &[u8]) -> Result<Option<(Text, Text)>, NoMemory>
    ensures { IfOk result (λ pair. pair ≡ line_pair map.now line.now) }
{
    match pair_by(alloc, map, line)? {
        Some((key, value)) => Ok(Some((folded_key(map, &key)?, value))),
        None => Ok(None),
    }
}

fn pair_by(alloc: Global, map: &MapLine, line: &[u8]) -> Result<Option<(Text, Text)>, NoMemory>
    ensures { IfOk result (λ pair. pair ≡ pair_by map.now.class map.now line.now) }
{
    match &map.class {
        MapClass::Text => column_pair(alloc, map, line),
        MapClass::Hash => word_pair(alloc, line),
        MapClass::Btree => word_pair(alloc, line),
        _ => Ok(None),
    }
}

fn column_pair(alloc: Global, map: &MapLine, line: &[u8]) -> Result<Option<(Text, Text)>, NoMemory>
    ensures { IfOk result (λ pair. pair ≡ column_pair map.now line.now) }
{
    let Some(key) = column(line, map.separator, map.key_column as usize) else {
        return Ok(None);
    };
    let Some(value) = column(line, map.separator, map.value_column as usize) else {
        return Ok(None);
    };
    Ok(Some((Text::of(alloc, key)?, Text::of(alloc, value)?)))
}

fn word_pair(alloc: Global, line: &[u8]) -> Result<Option<(Text, Text)>, NoMemory>
    ensures { IfOk result (λ pair. pair ≡ word_pair line.now) }
{
    if is_silent(line) {
        return Ok(None);
    }
    let end = word_length(line);
    let value = without_whites(&line[end..]);
    Ok(Some((Text::of(alloc, &line[..end])?, Text::of(alloc, value)?)))
}

fn is_silent(line: &[u8]) -> bool
    ensures { result ≡ is_silent line.now }
{
    begins_with(line, b'#') || is_all_white(line)
}

fn is_all_white(line: &[u8]) -> bool
    ensures { result ≡ list_all is_white line.now }
{
    line.iter().all(|byte| is_white(*byte))
}

// A key as it is compared.
fn folded_key(map: &MapLine, key: &Text) -> Result<Text, NoMemory>
    ensures { IfOk result (λ folded. folded ≡ folded_key map.now key.now) }
{
    if map.keeps_case {
        key.copy()
    } else {
        key.folded()
    }
}
