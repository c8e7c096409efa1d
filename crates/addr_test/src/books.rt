ghost use Rattle.std.specs.Prelude.{◌≡◌, ◌++◌, [], ◌∷◌, None, Some, codes, slice_get, IfOk, OnOk};
ghost use Rattle.std.specs.List.{find};
ghost use Rattle.mail_base.specs.Catalogs.{value_at};
ghost use Rattle.mail_base.specs.Rulesets.{is_named};
ghost use Rattle.map_tables.specs.Answers.{map_answer, told};
ghost use Rattle.addr_test.specs.Answers as answers;
ghost use Rattle.addr_test.specs.Texts as spec;
ghost use Rattle.addr_test.specs.inner.Telling.{mailer_text_at};

use crate::printing::{line_of, push_number};
use cf_macros::expanded;
use mail_base::{Book, Catalog, Macros, Mailer, NoMemory, RuleSet, Seq, Text};
use map_tables::{Found, MapFault, Maps};
use std::alloc::Global;

/// What the map of a name tells of a key.
pub(crate) fn lookup(alloc: Global, name: &[u8], key: &[u8], maps: &Maps) -> Result<Text, NoMemory>
    ensures { IfOk result
        (λ text. text ≡ spec.lookup_text (told (map_answer maps.now name.now key.now []))) }
{
    let name = Text::of(alloc, name)?;
    let key = Text::of(alloc, key)?;
    let mut macros = Macros::new(alloc);
    match maps.lookup(&name, &key, &Seq::new(alloc), &mut macros) {
        Ok(Found::Value(value)) => found(alloc, value.bytes()),
        Ok(Found::Absent) => line_of(alloc, b"absent"),
        Err(MapFault::MapClass) => line_of(alloc, b"error: MapClass"),
        Err(MapFault::NoSuchMap) => line_of(alloc, b"error: NoSuchMap"),
        Err(MapFault::NoMemory) => Err(NoMemory),
    }
}

fn found(alloc: Global, value: &[u8]) -> Result<Text, NoMemory>
    ensures { IfOk result (λ text. text ≡ spec.line_of (codes "found: " ++ value.now)) }
{
    let mut text = Text::of(alloc, b"found: ")?;
    text.extend(value)?;
    text.push(b'\n')?;
    Ok(text)
}

/// How many rules the set of a name has.
pub(crate) fn rules(alloc: Global, name: &[u8], book: &Book) -> Result<Text, NoMemory>
    ensures { IfOk result
        (λ text. text ≡ spec.rules_text name.now (find (is_named name.now) book.now)) }
{
    let name = Text::of(alloc, name)?;
    match book.get(&name) {
        Some(set) => counted(name, set),
        None => uncounted(name),
    }
}

fn counted(name: Text, set: &RuleSet) -> Result<Text, NoMemory>
    ensures { IfOk result (λ text. text ≡ spec.rules_text name (Some set.now)) }
{
    let mut text = name;
    text.extend(b": ")?;
    push_number(u64::from(set.count()), &mut text)?;
    text.extend(b" rules\n")?;
    Ok(text)
}

fn uncounted(name: Text) -> Result<Text, NoMemory>
    ensures { IfOk result (λ text. text ≡ spec.rules_text name None) }
{
    let mut text = name;
    text.extend(b": none\n")?;
    Ok(text)
}

/// The mailers with their paths, in the order in which they were first declared.
pub(crate) fn mailers(alloc: Global, mailers: &Catalog<Mailer>) -> Result<Text, NoMemory>
    ensures { IfOk result (λ text. text ≡ spec.mailers_text mailers.now) }
{
    let mut text = Text::new(alloc);
    for index in 0..mailers.len() {
        push_mailer_at(mailers, index, &mut text)?;
    }
    Ok(text)
}

fn push_mailer_at(mailers: &Catalog<Mailer>, index: usize, text: &mut Text) -> Result<(), NoMemory>
    ensures { OnOk result (text.new ≡ text.old ++ mailer_text_at (slice_get mailers.now index)) }
{
    match mailers.at(index) {
        Some((_, mailer)) => push_mailer(mailer, text),
        None => Ok(()),
    }
}

fn push_mailer(mailer: &Mailer, text: &mut Text) -> Result<(), NoMemory>
    ensures { OnOk result
        (text.new ≡ text.old ++ spec.line_of (mailer.now.name ++ 32 ∷ mailer.now.path)) }
{
    text.extend(mailer.name.bytes())?;
    text.push(b' ')?;
    text.extend(mailer.path.bytes())?;
    text.push(b'\n')
}

/// The value of a macro, expanded.
pub(crate) fn value(alloc: Global, name: &[u8], macros: &Macros) -> Result<Text, NoMemory>
    ensures { IfOk result
        (λ text. text ≡ answers.value_text macros.now (value_at name.now macros.now)) }
{
    let name = Text::of(alloc, name)?;
    match macros.get(&name) {
        Some(written) => line_of(alloc, expanded(alloc, written, macros)?.bytes()),
        None => line_of(alloc, b"undefined"),
    }
}
