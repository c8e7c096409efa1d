ghost use Rattle.std.specs.Prelude.{◌≡◌, ◌≤◌, [], ◌∷◌, bytes_eq, length, option_map, unwrap_or, Some, IfOk};
ghost use Rattle.std.specs.List.{list_any, prefix_len};
ghost use Rattle.cf_reader.specs.Reads.{first_fault};
ghost use Rattle.cf_reader.specs.inner.Readings.{Reads};
ghost use Rattle.cf_reader.specs.declared.fault.Fault.TheVariants as faults;
ghost use Rattle.cf_reader.specs.MapLines.{fault_of_map, is_bad_line, is_dashed, is_unknown, lacks_member, map_by, map_of, members_of};
ghost use Rattle.cf_reader.specs.MapLines as spec;

use crate::fault::{Fault, LineStop};
use crate::map_lines::MapLines;
use cf_values::{computed_values, number};
use mail_base::{MapClass, MapLine, NoMemory, Seq, Text, TryCopy, words_of};
use std::alloc::Global;

/// The map that a K line declares, by what follows the letter, behind the K lines before it.
/// `BadMap` comes exactly where a name or a class is missing, `-k` or `-v` has no number below 100,
/// or a sequence has a member that none of these lines names (Sendmail Installation and Operation
/// Guide, "K: Key File Declaration").
pub(crate) fn map(alloc: Global, text: &[u8], maps: &MapLines) -> Result<MapLine, LineStop>
    ensures { Reads result (fault_of_map text.now maps.now) (map_of text.now maps.now) }
{
    let words = words_of(alloc, text)?;
    match words.items() {
        [name, class, args @ ..] => {
            let (letters, operands) = args.split_at(letters_len(args));
            declared(alloc, name, class, letters, operands, maps)
        }
        _ => Err(LineStop::Refused(Fault::BadMap)),
    }
}

// The map of a line that has a name and a class.
fn declared(
    alloc: Global,
    name: &Text,
    class: &Text,
    letters: &[Text],
    operands: &[Text],
    maps: &MapLines,
) -> Result<MapLine, LineStop>
    ensures { Reads result
        (first_fault
        ((faults.BadMap, is_bad_line class.now letters.now operands.now maps.now) ∷ []))
        (map_by name.now (spec.class_of class.now operands.now maps.now)
        letters.now operands.now) }
{
    let key_column = column(alloc, letters, b'k', 0)?;
    let value_column = column(alloc, letters, b'v', 1)?;
    let class = class_of(alloc, class, operands, maps)?;
    let file = file_of(&class, operands)?;
    let tag = tag_of(alloc, letters)?;
    Ok(MapLine {
        name: name.copy()?,
        class,
        keeps_case: value_of(letters, b'f').is_some(),
        match_only: value_of(letters, b'm').is_some(),
        tag,
        optional: value_of(letters, b'o').is_some(),
        key_column,
        value_column,
        separator: separator_of(letters),
        file,
    })
}

// How many arguments at the front begin with `-`.
fn letters_len(args: &[Text]) -> usize
    ensures length { result ≡ prefix_len is_dashed args.now }
    ensures within { result ≤ length args.now }
{
    for (index, arg) in args.iter().enumerate() {
        if !is_dashed(arg.bytes()) {
            return index;
        }
    }
    args.len()
}

fn is_dashed(arg: &[u8]) -> bool
    ensures { result ≡ is_dashed arg.now }
{
    match arg.first() {
        Some(first) => *first == b'-',
        None => false,
    }
}

// The value of a letter, which is that of the last argument with it.
fn value_of(args: &[Text], letter: u8) -> Option<&[u8]>
    ensures { option_map (λ value. value.now) result ≡ spec.value_of letter args.now }
{
    let mut value = None;
    for arg in args {
        value = behind(arg.bytes(), letter).or(value);
    }
    value
}

// What an argument has behind its letter, if this is the letter.
fn behind(arg: &[u8], letter: u8) -> Option<&[u8]>
    ensures { option_map (λ value. value.now) result ≡ spec.behind letter arg.now }
{
    match arg {
        [_, byte, value @ ..] => {
            if *byte == letter {
                return Some(value);
            }
            None
        }
        _ => None,
    }
}

// The column that the last argument with this letter names, or else this one.
fn column(alloc: Global, args: &[Text], letter: u8, default: u8) -> Result<u8, LineStop>
    ensures { Reads result (first_fault ((faults.BadMap, spec.has_bad_column letter args.now) ∷ []))
        (spec.column_of letter default args.now) }
{
    let mut column = default;
    for arg in args {
        column = column_in(alloc, arg.bytes(), letter, column)?;
    }
    Ok(column)
}

// The column that an argument names, or else this one.
fn column_in(alloc: Global, arg: &[u8], letter: u8, before: u8) -> Result<u8, LineStop>
    ensures { Reads result
        (first_fault ((faults.BadMap, spec.is_no_column (spec.behind letter arg.now)) ∷ []))
        (spec.column_or before (spec.behind letter arg.now)) }
{
    match behind(arg, letter) {
        Some(value) => column_number(&Text::of(alloc, value)?),
        None => Ok(before),
    }
}

fn column_number(value: &Text) -> Result<u8, LineStop>
    ensures { Reads result (first_fault ((faults.BadMap, spec.is_no_column (Some value.now)) ∷ []))
        (spec.column_or 0 (Some value.now)) }
{
    // A law: the number that is computed is the one that the text means.
    computed_values();
    match number(value, 99) {
        Ok(column) => Ok(column as u8),
        Err(_) => Err(LineStop::Refused(Fault::BadMap)),
    }
}

fn class_of(
    alloc: Global,
    class: &Text,
    names: &[Text],
    maps: &MapLines,
) -> Result<MapClass, LineStop>
    ensures { Reads result
        (first_fault ((faults.BadMap, lacks_member class.now names.now maps.now) ∷ []))
        (spec.class_of class.now names.now maps.now) }
{
    let small = class.folded()?;
    if is_word(small.bytes(), b"sequence") {
        return Ok(MapClass::Sequence(members(alloc, names, maps)?));
    }
    Ok(class_by(small.bytes(), class)?)
}

// The class of a word in small letters that isn't `sequence`.
fn class_by(small: &[u8], class: &Text) -> Result<MapClass, NoMemory>
    ensures { IfOk result (λ made. made ≡ spec.class_by small.now class.now) }
{
    if is_word(small, b"text") {
        Ok(MapClass::Text)
    } else if is_word(small, b"hash") {
        Ok(MapClass::Hash)
    } else if is_word(small, b"btree") {
        Ok(MapClass::Btree)
    } else if is_word(small, b"host") {
        Ok(MapClass::Host)
    } else if is_word(small, b"dequote") {
        Ok(MapClass::Dequote)
    } else if is_word(small, b"null") {
        Ok(MapClass::Null)
    } else if is_word(small, b"arith") {
        Ok(MapClass::Arith)
    } else if is_word(small, b"macro") {
        Ok(MapClass::Macro)
    } else {
        Ok(MapClass::Other(class.copy()?))
    }
}

fn is_word(text: &[u8], word: &[u8]) -> bool
    ensures { result ≡ bytes_eq text.now word.now }
{
    text == word
}

// The places of the maps that these names have now.
fn members(alloc: Global, names: &[Text], maps: &MapLines) -> Result<Seq<u32>, LineStop>
    ensures { Reads result
        (first_fault ((faults.BadMap, list_any (is_unknown maps.now) names.now) ∷ []))
        (members_of names.now maps.now) }
{
    let mut members = Seq::new(alloc);
    for name in names {
        let Some(place) = maps.place_of(name) else {
            return Err(LineStop::Refused(Fault::BadMap));
        };
        members.push(place)?;
    }
    Ok(members)
}

fn file_of(class: &MapClass, operands: &[Text]) -> Result<Option<Text>, NoMemory>
    ensures { IfOk result (λ file. file ≡ spec.file_of class.now operands.now) }
{
    if matches!(class, MapClass::Sequence(_)) {
        return Ok(None);
    }
    match operands.first() {
        Some(file) => Ok(Some(file.copy()?)),
        None => Ok(None),
    }
}

fn tag_of(alloc: Global, letters: &[Text]) -> Result<Text, NoMemory>
    ensures { IfOk result (λ tag. tag ≡ unwrap_or (spec.value_of 97 letters.now) []) }
{
    match value_of(letters, b'a') {
        Some(tag) => Text::of(alloc, tag),
        None => Ok(Text::new(alloc)),
    }
}

fn separator_of(letters: &[Text]) -> Option<u8>
    ensures { result ≡ spec.separator_of (unwrap_or (spec.value_of 122 letters.now) []) }
{
    match value_of(letters, b'z') {
        Some(value) => separator(value),
        None => None,
    }
}

// The byte that a value of `-z` means.
fn separator(value: &[u8]) -> Option<u8>
    ensures { result ≡ spec.separator_of value.now }
{
    match value {
        [b'\\', b't', ..] => Some(b'\t'),
        [b'\\', b'n', ..] => Some(b'\n'),
        [byte, ..] => Some(*byte),
        [] => None,
    }
}
