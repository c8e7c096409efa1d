use crate::configs::is_word;
use mail_base::{Catalog, Macros, Mark, NoMemory, Seq, Text, Token, TryCopy, Word};
use std::alloc::Global;

/// A text's front, a byte and a rest that are added, the text that comes out, and the same in
/// small letters.
struct Growth {
    front: &'static [u8],
    byte: u8,
    rest: &'static [u8],
    whole: &'static [u8],
    small: &'static [u8],
}

static GROWTHS: [Growth; 3] = [
    Growth {
        front: b"MX",
        byte: b'.',
        rest: b"Example",
        whole: b"MX.Example",
        small: b"mx.example",
    },
    Growth {
        front: b"",
        byte: b'\0',
        rest: b"",
        whole: b"\0",
        small: b"\0",
    },
    Growth {
        front: b"[@Z",
        byte: b'{',
        rest: b"\xc0\xdf`",
        whole: b"[@Z{\xc0\xdf`",
        small: b"[@z{\xc0\xdf`",
    },
];

fn grown(alloc: Global, growth: &Growth) -> Result<Text, NoMemory> {
    let mut text = Text::of(alloc, growth.front)?;
    text.push(growth.byte)?;
    text.extend(growth.rest)?;
    Ok(text)
}

fn is_grown(text: &Text, growth: &Growth) -> bool {
    text.bytes() == growth.whole && text.len() == growth.whole.len() && !text.is_empty()
}

fn is_folded(text: &Text, small: &Text, growth: &Growth) -> bool {
    small.bytes() == growth.small
        && text.is_folded(small)
        && (text == small) == (growth.whole == growth.small)
}

/// Whether a text is the same behind its way through a `Vec`, and none once it is cleared.
fn goes_and_clears(text: &Text) -> Result<bool, NoMemory> {
    let same = Text::from_vec(text.copy()?.into_vec());
    let mut none = text.copy()?;
    none.clear();
    Ok(same == *text && *text != none && none == Text::new(text.allocator()))
}

fn grows_and_folds(alloc: Global, growth: &Growth) -> Result<bool, NoMemory> {
    let text = grown(alloc, growth)?;
    let small = text.folded()?;
    Ok(is_grown(&text, growth) && is_folded(&text, &small, growth) && goes_and_clears(&text)?)
}

fn is_written_over(alloc: Global) -> Result<bool, NoMemory> {
    let mut name = Text::of(alloc, b"dfw000000000001")?;
    if name.len() == 15 {
        name.overwrite(b"qfw000000000027");
    }
    Ok(name.bytes() == b"qfw000000000027".as_slice())
}

#[test]
fn texts_grow_fold_and_are_cleared_and_written_over(rt: HostRuntime) {
    for (at, growth) in GROWTHS.iter().enumerate() {
        assert!(rt; grows_and_folds(rt.alloc(), growth) == Ok(true), "row {at}");
    }
    assert!(rt; is_written_over(rt.alloc()) == Ok(true));
}

fn one_to_three(alloc: Global) -> Result<Seq<u32>, NoMemory> {
    let mut list = Seq::new(alloc);
    for number in 1..4u32 {
        list.push(number)?;
    }
    Ok(list)
}

fn lists_differ(list: &Seq<u32>, changed: &Seq<u32>) -> bool {
    list.items() == [1, 2, 3].as_slice()
        && changed.items() == [1, 5, 3].as_slice()
        && changed.get(1).copied() == Some(5)
        && changed.get(3).is_none()
        && list != changed
}

/// Whether a list is as its copy, and differs once that has 5 at its second place, through a `Vec`.
fn grow_and_change(alloc: Global) -> Result<bool, NoMemory> {
    let list = one_to_three(alloc)?;
    let mut copied = list.copy()?;
    let is_same = copied == list;
    if copied.len() > 1 {
        copied.set(1, 5);
    }
    Ok(is_same && lists_differ(&list, &Seq::from_vec(copied.into_vec())))
}

/// How many of the items 1, 2 and 3 are kept at most, and what stays.
static CUTS: [(usize, &[u32]); 4] = [(0, &[]), (1, &[1]), (3, &[1, 2, 3]), (4, &[1, 2, 3])];

fn is_cut(alloc: Global, most: usize, left: &[u32]) -> Result<bool, NoMemory> {
    let mut cut = one_to_three(alloc)?;
    cut.truncate(most);
    Ok(cut.items() == left && cut.is_empty() == left.is_empty())
}

#[test]
fn lists_grow_and_change_and_are_cut(rt: HostRuntime) {
    assert!(rt; grow_and_change(rt.alloc()) == Ok(true));
    for (at, (most, left)) in CUTS.iter().enumerate() {
        assert!(rt; is_cut(rt.alloc(), *most, left) == Ok(true), "row {at}");
    }
}

/// What is done to a catalog: a value is set at a name, or `None` takes the name out.
type Deed = (&'static [u8], Option<u32>);

/// Deeds, and the pairs that stand after them.
static CATALOGS: [(&[Deed], &[(&[u8], u32)]); 4] = [
    (&[], &[]),
    (&[(b"b", Some(1)), (b"a", Some(2))], &[(b"b", 1), (b"a", 2)]),
    (
        &[(b"b", Some(1)), (b"a", Some(2)), (b"b", Some(3))],
        &[(b"b", 3), (b"a", 2)],
    ),
    (
        &[
            (b"b", Some(1)),
            (b"B", Some(4)),
            (b"c", Some(5)),
            (b"b", None),
            (b"d", None),
        ],
        &[(b"B", 4), (b"c", 5)],
    ),
];

fn cataloged(alloc: Global, deeds: &[Deed]) -> Result<Catalog<u32>, NoMemory> {
    let mut catalog = Catalog::new(alloc);
    for (name, value) in deeds {
        let name = Text::of(alloc, name)?;
        match value {
            Some(value) => catalog.set(name, *value)?,
            None => catalog.remove(&name),
        }
    }
    Ok(catalog)
}

fn has_pair(catalog: &Catalog<u32>, place: usize, name: &[u8], value: u32) -> bool {
    match catalog.at(place) {
        Some((other, kept)) => {
            other.bytes() == name && *kept == value && catalog.get(other).copied() == Some(value)
        }
        None => false,
    }
}

fn has_pairs(catalog: &Catalog<u32>, pairs: &[(&[u8], u32)]) -> bool {
    for (place, (name, value)) in pairs.iter().enumerate() {
        if !has_pair(catalog, place, name, *value) {
            return false;
        }
    }
    catalog.len() == pairs.len()
        && catalog.at(pairs.len()).is_none()
        && catalog.is_empty() == pairs.is_empty()
}

fn leave(alloc: Global, deeds: &[Deed], pairs: &[(&[u8], u32)]) -> Result<bool, NoMemory> {
    let catalog = cataloged(alloc, deeds)?;
    let copied = catalog.copy()?;
    Ok(has_pairs(&copied, pairs))
}

/// Whether the macro is the only one and `mx`, and is none in a copy where it is unset.
fn are_kept(macros: &Macros, name: &Text) -> Result<bool, NoMemory> {
    let mut left = macros.copy()?;
    left.unset(name);
    Ok(
        is_word(macros.get(name), b"mx")
            && macros.values().len() == 1
            && left.get(name).is_none()
            && left.values().is_empty(),
    )
}

fn are_set_and_unset(alloc: Global) -> Result<bool, NoMemory> {
    let name = Text::of(alloc, b"w")?;
    let mut macros = Macros::new(alloc);
    macros.set(&name, &Text::of(alloc, b"mx")?)?;
    are_kept(&macros, &name)
}

#[test]
fn names_keep_their_places_and_macros_their_values(rt: HostRuntime) {
    for (at, (deeds, pairs)) in CATALOGS.iter().enumerate() {
        assert!(rt; leave(rt.alloc(), deeds, pairs) == Ok(true), "row {at}");
    }
    assert!(rt; are_set_and_unset(rt.alloc()) == Ok(true));
}

/// A token, by the byte that writes it here: a word, a quoted string, an operator or a sign.
fn token(alloc: Global, letter: u8) -> Result<Token, NoMemory> {
    match letter {
        b'w' => Ok(Token::Word(Word::of(alloc, b"ann")?)),
        b'W' => Ok(Token::Word(Word::of(alloc, b"ANN")?)),
        b'q' => Ok(Token::Quoted(Word::of(alloc, b"ann")?)),
        b'u' => Ok(Token::Sign(Mark::User)),
        b'h' => Ok(Token::Sign(Mark::Host)),
        _ => Ok(Token::Op(letter)),
    }
}

fn are_equal(alloc: Global, one: u8, other: u8) -> Result<bool, NoMemory> {
    let one = token(alloc, one)?;
    let other = token(alloc, other)?;
    Ok(one.copy()? == other)
}

#[test]
fn tokens_are_copied_and_compared(rt: HostRuntime) {
    for one in b"wWquh@." {
        for other in b"wWquh@." {
            let are_equal = are_equal(rt.alloc(), *one, *other);
            assert!(rt;
                are_equal == Ok(one.eq_ignore_ascii_case(other)),
                "{one} and {other}"
            );
        }
    }
}
