ghost use Rattle.std.specs.Prelude.{◌≡◌, ℕ, List, Bool, true, fold, position, slice_get, IfSome, OnOk};
ghost use Rattle.std.specs.List.{find};
ghost use Rattle.std.specs.Option.{option_copied};
ghost use Rattle.mail_base.specs.Places.{IsFirstAt, IsFound, IsIndexed, Keeps, is_held_for, none_held, passes_at};
ghost use Rattle.mail_base.specs.Places as all;
ghost use Rattle.mail_base.specs.inner.Looking as spec;

use crate::{NoMemory, Seq, Text};
use indexmap::IndexMap;
use std::alloc::Global;
use std::marker::Model;

/// What has names, which are compared without ASCII case.
pub trait Named {
    /// Whether a name is one of them.
    ghost has_name: { List ℕ → Self → Bool };

    /// Whether a name is one of them. It takes no memory.
    fn has_name(&self, name: &Text) -> bool
        ensures { result ≡ has_name name.now self.now };
}

/// The places of items in a list, by their names, which are compared without ASCII case. A
/// contract sees it as what is held: a place for each hash, and the places whose hash was taken.
pub struct Places {
    /// The places by the hashes of names.
    index: IndexMap<u64, usize>,
    /// The places whose hash was taken already.
    others: Seq<usize>,
}

// Written out, since a caller's proof goes through the parts of a derived drop at each way out.
impl Drop for Places {
    fn drop(self) {
        let Places {
            index: _,
            others: _,
        } = self;
    }
}

impl Model for Places {
    ghost use Rattle.mail_base.specs.Places.{Held};

    ghost Value = { Held };

    ghost view = { λ p. record { index = p.index.entries; others = p.others } };
}

impl Places {
    /// No places. It takes no memory.
    pub fn new(alloc: Global) -> Places
        ensures { result ≡ none_held }
    {
        Places {
            index: IndexMap::new(alloc),
            others: Seq::new(alloc),
        }
    }

    /// Holds a place for a name.
    pub fn hold(&mut self, name: &Text, place: usize) -> Result<(), NoMemory>
        ensures keeps { Keeps self.old self.new }
        ensures held { OnOk result (is_held_for name.now place self.new ≡ true) }
    {
        hold(&mut self.index, &mut self.others, name, place)
    }

    /// Holds a place for a name, unless an item that has it is found there or before.
    pub fn hold_first<T: Named>(
        &mut self,
        items: &[T],
        place: usize,
        name: &Text,
    ) -> Result<(), NoMemory>
        ensures keeps { Keeps self.old self.new }
        ensures held { OnOk result
            (IsFirstAt (T.has_name name.now) items.now place
            → is_held_for name.now place self.new ≡ true) }
    {
        if is_up_to(place, self.find(items, name)) {
            return Ok(());
        }
        self.hold(name, place)
    }

    /// The place of the first item that has a name, if the first of each name is held. It takes no
    /// memory. It is found by the name's hash; the places whose hash was taken stand in one list,
    /// which is walked, and no clause bounds its length.
    pub fn find<T: Named>(&self, items: &[T], name: &Text) -> Option<usize>
        ensures first { IsIndexed T.has_name items.now self.now
            → result ≡ position (T.has_name name.now) items.now }
        ensures found { IfSome result (IsFound T.has_name items.now self.now name.now) }
    {
        let found = found_at(items, name, self.index.get(&hash_of(name)));
        earliest(items, name, found, self.others.items())
    }

    /// The first item that has a name, if the place of the first of each name is held. It takes no
    /// memory.
    pub fn first<'a, T: Named>(&self, items: &'a [T], name: &Text) -> Option<&'a T>
        ensures { IsIndexed T.has_name items.now self.now
            → option_copied result ≡ find (T.has_name name.now) items.now }
    {
        let place = self.find(items, name)?;
        item_at(items, place)
    }
}

// Holds a place for a name.
fn hold(
    index: &mut IndexMap<u64, usize>,
    others: &mut Seq<usize>,
    name: &Text,
    place: usize,
) -> Result<(), NoMemory>
    ensures keeps { Keeps (record { index = index.old.entries; others = others.old })
        (record { index = index.new.entries; others = others.new }) }
    ensures held { OnOk result (is_held_for name.now place
        (record { index = index.new.entries; others = others.new }) ≡ true) }
{
    let hash = hash_of(name);
    if index.contains_key(&hash) {
        return others.push(place);
    }
    index.insert(hash, place)?;
    Ok(())
}

// Whether a place was found, and it is this one or stands before it.
fn is_up_to(place: usize, found: Option<usize>) -> bool
    ensures { result ≡ spec.is_up_to place found }
{
    match found {
        Some(found) => found <= place,
        None => false,
    }
}

// A number that names have in common where they are equal without ASCII case.
fn hash_of(name: &Text) -> u64
    ensures { result ≡ all.hash_of name.now }
{
    name.bytes()
        .iter()
        .fold(0, |hash, byte| hash_step(hash, *byte))
}

fn hash_step(hash: u64, byte: u8) -> u64
    ensures { result ≡ all.hash_step hash byte }
{
    hash.wrapping_mul(31)
        .wrapping_add(u64::from(byte.to_ascii_lowercase()))
}

// The place that the index has, if its item has the name.
fn found_at<T: Named>(items: &[T], name: &Text, place: Option<&usize>) -> Option<usize>
    ensures { result ≡ spec.found_at (T.has_name name.now) items.now (option_copied place.entry) }
{
    match place {
        Some(place) => earlier(items, name, None, *place),
        None => None,
    }
}

// The earliest of these places, and of the first so far, whose item has the name.
fn earliest<T: Named>(
    items: &[T],
    name: &Text,
    first: Option<usize>,
    places: &[usize],
) -> Option<usize>
    ensures { result ≡ fold (spec.earlier (T.has_name name.now) items.now) first places.now }
{
    places
        .iter()
        .fold(first, |first, place| earlier(items, name, first, *place))
}

fn earlier<T: Named>(items: &[T], name: &Text, first: Option<usize>, place: usize) -> Option<usize>
    ensures { result ≡ spec.earlier (T.has_name name.now) items.now first place }
{
    if has_name(item_at(items, place), name) && is_before(place, first) {
        Some(place)
    } else {
        first
    }
}

fn item_at<T>(items: &[T], place: usize) -> Option<&T>
    ensures { option_copied result ≡ slice_get items.now place }
{
    items.get(place)
}

fn has_name<T: Named>(item: Option<&T>, name: &Text) -> bool
    ensures { result ≡ passes_at (T.has_name name.now) (option_copied item.entry) }
{
    match item {
        Some(item) => item.has_name(name),
        None => false,
    }
}

fn is_before(place: usize, first: Option<usize>) -> bool
    ensures { result ≡ spec.is_before place first }
{
    match first {
        Some(first) => place < first,
        None => true,
    }
}
