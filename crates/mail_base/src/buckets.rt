ghost use Rattle.std.specs.Prelude.{◌≡◌, ◌+◌, ◌<◌, ◌≤◌, ◌^◌, ◌∷◌, ◌++◌, [], ℕ, length, false, Some, IfNone, IfOk, IfSome, OnOk, OnErr, slice_get};
ghost use Rattle.mail_base.specs.Candidates.{anchor, anchored, anchors_of, free, with_anchor};
ghost use Rattle.std.specs.Map.{keys_of};
ghost use Rattle.std.specs.Option.{option_copied, option_map};
ghost use Rattle.mail_base.specs.Buckets.{listed};
ghost use Rattle.mail_base.specs.Masks.{IsNextCovered, covers, wanted_mask};
ghost use Rattle.mail_base.specs.declared.rule.Rule.{Rule as TheRule};
ghost use Rattle.mail_base.specs.Buckets as spec;
ghost use Rattle.mail_base.specs.inner.Covering.{AreUncovered, IsFirstCovered};
ghost use Rattle.mail_base.specs.Buckets.{Adds, IsSlotFor, IsEndOf, IsBucket, Keeps, Puts};

use crate::rule::Slot;
use crate::{NoMemory, Numbered, Rule, Seq, Token, TryCopy};
use indexmap::IndexMap;
use std::alloc::Global;
use std::marker::Model;

/// Rules, kept in buckets by anchor. A contract sees the list of the rules.
#[derive(Drop)]
pub struct Buckets {
    anchored: IndexMap<Token, Seq<Numbered>>,
    free: Seq<Numbered>,
    slots: Seq<Slot>,
}

impl Model for Buckets {
    ghost use Rattle.std.specs.Prelude.{List};
    ghost use Rattle.mail_base.specs.declared.rule.Rule.{Rule};
    ghost use Rattle.mail_base.specs.Buckets.{in_order, IsIndex};

    ghost Value = { List Rule };

    ghost view = { λ b. in_order b.anchored.entries b.free b.slots };

    ghost invariant = { λ b. IsIndex (in_order b.anchored.entries b.free b.slots)
        b.anchored.entries b.free b.slots };
}

impl Buckets {
    /// No rules. It takes no memory.
    pub fn new(alloc: Global) -> Buckets
        ensures { result ≡ [] }
    {
        Buckets {
            anchored: IndexMap::new(alloc),
            free: Seq::new(alloc),
            slots: Seq::new(alloc),
        }
    }

    /// The rules with an anchor, without ASCII case, with their numbers in ascending order.
    pub fn anchored(&self, anchor: &Token) -> &[Numbered]
        ensures { result.now ≡ anchored anchor.now self.now }
    {
        match self.anchored.get(anchor) {
            Some(bucket) => bucket.items(),
            None => &[],
        }
    }

    /// The rules without an anchor, with their numbers in ascending order.
    pub fn free(&self) -> &[Numbered]
        ensures { result.now ≡ free self.now }
    {
        self.free.items()
    }

    /// The anchor of a place in the order in which anchors were first met, or `None` past the last.
    pub fn anchor(&self, place: usize) -> Option<&Token>
        ensures { option_copied result ≡ slice_get (anchors_of self.now) place }
    {
        let (anchor, _) = self.anchored.get_index(place)?;
        Some(anchor)
    }

    /// The number of rules.
    pub fn count(&self) -> u32
        ensures { result ≡ length self.now }
    {
        self.slots.len() as u32
    }

    /// The rule of a number, counted from 0, or `None` past the end.
    pub fn rule(&self, number: u32) -> Option<&Rule>
        ensures { option_copied result ≡ slice_get self.now number }
    {
        match self.slots.get(number as usize) {
            Some(slot) => rule_of(stored(&self.anchored, &self.free, slot)),
            None => None,
        }
    }

    /// The number of the first rule from one on whose left side wants no bits but these.
    pub fn next_covered(&self, from: u32, mask: u64) -> Option<u32>
        ensures some { IfSome result (IsNextCovered self.now from mask) }
        ensures none { IfNone result ((k : ℕ) (rule : TheRule) → from ≤ k
            → slice_get self.now k ≡ Some rule
            → covers mask (wanted_mask rule.left) ≡ false) }
    {
        let number = first_covered(self.slots.items(), from as usize, mask)?;
        Some(number as u32)
    }

    /// Whether the left side of the rule of a number wants no bits but these.
    pub fn is_covered(&self, number: u32, mask: u64) -> bool
        ensures { (rule : TheRule) → slice_get self.now number ≡ Some rule
            → result ≡ covers mask (wanted_mask rule.left) }
    {
        match self.slots.get(number as usize) {
            Some(slot) => covers(mask, slot.wanted),
            None => false,
        }
    }

    /// Adds a rule at the end. After `NoMemory` the rules are as before; it is answered after
    /// 2^32 - 1 rules too.
    pub fn push(&mut self, rule: Rule) -> Result<(), NoMemory>
        ensures ok { OnOk result (self.new ≡ self.old ++ rule ∷ []) }
        ensures err { OnErr result (self.new ≡ self.old) }
    {
        let number = next_number(&self.slots)?;
        let before = self.anchored.len();
        let slot = slot_for(&mut self.anchored, &self.free, &rule)?;
        let added = add(
            &mut self.anchored,
            &mut self.free,
            &mut self.slots,
            slot,
            Numbered { number, rule },
        );
        if added.is_err() {
            // A bucket that was made for the rule goes again, so that its anchor isn't met yet.
            self.anchored.truncate(before);
        }
        added
    }
}

// The first place from one on of a slot that wants no bits but these.
fn first_covered(slots: &[Slot], from: usize, mask: u64) -> Option<usize>
    ensures some { IfSome result (IsFirstCovered mask slots.now from) }
    ensures none { IfNone result (AreUncovered mask slots.now from (length slots.now)) }
{
    let mut place = from;
    'slots: while place < slots.len() {
        let slot = &slots[place];
        if covers(mask, slot.wanted) {
            return Some(place);
        }
        place += 1;
    }
    None
}

fn covers(mask: u64, wanted: u64) -> bool
    ensures { result ≡ covers mask wanted }
{
    wanted & mask == wanted
}

fn next_number(slots: &Seq<Slot>) -> Result<u32, NoMemory>
    ensures { IfOk result (λ number. (number ≡ length slots.now) × (number + 1 < 2 ^ 32)) }
{
    if slots.len() < u32::MAX as usize {
        Ok(slots.len() as u32)
    } else {
        Err(NoMemory)
    }
}

// Where a rule is to stand; a new anchor gets a bucket behind the others.
fn slot_for(
    anchored: &mut IndexMap<Token, Seq<Numbered>>,
    free: &Seq<Numbered>,
    rule: &Rule,
) -> Result<Slot, NoMemory>
    ensures slot { IfOk result (λ slot. IsSlotFor rule.now slot anchored.new.entries free.now) }
    ensures keeps { OnOk result (Keeps anchored.old.entries anchored.new.entries) }
    ensures order { OnOk result (keys_of anchored.new.entries
        ≡ with_anchor (keys_of anchored.old.entries) (anchor rule.now.left)) }
    ensures err { OnErr result (anchored.new.entries ≡ anchored.old.entries) }
{
    let wanted = rule.left.wanted_mask();
    match rule.left.anchor() {
        None => Ok(Slot {
            bucket: None,
            place: free.len(),
            wanted,
        }),
        Some(anchor) => place_of(anchored, anchor, wanted),
    }
}

// The end of the bucket of an anchor, which is made where there is none, with these wanted bits.
fn place_of(
    anchored: &mut IndexMap<Token, Seq<Numbered>>,
    anchor: &Token,
    wanted: u64,
) -> Result<Slot, NoMemory>
    ensures slot { IfOk result (λ slot. IsEndOf anchor.now slot anchored.new.entries) }
    ensures wants { IfOk result (λ slot. slot.wanted ≡ wanted) }
    ensures keeps { OnOk result (Keeps anchored.old.entries anchored.new.entries) }
    ensures order { OnOk result (keys_of anchored.new.entries
        ≡ with_anchor (keys_of anchored.old.entries) (Some anchor.now)) }
    ensures err { OnErr result (anchored.new.entries ≡ anchored.old.entries) }
{
    if let Some((place, _, bucket)) = anchored.get_full(anchor) {
        return Ok(Slot {
            bucket: Some(place),
            place: bucket.len(),
            wanted,
        });
    }
    let bucket = anchored.len();
    let key = anchor.copy()?;
    let alloc = *anchored.allocator();
    anchored.insert(key, Seq::new(alloc))?;
    Ok(Slot {
        bucket: Some(bucket),
        place: 0,
        wanted,
    })
}

// Puts a rule in its slot, which is one more. After `NoMemory` all is as before.
fn add(
    anchored: &mut IndexMap<Token, Seq<Numbered>>,
    free: &mut Seq<Numbered>,
    slots: &mut Seq<Slot>,
    slot: Slot,
    one: Numbered,
) -> Result<(), NoMemory>
    requires { IsBucket slot.bucket anchored.old.entries }
    ensures ok { OnOk result (Adds slot one anchored.old.entries free.old slots.old
        anchored.new.entries free.new slots.new) }
    ensures err { OnErr result ((anchored.new.entries ≡ anchored.old.entries)
        × (free.new ≡ free.old) × (slots.new ≡ slots.old)) }
{
    let count = slots.len();
    slots.push(slot)?;
    let put = put(anchored, free, slot.bucket, one);
    if put.is_err() {
        slots.truncate(count);
    }
    put
}

fn put(
    anchored: &mut IndexMap<Token, Seq<Numbered>>,
    free: &mut Seq<Numbered>,
    bucket: Option<usize>,
    one: Numbered,
) -> Result<(), NoMemory>
    requires { IsBucket bucket anchored.old.entries }
    ensures ok { OnOk result (Puts bucket one anchored.old.entries free.old
        anchored.new.entries free.new) }
    ensures err { OnErr result ((anchored.new.entries ≡ anchored.old.entries)
        × (free.new ≡ free.old)) }
{
    match bucket {
        None => free.push(one),
        Some(place) => anchored.get_index_mut(place).unwrap().push(one),
    }
}

// What stands in a slot.
fn stored<'a>(
    anchored: &'a IndexMap<Token, Seq<Numbered>>,
    free: &'a Seq<Numbered>,
    slot: &Slot,
) -> Option<&'a Numbered>
    ensures { option_copied result ≡ spec.stored anchored.now.entries free.now slot.now }
{
    match slot.bucket {
        None => free.get(slot.place),
        Some(place) => at_place(anchored, place, slot.place),
    }
}

fn rule_of(one: Option<&Numbered>) -> Option<&Rule>
    ensures { option_copied result ≡ option_map (λ one. one.rule) (option_copied one.entry) }
{
    match one {
        Some(one) => Some(&one.rule),
        None => None,
    }
}

fn push_copy(copied: &mut Buckets, rule: Option<&Rule>) -> Result<(), NoMemory>
    ensures { OnOk result (copied.new ≡ copied.old ++ listed (option_copied rule.entry)) }
{
    match rule {
        Some(rule) => copied.push(rule.copy()?),
        None => Ok(()),
    }
}

fn at_place(
    anchored: &IndexMap<Token, Seq<Numbered>>,
    bucket: usize,
    place: usize,
) -> Option<&Numbered>
    ensures { option_copied result ≡ spec.at_place (slice_get anchored.now.entries bucket) place }
{
    let (_, bucket) = anchored.get_index(bucket)?;
    bucket.get(place)
}

impl TryCopy for Buckets {
    fn copy(&self) -> Result<Buckets, NoMemory> {
        let mut copied = Buckets::new(self.slots.allocator());
        for number in 0..self.count() {
            push_copy(&mut copied, self.rule(number))?;
        }
        Ok(copied)
    }
}
