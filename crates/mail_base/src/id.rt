ghost use Rattle.std.specs.Prelude.{◌≡◌, ◌≢◌, ◌+◌, ◌<◌, ◌≤◌, ◌++◌, ◌∷◌, [], ℕ, List, length, IfOk, IfSome, IfNone};
ghost use Rattle.mail_base.specs.Names.{digits, id_text, letters, name_of};

use crate::{NoMemory, Text, TryCopy};
use arrayvec::ArrayVec;
use std::alloc::Global;
use std::marker::Model;

/// What a file of the queue holds.
#[derive(Clone, Copy, Debug, PartialEq, Eq)]
pub enum Kind {
    /// The body.
    Df,
    /// The control text.
    Qf,
    /// A control text that is being written.
    Tf,
    /// The control text of a finished entry.
    Sf,
}

/// The number of an entry, at most 999,999,999,999. A contract sees it as that number.
#[derive(Clone, Copy, Debug, PartialEq, Eq)]
pub struct Id {
    number: u64,
}

impl Model for Id {
    ghost use Rattle.std.specs.Prelude.{ℕ, ◌≤◌};

    ghost Value = { ℕ };

    ghost view = { λ i. i.number };

    ghost invariant = { λ i. i.number ≤ 999_999_999_999 };

    ghost inverse = { λ n. record { number = n } };
}

/// The 15 bytes of a file's name. A contract sees it as the list of its bytes.
#[derive(Drop)]
pub struct Name {
    bytes: ArrayVec<u8, 15>,
}

impl Model for Name {
    ghost use Rattle.std.specs.Prelude.{ℕ, List};

    ghost Value = { List ℕ };

    ghost view = { λ n. n.bytes.items };

    ghost inverse = { λ xs. record { bytes = record { items = xs } } };
}

impl Name {
    pub fn bytes(&self) -> &[u8]
        ensures { result.now ≡ self.now }
    {
        self.bytes.as_slice()
    }
}

impl Kind {
    /// The first two bytes of the names of this kind.
    pub fn letters(self) -> &'static [u8; 2]
        ensures { result.now ≡ letters self }
    {
        match self {
            Kind::Df => b"df",
            Kind::Qf => b"qf",
            Kind::Tf => b"tf",
            Kind::Sf => b"sf",
        }
    }

    fn of(first: u8, second: u8) -> Option<Kind>
        ensures some { IfSome result (λ k. first ∷ second ∷ [] ≡ letters k) }
        ensures none { IfNone result ((k : Kind) → first ∷ second ∷ [] ≢ letters k) }
    {
        match (first, second) {
            (b'd', b'f') => Some(Kind::Df),
            (b'q', b'f') => Some(Kind::Qf),
            (b't', b'f') => Some(Kind::Tf),
            (b's', b'f') => Some(Kind::Sf),
            _ => None,
        }
    }
}

impl Id {
    /// The greatest number of an id.
    pub const MOST: u64 = 999_999_999_999;

    pub fn new(number: u64) -> Id
        requires { number ≤ 999_999_999_999 }
        ensures { result ≡ number }
    {
        Id { number }
    }

    pub fn number(self) -> u64
        ensures number { result ≡ self }
        ensures most { self ≤ 999_999_999_999 }
    {
        self.number
    }

    /// The name of the id's file of this kind. It takes no memory.
    pub fn name(self, kind: Kind) -> Name
        ensures { result ≡ name_of kind self }
    {
        let mut bytes = ArrayVec::new();
        let letters = kind.letters();
        bytes.push(letters[0]);
        bytes.push(letters[1]);
        bytes.push(b'w');
        push_digits(&mut bytes, 12, self.number);
        Name { bytes }
    }

    /// The id as texts show it: a `w` and its twelve digits.
    #[tactic(auto, using(crate::proofs::FileNames::name_long))]
    pub fn text(self, alloc: Global) -> Result<Text, NoMemory>
        ensures { IfOk result (λ text. text ≡ id_text self) }
    {
        let name = self.name(Kind::Qf);
        let (_letters, text) = name.bytes().split_at(2);
        Text::of(alloc, text)
    }

    /// The kind and the id that a file's name has, or `None` exactly where it is no name of the
    /// four kinds. It takes no memory.
    pub fn of(name: &Text) -> Option<(Kind, Id)>
        ensures some { IfSome result (λ p. name.now ≡ name_of p.0 p.1) }
        ensures none { IfNone result ((k : Kind) (n : ℕ) → name.now ≢ name_of k n) }
        ensures exact { (k : Kind) (n : ℕ) → n ≤ 999_999_999_999 → name.now ≡ name_of k n
            → result ≡ Some (k, n) }
    {
        match parts(name) {
            Some((kind, number)) => Some((kind, Id { number })),
            None => None,
        }
    }
}

// The kind and the number of a name.
fn parts(name: &Text) -> Option<(Kind, u64)>
    ensures some { IfSome result (λ p. (p.1 ≤ 999_999_999_999) × (name.now ≡ name_of p.0 p.1)) }
    ensures none { IfNone result ((k : Kind) (n : ℕ) → name.now ≢ name_of k n) }
{
    match name.bytes() {
        [first, second, b'w', rest @ ..] => {
            let kind = Kind::of(*first, *second)?;
            let number = number_of(rest)?;
            Some((kind, number))
        }
        _ => None,
    }
}

// The number that twelve digits write.
fn number_of(bytes: &[u8]) -> Option<u64>
    ensures some { IfSome result (λ n. (n ≤ 999_999_999_999) × (bytes.now ≡ digits 12 n)) }
    ensures none { IfNone result ((n : ℕ) → bytes.now ≢ digits 12 n) }
{
    if bytes.len() != 12 {
        return None;
    }
    let mut number: u64 = 0;
    for byte in bytes {
        if *byte < b'0' || *byte > b'9' {
            return None;
        }
        number = number * 10 + (*byte - 48) as u64;
    }
    Some(number)
}

// Adds the last digits of a number, so many.
fn push_digits(out: &mut ArrayVec<u8, 15>, count: u8, number: u64)
    requires { length out.old.items + count ≤ 15 }
    ensures { out.new.items ≡ out.old.items ++ digits count number }
{
    if count > 0 {
        push_digits(out, count - 1, number / 10);
        out.push(48 + (number % 10) as u8);
    }
}
