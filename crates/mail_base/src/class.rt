ghost use Rattle.std.specs.Prelude.{◌≡◌, ◌||◌, [], List, length, take, nat_eq, IfOk, OnOk, OnErr};
ghost use Rattle.std.specs.Cmp.{on_equiv, on_per, partial_equiv_from_equiv};
ghost use Rattle.std.specs.Cmp.Lexicographic.{nat_list_eq_equiv};
ghost use Rattle.std.specs.Hash as fed;
ghost use Rattle.mail_base.specs.Classes.{is_cut_into, is_phrase, longest_phrase, with_member, with_members};
ghost use Rattle.mail_base.specs.Classes as spec;
ghost use Rattle.mail_base.specs.Masks.{head_places, heads_of, with_places};
ghost use Rattle.mail_base.specs.inner.Phrases.{HasPhrases, Keeps, is_among, may_begin};
ghost use Rattle.mail_base.specs.inner.Phrases as inside;

use crate::mask::with_place;
use crate::{NoMemory, Seq, Text, Token, TryCopy};
use indexmap::IndexSet;
use std::alloc::Global;
use std::hash::{Hash, Hasher};
use std::marker::Model;

/// A member of a class. Two are equal where their texts are.
#[derive(Drop)]
pub struct Member {
    pub text: Text,
    /// The tokens that the text is cut into, or `None` where it can't be cut.
    pub tokens: Option<Seq<Token>>,
}

/// A class: its members, each once, and an index of their tokens. A contract sees it as the list
/// of its members.
pub struct Class {
    members: IndexSet<Member>,
    phrases: IndexSet<Vec<Token>>,
    longest: usize,
    /// The bits of the first tokens of the members.
    heads: u64,
}

// Written out, since a caller's proof goes through the parts of a derived drop at each way out.
impl Drop for Class {
    fn drop(self) {
        let Class {
            members: _,
            phrases: _,
            longest: _,
            heads: _,
        } = self;
    }
}

impl Model for Class {
    ghost use Rattle.std.specs.Prelude.{◌≡◌, List};
    ghost use Rattle.mail_base.specs.declared.class.Member.{Member};

    ghost Value = { List Member };

    ghost use Rattle.mail_base.specs.inner.Phrases.{HasPhrases};

    ghost view = { λ c. c.members.keys };

    ghost use Rattle.mail_base.specs.Classes.{longest_phrase};
    ghost use Rattle.mail_base.specs.Masks.{heads_of};

    ghost invariant = { λ c. record {
      phrases : HasPhrases c.phrases.keys c.members.keys;
      longest : c.longest ≡ longest_phrase c.members.keys;
      heads : c.heads ≡ heads_of c.members.keys;
    } };
}

impl PartialEq for Member {
    ghost use Rattle.mail_base.specs.Classes.{same_member};

    ghost eq = { same_member };

    ghost laws = { partial_equiv_from_equiv (on_equiv (λ m. m.text) nat_list_eq_equiv) };

    fn eq(&self, other: &Member) -> bool {
        self.text == other.text
    }
}

impl Eq for Member {
    ghost laws = { on_equiv (λ m. m.text) nat_list_eq_equiv };
}

impl Hash for Member {
    ghost use Rattle.std.proofs.Common.{rules};
    ghost use Rattle.std.specs.Cmp.Rules.{hashing};

    ghost hash_input = { λ m. fed.slice fed.u8 m.text };

    ghost respects_eq = { Prim.search (hashing, rules) };

    fn hash<H: Hasher>(&self, state: &mut H) {
        self.text.hash(state);
    }
}

impl Class {
    // A class without members. It takes no memory.
    pub(crate) fn new(alloc: Global) -> Class
        ensures { result ≡ [] }
    {
        Class {
            members: IndexSet::new(alloc),
            phrases: IndexSet::new(alloc),
            longest: 0,
            heads: 0,
        }
    }

    /// The members, in the order in which they were added. It takes no memory.
    pub fn members(&self) -> &[Member]
        ensures { result.now ≡ self.now }
    {
        self.members.as_slice()
    }

    /// Whether the tokens are those of a member, without ASCII case. It takes no memory, and its
    /// time is that of the tokens, however many members there are, or that of the first token
    /// where its bit is none of [`heads`](Class::heads).
    pub fn has_phrase(&self, tokens: &[Token]) -> bool
        ensures { result ≡ is_phrase tokens.now self.now }
    {
        may_begin(self.heads, tokens) && self.phrases.contains(tokens)
    }

    /// The bits, in a mask of tokens, of the first tokens of the members. It takes no memory.
    pub fn heads(&self) -> u64
        ensures { result ≡ heads_of self.now }
    {
        self.heads
    }

    /// How many tokens the longest member has. No longer list of tokens is a phrase of it. It
    /// takes no memory.
    pub fn longest_phrase(&self) -> usize
        ensures { result ≡ longest_phrase self.now }
    {
        self.longest
    }

    // Adds the members that aren't there, in order. After `NoMemory` the class is as before.
    pub(crate) fn extend(&mut self, more: Seq<Member>) -> Result<(), NoMemory>
        ensures ok { OnOk result (self.new ≡ with_members self.old more) }
        ensures err { OnErr result (self.new ≡ self.old) }
    {
        let members = self.members.len();
        let phrases = self.phrases.len();
        if let Err(error) = put_all(&mut self.members, &mut self.phrases, more) {
            self.members.truncate(members);
            self.phrases.truncate(phrases);
            return Err(error);
        }
        let more = &self.members.as_slice()[members..];
        self.longest = longest_from(self.longest, more);
        self.heads = heads_from(self.heads, more);
        Ok(())
    }
}

// Whether the bit of the first token is set, if there is one.
fn may_begin(mask: u64, tokens: &[Token]) -> bool
    ensures { result ≡ may_begin mask tokens.now }
{
    match tokens.split_first() {
        Some((first, _)) => (mask >> first.place()) & 1 == 1,
        None => true,
    }
}

// The bits of the first tokens of members besides these.
fn heads_from(mask: u64, members: &[Member]) -> u64
    ensures { result ≡ inside.heads_from mask members.now }
{
    members
        .iter()
        .fold(mask, |mask, member| { with_head(mask, &member.tokens) })
}

// The bit of the first token besides, if there is one.
fn with_head(mask: u64, tokens: &Option<Seq<Token>>) -> u64
    ensures { result ≡ with_places mask (head_places tokens.now) }
{
    match tokens {
        Some(tokens) => match tokens.items().split_first() {
            Some((first, _)) => with_place(mask, first.place()),
            None => mask,
        },
        None => mask,
    }
}

// How many tokens the longest of these has, and at least so many.
fn longest_from(least: usize, members: &[Member]) -> usize
    ensures { result ≡ spec.longest_from least members.now }
{
    members.iter().fold(
        least,
        |most, member| most.max(phrase_length(&member.tokens)),
    )
}

fn phrase_length(tokens: &Option<Seq<Token>>) -> usize
    ensures { result ≡ spec.phrase_length tokens.now }
{
    match tokens {
        Some(tokens) => tokens.len(),
        None => 0,
    }
}

// Puts in the members that aren't there. After `NoMemory` some may have been put at the ends.
fn put_all(
    members: &mut IndexSet<Member>,
    phrases: &mut IndexSet<Vec<Token>>,
    more: Seq<Member>,
) -> Result<(), NoMemory>
    ensures members_stay { Keeps members.old.keys members.new.keys }
    ensures phrases_stay { Keeps phrases.old.keys phrases.new.keys }
    ensures ok { OnOk result (members.new.keys ≡ with_members members.old.keys more) }
    ensures indexed { OnOk result (HasPhrases phrases.old.keys members.old.keys
        → HasPhrases phrases.new.keys members.new.keys) }
{
    for member in more.into_vec() {
        put(members, phrases, member)?;
    }
    Ok(())
}

// Puts in a member, unless it is there.
fn put(
    members: &mut IndexSet<Member>,
    phrases: &mut IndexSet<Vec<Token>>,
    member: Member,
) -> Result<(), NoMemory>
    ensures members_stay { Keeps members.old.keys members.new.keys }
    ensures phrases_stay { Keeps phrases.old.keys phrases.new.keys }
    ensures ok { OnOk result (members.new.keys ≡ with_member members.old.keys member) }
    ensures indexed { OnOk result (HasPhrases phrases.old.keys members.old.keys
        → HasPhrases phrases.new.keys members.new.keys) }
{
    if members.contains(&member) {
        return Ok(());
    }
    put_phrase(phrases, &member.tokens)?;
    members.insert(member)?;
    Ok(())
}

// Puts in the tokens of a member, if it has any.
fn put_phrase(
    phrases: &mut IndexSet<Vec<Token>>,
    tokens: &Option<Seq<Token>>,
) -> Result<(), NoMemory>
    ensures phrases_stay { Keeps phrases.old.keys phrases.new.keys }
    ensures indexed { OnOk result ((t : List Token)
        → is_among phrases.new.keys t
        ≡ (is_among phrases.old.keys t || is_cut_into t tokens.now)) }
{
    match tokens {
        None => Ok(()),
        Some(tokens) => {
            let phrase = tokens.copy()?.into_vec();
            phrases.insert(phrase)?;
            Ok(())
        }
    }
}

impl TryCopy for Member {
    fn copy(&self) -> Result<Member, NoMemory> {
        Ok(Member {
            text: self.text.copy()?,
            tokens: self.tokens.copy()?,
        })
    }
}

impl TryCopy for Class {
    fn copy(&self) -> Result<Class, NoMemory> {
        let alloc = *self.members.allocator();
        let mut copied = Class::new(alloc);
        copied.extend(copies(alloc, self.members.as_slice())?)?;
        Ok(copied)
    }
}

fn copies(alloc: Global, members: &[Member]) -> Result<Seq<Member>, NoMemory>
    ensures { IfOk result (λ copied. copied ≡ members.now) }
{
    let mut copied = Seq::new(alloc);
    for member in members {
        copied.push(member.copy()?)?;
    }
    Ok(copied)
}
