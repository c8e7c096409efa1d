ghost use Rattle.std.specs.Prelude.{◌≡◌, ◌≤◌, ◌↔◌, ◌++◌, ◌∷◌, [], ℕ, false, Some, IfNone, IfOk, IfSome, IsSome, OnOk, OnErr, count_by, length, slice_get};
ghost use Rattle.std.specs.List.{list_any};
ghost use Rattle.std.specs.Option.{option_copied};
ghost use Rattle.mail_base.specs.Candidates.{anchor, anchored, first_word, first_exact, free, or_else};
ghost use Rattle.mail_base.specs.Masks.{IsNextCovered, covers, wanted_mask};
ghost use Rattle.mail_base.specs.declared.rule.Rule.{Rule as TheRule};
ghost use Rattle.mail_base.specs.Metas.{is_class, is_late, is_meta};
ghost use Rattle.mail_base.specs.Rulesets.{is_named};

use crate::{Buckets, NoMemory, Seq, Text, Token, TryCopy, mask};
use std::alloc::Global;
use std::marker::Model;

/// An item of a rule's left side.
#[derive(Drop)]
pub enum Item {
    /// `$*`, zero or more tokens.
    Any,
    /// `$+`, one or more tokens.
    More,
    /// `$-`, exactly one token.
    One,
    /// `$@`, no token.
    Empty,
    /// `$=x`, a phrase of the class.
    InClass(Text),
    /// `$~x`, one token that is no phrase of the class.
    NotInClass(Text),
    /// The token itself.
    Exact(Token),
    /// `$&x`, the tokens of the macro's value as the rule runs.
    Late(Text),
}

/// A rule's left side, of which at most 20 items are written with `$`. A contract sees it as the
/// list of its items.
#[derive(Drop)]
pub struct Pattern {
    items: Seq<Item>,
    has_late: bool,
    has_class: bool,
}

impl Model for Pattern {
    ghost use Rattle.std.specs.Prelude.{◌≡◌, ◌≤◌, List, count_by};
    ghost use Rattle.std.specs.List.{list_any};
    ghost use Rattle.mail_base.specs.Metas.{is_class, is_late, is_meta};
    ghost use Rattle.mail_base.specs.declared.rule.Item.{Item};

    ghost Value = { List Item };

    ghost view = { λ p. p.items };

    ghost invariant = { λ p. record {
      few : count_by is_meta p.items ≤ 20;
      late : p.has_late ≡ list_any is_late p.items;
      class : p.has_class ≡ list_any is_class p.items;
    } };
}

/// A piece of a rule's right side.
#[derive(Drop)]
pub enum Piece {
    /// The token itself.
    Give(Token),
    /// `$n`, the tokens that the left side's n-th binding item took; n counts from 1.
    Cut(u8),
    /// `$&x`, the tokens of the macro's value as the rule runs.
    Late(Text),
}

/// What a look-up asks: a map by its name, with arguments, and what it gives where the map has
/// nothing, which is its key where there is no such list.
#[derive(Drop)]
pub struct Query {
    pub name: Text,
    pub key: Seq<Piece>,
    pub args: Seq<Seq<Piece>>,
    pub fallback: Option<Seq<Piece>>,
}

/// A look-up of a right side, in memory of its own, since few steps are look-ups. A contract sees
/// it as what it asks.
#[derive(Drop)]
pub struct Lookup {
    query: Box<Query>,
}

impl Model for Lookup {
    ghost use Rattle.mail_base.specs.declared.rule.Query.{Query};

    ghost Value = { Query };

    ghost view = { λ l. l.query.value };
}

impl Lookup {
    pub fn of(alloc: Global, query: Query) -> Result<Lookup, NoMemory>
        ensures { IfOk result (λ lookup. lookup ≡ query) }
    {
        Ok(Lookup {
            query: Box::new(alloc, query)?,
        })
    }

    pub fn query(&self) -> &Query
        ensures { result.now ≡ self.now }
    {
        &self.query
    }
}

/// A step of a rule's right side.
#[derive(Drop)]
pub enum Step {
    Plain(Piece),
    /// `$[key$]` or `$(name key $@ arg $: fallback$)`.
    Lookup(Lookup),
    /// `$>`, the call of the ruleset that the next token names, on all tokens that follow.
    Call,
}

/// What comes after a rule was applied.
#[derive(Clone, Copy, Debug, PartialEq, Eq)]
pub enum Go {
    /// The same rule is tried again: a right side without a prefix.
    Again,
    /// The ruleset returns: `$@` in front.
    Return,
    /// The next rule: `$:` in front.
    Next,
}

/// A rule's right side.
#[derive(Drop)]
pub struct Template {
    pub go: Go,
    pub steps: Seq<Step>,
}

#[derive(Drop)]
pub struct Rule {
    pub left: Pattern,
    pub right: Template,
}

/// A rule with its number in its ruleset, counted from 0.
#[derive(Drop)]
pub struct Numbered {
    pub number: u32,
    pub rule: Rule,
}

/// Where a rule stands: in the bucket of an anchor or, with `None`, among those without one, and
/// at which place there; and what it wants of the tokens.
#[derive(Clone, Copy)]
pub struct Slot {
    pub bucket: Option<usize>,
    pub place: usize,
    /// The bits that its left side wants.
    pub wanted: u64,
}

impl Item {
    /// Whether the item is written with `$`.
    pub fn is_meta(&self) -> bool
        ensures { result ≡ is_meta self.now }
    {
        match self {
            Item::Exact(Token::Sign(_)) => true,
            Item::Exact(_) => false,
            _ => true,
        }
    }
}

impl Pattern {
    /// The most items that may be written with `$`.
    pub const MOST_METAS: usize = 20;

    /// The pattern of these items, or `None` exactly where more than 20 of them are written with
    /// `$`.
    pub fn of(items: Seq<Item>) -> Option<Pattern>
        ensures value { IfSome result (λ pattern. pattern ≡ items) }
        ensures few { IsSome result ↔ (count_by is_meta items ≤ 20) }
    {
        if items.items().iter().filter(|item| item.is_meta()).count() > Pattern::MOST_METAS {
            return None;
        }
        let has_late = any_late(&items);
        let has_class = any_class(&items);
        Some(Pattern {
            items,
            has_late,
            has_class,
        })
    }

    pub fn items(&self) -> &[Item]
        ensures items { result.now ≡ self.now }
        ensures few { count_by is_meta self.now ≤ 20 }
    {
        self.items.items()
    }

    /// The token that a list of tokens must hold to match: the first of these that is a word, or
    /// else the first. `None` where no token stands for itself, and where the pattern has a `$&x`,
    /// whose value may be one that can't be cut.
    pub fn anchor(&self) -> Option<&Token>
        ensures { option_copied result ≡ anchor self.now }
    {
        if self.has_late {
            None
        } else {
            word_or_token(&self.items)
        }
    }

    /// Whether one of the items is a `$&x`.
    pub fn has_late(&self) -> bool
        ensures { result ≡ list_any is_late self.now }
    {
        self.has_late
    }

    /// Whether one of the items is a `$=x`.
    pub fn has_class(&self) -> bool
        ensures { result ≡ list_any is_class self.now }
    {
        self.has_class
    }

    /// The bits that the left side wants of the tokens that it matches. With a `$&x` it wants none,
    /// since its value may be one that can't be cut.
    pub fn wanted_mask(&self) -> u64
        ensures { result ≡ wanted_mask self.now }
    {
        if self.has_late {
            return 0;
        }
        mask::wanted_mask(self.items.items())
    }
}

fn any_late(items: &Seq<Item>) -> bool
    ensures { result ≡ list_any is_late items.now }
{
    items
        .items()
        .iter()
        .any(|item| matches!(item, Item::Late(_)))
}

fn any_class(items: &Seq<Item>) -> bool
    ensures { result ≡ list_any is_class items.now }
{
    items
        .items()
        .iter()
        .any(|item| matches!(item, Item::InClass(_)))
}

fn word_or_token(items: &Seq<Item>) -> Option<&Token>
    ensures { option_copied result ≡ or_else (first_word items.now) (first_exact items.now) }
{
    if let Some(word) = first_word(items.items()) {
        return Some(word);
    }
    first_exact(items.items())
}

fn first_word(items: &[Item]) -> Option<&Token>
    ensures { option_copied result ≡ first_word items.now }
{
    for item in items {
        if let Item::Exact(token) = item {
            if let Token::Word(_) = token {
                return Some(token);
            }
        }
    }
    None
}

fn first_exact(items: &[Item]) -> Option<&Token>
    ensures { option_copied result ≡ first_exact items.now }
{
    for item in items {
        if let Item::Exact(token) = item {
            return Some(token);
        }
    }
    None
}

impl TryCopy for Item {
    fn copy(&self) -> Result<Item, NoMemory> {
        match self {
            Item::Any => Ok(Item::Any),
            Item::More => Ok(Item::More),
            Item::One => Ok(Item::One),
            Item::Empty => Ok(Item::Empty),
            Item::InClass(name) => Ok(Item::InClass(name.copy()?)),
            Item::NotInClass(name) => Ok(Item::NotInClass(name.copy()?)),
            Item::Exact(token) => Ok(Item::Exact(token.copy()?)),
            Item::Late(name) => Ok(Item::Late(name.copy()?)),
        }
    }
}

impl TryCopy for Pattern {
    fn copy(&self) -> Result<Pattern, NoMemory> {
        Ok(Pattern {
            items: self.items.copy()?,
            has_late: self.has_late,
            has_class: self.has_class,
        })
    }
}

impl TryCopy for Piece {
    fn copy(&self) -> Result<Piece, NoMemory> {
        match self {
            Piece::Give(token) => Ok(Piece::Give(token.copy()?)),
            Piece::Cut(number) => Ok(Piece::Cut(*number)),
            Piece::Late(name) => Ok(Piece::Late(name.copy()?)),
        }
    }
}

impl TryCopy for Query {
    fn copy(&self) -> Result<Query, NoMemory> {
        Ok(Query {
            name: self.name.copy()?,
            key: self.key.copy()?,
            args: self.args.copy()?,
            fallback: self.fallback.copy()?,
        })
    }
}

impl TryCopy for Lookup {
    fn copy(&self) -> Result<Lookup, NoMemory> {
        let query = self.query().copy()?;
        Lookup::of(self.query().name.allocator(), query)
    }
}

impl TryCopy for Step {
    fn copy(&self) -> Result<Step, NoMemory> {
        match self {
            Step::Plain(piece) => Ok(Step::Plain(piece.copy()?)),
            Step::Lookup(lookup) => Ok(Step::Lookup(lookup.copy()?)),
            Step::Call => Ok(Step::Call),
        }
    }
}

impl TryCopy for Template {
    fn copy(&self) -> Result<Template, NoMemory> {
        Ok(Template {
            go: self.go,
            steps: self.steps.copy()?,
        })
    }
}

impl TryCopy for Rule {
    fn copy(&self) -> Result<Rule, NoMemory> {
        Ok(Rule {
            left: self.left.copy()?,
            right: self.right.copy()?,
        })
    }
}

impl TryCopy for Numbered {
    fn copy(&self) -> Result<Numbered, NoMemory> {
        Ok(Numbered {
            number: self.number,
            rule: self.rule.copy()?,
        })
    }
}

/// A ruleset: its names, which are compared without ASCII case, and its rules in order. It keeps
/// the rules in buckets by anchor. A contract sees it as a record of the names and the rules.
#[derive(Drop)]
pub struct RuleSet {
    names: Seq<Text>,
    rules: Buckets,
}

impl Model for RuleSet {
    ghost use Rattle.mail_base.specs.Rulesets.{Ruled};

    ghost Value = { Ruled };

    ghost view = { λ s. record { names = s.names; rules = s.rules } };
}

impl RuleSet {
    /// The ruleset of these names and rules. It takes no memory.
    pub fn of(names: Seq<Text>, rules: Buckets) -> RuleSet
        ensures { result ≡ record { names = names; rules = rules } }
    {
        RuleSet { names, rules }
    }

    pub fn names(&self) -> &[Text]
        ensures { result.now ≡ self.now.names }
    {
        self.names.items()
    }

    /// Whether one of the names is this one, without ASCII case. It takes no memory.
    pub fn is_named(&self, name: &Text) -> bool
        ensures { result ≡ is_named name.now self.now }
    {
        self.names().iter().any(|given| given.is_folded(name))
    }

    /// The number of rules. It takes no memory.
    pub fn count(&self) -> u32
        ensures { result ≡ length self.now.rules }
    {
        self.rules.count()
    }

    /// The rule of a number, counted from 0, or `None` past the end.
    pub fn rule(&self, number: u32) -> Option<&Rule>
        ensures { option_copied result ≡ slice_get self.now.rules number }
    {
        self.rules.rule(number)
    }

    /// The number of the first rule from one on whose left side wants no bits but these, or `None`
    /// where there is none. Rules count from 0. It takes no memory.
    pub fn next_covered(&self, from: u32, mask: u64) -> Option<u32>
        ensures some { IfSome result (IsNextCovered self.now.rules from mask) }
        ensures none { IfNone result ((k : ℕ) (rule : TheRule) → from ≤ k
            → slice_get self.now.rules k ≡ Some rule
            → covers mask (wanted_mask rule.left) ≡ false) }
    {
        self.rules.next_covered(from, mask)
    }

    /// Whether the left side of the rule of a number, counted from 0, wants no bits but these. Past
    /// the end there is no such rule.
    pub fn is_covered(&self, number: u32, mask: u64) -> bool
        ensures { (rule : TheRule) → slice_get self.now.rules number ≡ Some rule
            → result ≡ covers mask (wanted_mask rule.left) }
    {
        self.rules.is_covered(number, mask)
    }

    /// The rules with an anchor, without ASCII case, with their numbers in ascending order.
    pub fn anchored(&self, anchor: &Token) -> &[Numbered]
        ensures { result.now ≡ anchored anchor.now self.now.rules }
    {
        self.rules.anchored(anchor)
    }

    /// The rules without an anchor, with their numbers in ascending order.
    pub fn free(&self) -> &[Numbered]
        ensures { result.now ≡ free self.now.rules }
    {
        self.rules.free()
    }

    /// Adds a rule at the end. After `NoMemory` the ruleset is as before; it is answered after
    /// 2^32 - 1 rules too.
    pub fn push(&mut self, rule: Rule) -> Result<(), NoMemory>
        ensures ok { OnOk result (self.new
            ≡ record self.old { rules = self.old.rules ++ rule ∷ [] }) }
        ensures err { OnErr result (self.new ≡ self.old) }
    {
        self.rules.push(rule)
    }

    /// Adds a name at the end. After `NoMemory` the ruleset is as before. In a book a name is
    /// added by the book, whose index has it then.
    pub(crate) fn push_name(&mut self, name: Text) -> Result<(), NoMemory>
        ensures ok { OnOk result (self.new
            ≡ record self.old { names = self.old.names ++ name ∷ [] }) }
        ensures err { OnErr result (self.new ≡ self.old) }
    {
        self.names.push(name)
    }
}

impl TryCopy for RuleSet {
    fn copy(&self) -> Result<RuleSet, NoMemory> {
        Ok(RuleSet {
            names: self.names.copy()?,
            rules: self.rules.copy()?,
        })
    }
}
