ghost use Rattle.std.specs.Prelude.{◌≡◌, ◌+◌, ◌≤◌, ◌<◌, List, ℕ, ◌∷◌, ◌*◌, IfSome, IfNone, length, drop, count_by, true, false};
ghost use Rattle.std.specs.List.{list_any};
ghost use Rattle.mail_base.specs.Masks.{edge, mask_of};
ghost use Rattle.mail_base.specs.Metas.{is_class, is_late, is_meta};
ghost use Rattle.mail_base.specs.declared.classes.Classes.{Classes};
ghost use Rattle.mail_base.specs.declared.token.Token.{Token};
ghost use Rattle.rule_match.specs.Choices.{Fits};
ghost use Rattle.rule_match.specs.Kept.{IsChoice};
ghost use Rattle.rule_match.specs.inner.Heads.{has_head, have_heads, known_place, may_follow, place_behind};
ghost use Rattle.rule_match.specs.inner.Steps.{front_stands, front_width, is_free, IsFirst, IsFirstFront, IsNext};
ghost use Rattle.rule_match.specs.Wants.{want, wants, lists_after};

use crate::cuts::Cuts;
use crate::meeting::{is_free, is_same, lists_after, parted, width};
use crate::rows::{ByRows, fixed_length, rows_of};
use crate::trial::least;
use crate::walk::{Lengths, found_by};
use mail_base::{Classes, Item, Pattern, Seq, Token, mask_of};

/// What stands in a mask for an end of the tokens as a neighbour.
const EDGE: u32 = 40;

/// The match that a rule takes, or `None` exactly where nothing matches. It takes no memory.
///
/// The lists are the tokens of the `$&x` in order. For up to 2,047 tokens, and a run has no more,
/// the time grows with the items and with the tokens, and with the square of the longest phrase.
pub fn find(
    pattern: &Pattern,
    tokens: &Seq<Token>,
    classes: &Classes,
    late: &Seq<Seq<Token>>,
) -> Option<Cuts>
    requires { length late.now ≡ count_by is_late pattern.now }
    ensures some { IfSome result
        (λ cuts. IsChoice classes.now late.now pattern.now tokens.now cuts) }
    ensures none { IfNone result
        ((lengths : List ℕ)
        → Fits (wants classes.now late.now pattern.now) tokens.now lengths → ⊥) }
{
    let mut cuts = Cuts::new();
    let mask = mask_of(tokens.items());
    if find_into(pattern, tokens, mask, classes, late, &mut cuts) {
        Some(cuts)
    } else {
        None
    }
}

/// The same into cuts that are there, with the mask of the tokens: whether there is a match. Where
/// there is none they tell nothing.
pub fn find_into(
    pattern: &Pattern,
    tokens: &Seq<Token>,
    mask: u64,
    classes: &Classes,
    late: &Seq<Seq<Token>>,
    cuts: &mut Cuts,
) -> bool
    requires lists { length late.now ≡ count_by is_late pattern.now }
    requires mask { mask ≡ mask_of tokens.now }
    ensures some { result ≡ true
        → IsChoice classes.now late.now pattern.now tokens.now cuts.new }
    ensures none { result ≡ false → (lengths : List ℕ)
        → Fits (wants classes.now late.now pattern.now) tokens.now lengths → ⊥ }
{
    let items = pattern.items();
    if !pattern.has_class() {
        return find_plain(classes, late.items(), items, tokens.items(), cuts);
    }
    have_heads(classes, items, mask)
        && find_phrases(classes, late.items(), items, tokens.items(), cuts)
}

/// How many lists [`find`] wants with the pattern: one for each `$&x`.
pub fn lists_wanted(pattern: &Pattern) -> usize
    ensures { result ≡ count_by is_late pattern.now }
{
    pattern
        .items()
        .iter()
        .filter(|item| matches!(item, Item::Late(_)))
        .count()
}

/// Whether each `$=x` has a member whose first token may be among the tokens, behind what stands
/// before it in the items, by their mask.
fn have_heads(classes: &Classes, items: &[Item], mask: u64) -> bool
    ensures { result ≡ have_heads mask classes.now (Some edge) items.now }
{
    let mut before = Some(EDGE);
    for item in items {
        if !has_head(classes, item, mask, before) {
            return false;
        }
        before = place_behind(before, item);
    }
    true
}

/// The same of one item, behind what has this place in a mask, where that is known.
fn has_head(classes: &Classes, item: &Item, mask: u64, before: Option<u32>) -> bool
    requires { IfSome before (λ place. place < 64) }
    ensures { result ≡ has_head mask classes.now before item.now }
{
    match item {
        Item::InClass(name) => classes.heads(name) & may_follow(mask, before) != 0,
        _ => true,
    }
}

/// The places of a mask that has the pair with what stands before them too, where that is known.
/// The places of such pairs are those of the second tokens, turned.
fn may_follow(mask: u64, before: Option<u32>) -> u64
    requires { IfSome before (λ place. place < 64) }
    ensures { result ≡ may_follow mask before }
{
    match before {
        Some(before) => mask & mask.rotate_right(before * 7 + 41),
        None => mask,
    }
}

/// The place of what stands before the next item, where that is known.
fn place_behind(before: Option<u32>, item: &Item) -> Option<u32>
    requires { IfSome before (λ place. place < 64) }
    ensures value { result ≡ place_behind before item.now }
    ensures within { IfSome result (λ place. place < 64) }
{
    match item {
        Item::Exact(token) => known_place(token),
        Item::Empty => before,
        _ => None,
    }
}

/// The place of an operator in a mask. That of another token isn't asked for.
fn known_place(token: &Token) -> Option<u32>
    ensures value { result ≡ known_place token.now }
    ensures within { IfSome result (λ place. place < 64) }
{
    match token {
        Token::Op(byte) => Some(u32::from(byte.to_ascii_lowercase()) % 64),
        _ => None,
    }
}

/// By the items up to the next of several possible lengths, where none is a phrase of a class.
#[derive(Clone, Copy)]
struct ByFronts;

impl Lengths for ByFronts {
    ghost serves = { λ fronts classes lists items left start. list_any is_class items ≡ false };

    fn next(
        &mut self,
        classes: &Classes,
        late: &[Seq<Token>],
        item: &Item,
        others: &[Seq<Token>],
        after: &[Item],
        left: &[Token],
        _start: usize,
    ) -> Option<usize> {
        length_of(classes, late, item, others, after, left)
    }
}

/// The same where none of the items is a phrase of a class.
///
/// Each `$*` and `$+` is tried at growing lengths until the items up to the next of them meet the
/// tokens there, and is then done with: what follows can match from a later place only if it can
/// from this one.
fn find_plain(
    classes: &Classes,
    late: &[Seq<Token>],
    pattern: &[Item],
    tokens: &[Token],
    cuts: &mut Cuts,
) -> bool
    requires few { count_by is_meta pattern.now ≤ 20 }
    requires plain { list_any is_class pattern.now ≡ false }
    ensures some { result ≡ true
        → IsChoice classes.now late.now pattern.now tokens.now cuts.new }
    ensures none { result ≡ false → (lengths : List ℕ)
        → Fits (wants classes.now late.now pattern.now) tokens.now lengths → ⊥ }
{
    let mut lengths = ByFronts;
    found_by(&mut lengths, classes, late, pattern, tokens, cuts)
}

/// The same for any items: by rows of bits, or by trial where these are too short for the tokens.
fn find_phrases(
    classes: &Classes,
    late: &[Seq<Token>],
    pattern: &[Item],
    tokens: &[Token],
    cuts: &mut Cuts,
) -> bool
    requires few { count_by is_meta pattern.now ≤ 20 }
    requires lists { length late.now ≡ count_by is_late pattern.now }
    ensures some { result ≡ true
        → IsChoice classes.now late.now pattern.now tokens.now cuts.new }
    ensures none { result ≡ false → (lengths : List ℕ)
        → Fits (wants classes.now late.now pattern.now) tokens.now lengths → ⊥ }
{
    if !front_stands(classes, late, pattern, tokens) {
        return false;
    }
    if tokens.len() < 64 {
        return find_by_rows::<1>(classes, late, pattern, tokens, cuts);
    }
    if tokens.len() < 2048 {
        return find_by_rows::<32>(classes, late, pattern, tokens, cuts);
    }
    let Some(kept) = least(classes, late, pattern, tokens, 0) else {
        return false;
    };
    *cuts = Cuts::of(kept);
    true
}

/// The same by the rows: whether what follows an item fits the tokens from a place on is looked up.
fn find_by_rows<const W: usize>(
    classes: &Classes,
    late: &[Seq<Token>],
    pattern: &[Item],
    tokens: &[Token],
    cuts: &mut Cuts,
) -> bool
    requires few { count_by is_meta pattern.now ≤ 20 }
    requires lists { length late.now ≡ count_by is_late pattern.now }
    requires small { W ≤ 32 }
    requires short { length tokens.now < 64 * W }
    ensures some { result ≡ true
        → IsChoice classes.now late.now pattern.now tokens.now cuts.new }
    ensures none { result ≡ false → (lengths : List ℕ)
        → Fits (wants classes.now late.now pattern.now) tokens.now lengths → ⊥ }
{
    let mut lengths = ByRows {
        rows: rows_of::<W>(classes, late, pattern, tokens),
    };
    found_by(&mut lengths, classes, late, pattern, tokens, cuts)
}

/// What the first item takes of the tokens that are left, in the match that is taken, if there is
/// any. Each part of the pattern comes behind its lists.
fn length_of(
    classes: &Classes,
    late: &[Seq<Token>],
    item: &Item,
    others: &[Seq<Token>],
    after: &[Item],
    left: &[Token],
) -> Option<usize>
    requires { list_any is_class (item.now ∷ after.now) ≡ false }
    ensures some { IfSome result
        (λ n. IsNext (want classes.now late.now item.now)
        (wants classes.now others.now after.now) left.now n) }
    ensures none { IfNone result
        ((n : ℕ) (later : List ℕ)
        → Fits (want classes.now late.now item.now ∷ wants classes.now others.now after.now)
        left.now (n ∷ later) → ⊥) }
{
    match item {
        Item::Any => place_of(classes, others, after, left, 0),
        Item::More => place_of(classes, others, after, left, 1),
        _ => fixed_length(classes, late, item, left),
    }
}

/// The first place, from the least on, from which what follows a `$*` or `$+` matches, if it does
/// from any.
fn place_of(
    classes: &Classes,
    late: &[Seq<Token>],
    after: &[Item],
    left: &[Token],
    least: usize,
) -> Option<usize>
    requires { list_any is_class after.now ≡ false }
    ensures some { IfSome result
        (λ place. IsFirst (wants classes.now late.now after.now) left.now least place) }
    ensures none { IfNone result
        ((other : ℕ) (lengths : List ℕ) → least ≤ other → other ≤ length left.now
        → Fits (wants classes.now late.now after.now) (drop other left.now) lengths → ⊥) }
{
    if least > left.len() {
        return None;
    }
    let (width, chooses) = front_width(late, after, left.len() - least)?;
    let last = left.len() - width;
    if !chooses {
        return Some(last);
    }
    first_front(classes, late, after, left, least, last)
}

/// The first of these places from which the items before the first of several possible lengths meet
/// the tokens.
fn first_front(
    classes: &Classes,
    late: &[Seq<Token>],
    items: &[Item],
    tokens: &[Token],
    least: usize,
    last: usize,
) -> Option<usize>
    requires { last ≤ length tokens.now }
    ensures some { IfSome result
        (λ place. IsFirstFront (wants classes.now late.now items.now) tokens.now least last place) }
    ensures none { IfNone result ((place : ℕ) → least ≤ place → place ≤ last
        → front_stands (wants classes.now late.now items.now) (drop place tokens.now) ≡ false) }
{
    for place in least..last + 1 {
        let left = &tokens[place..];
        if !begins_otherwise(items, left) && front_stands(classes, late, items, left) {
            return Some(place);
        }
    }
    None
}

/// How many tokens the items before the first of several possible lengths take together, and
/// whether there is one of these, or `None` where they take more than so many.
fn front_width(late: &[Seq<Token>], items: &[Item], most: usize) -> Option<(usize, bool)>
    ensures some { IfSome result
        (λ front. (front.0 ≡ front_width late.now items.now)
        × (front.1 ≡ list_any is_free items.now) × (front.0 ≤ most)) }
    ensures none { IfNone result (most < front_width late.now items.now) }
{
    let mut room = most;
    let mut lists = late;
    for item in items {
        if is_free(item) {
            return Some((most - room, true));
        }
        let width = width(lists, item);
        if width > room {
            return None;
        }
        room -= width;
        lists = lists_after(item, lists);
    }
    Some((most - room, false))
}

/// Whether the first item is a token, and the tokens begin with another. Most fronts that don't
/// stand are seen by this alone.
#[inline(always)]
fn begins_otherwise(items: &[Item], tokens: &[Token]) -> bool
    ensures { result ≡ true → (classes : Classes) (late : List (List Token))
        → front_stands (wants classes late items.now) tokens.now ≡ false }
{
    match (items, tokens) {
        ([Item::Exact(token), ..], [first, ..]) => !is_same(token, first),
        _ => false,
    }
}

/// Whether the items before the first of several possible lengths meet the first tokens.
fn front_stands(classes: &Classes, late: &[Seq<Token>], items: &[Item], tokens: &[Token]) -> bool
    ensures { result ≡ front_stands (wants classes.now late.now items.now) tokens.now }
{
    let mut lists = late;
    let mut left = tokens;
    for item in items {
        if is_free(item) {
            return true;
        }
        let Some(length) = fixed_length(classes, lists, item, left) else {
            return false;
        };
        left = parted(left, length).1;
        lists = lists_after(item, lists);
    }
    true
}
