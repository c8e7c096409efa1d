ghost use Rattle.std.specs.Prelude.{◌≡◌, ◌+◌, ◌-◌, ◌≤◌, ◌<◌, ◌∷◌, [], ◌*◌, List, ℕ, length, take, drop, count_by, true, false, IfSome, IfNone};
ghost use Rattle.std.specs.Option.{option_copied};
ghost use Rattle.mail_base.specs.Catalogs.{members_of};
ghost use Rattle.mail_base.specs.Metas.{is_late, is_meta};
ghost use Rattle.rule_match.specs.Choices.{Fits};
ghost use Rattle.rule_match.specs.inner.Rows.{IsRow, IsLater, IsStart, IsLeast, AreRows, StandRows, starts_fixed};
ghost use Rattle.rule_match.specs.inner.Steps.{class_of, is_free, IsNext};
ghost use Rattle.rule_match.specs.Wants.{Want, Phrase, These, want, wants, meets};
ghost use Rattle.mail_base.specs.declared.token.Token.{Token};

use crate::meeting::{is_free, is_met, is_same, parted, width};
use crate::row::Row;
use crate::walk::Lengths;
use arrayvec::ArrayVec;
use mail_base::{Class, Classes, Item, Seq, Token};

/// The rows behind the items of several possible lengths, the last item's first.
pub fn rows_of<const W: usize>(
    classes: &Classes,
    late: &[Seq<Token>],
    items: &[Item],
    tokens: &[Token],
) -> ArrayVec<Row<W>, 20>
    requires few { count_by is_meta items.now ≤ 20 }
    requires lists { length late.now ≡ count_by is_late items.now }
    requires small { W ≤ 32 }
    requires short { length tokens.now < 64 * W }
    ensures { AreRows tokens.now (wants classes.now late.now items.now) result.items }
{
    let mut rows: ArrayVec<Row<W>, 20> = ArrayVec::new();
    let mut row = Row::new();
    row.set(tokens.len());
    let mut left = items;
    let mut lists = late.len();
    while let Some((item, before)) = left.split_last() {
        lists = lists_before(item, lists);
        let next = row_before(classes, &late[lists..], item, tokens, &row);
        if is_free(item) {
            rows.push(row);
        }
        row = next;
        left = before;
    }
    rows
}

/// How many lists are left for the items before this one: a `$&x` has the last.
fn lists_before(item: &Item, lists: usize) -> usize
    ensures { result ≡ lists - count_by is_late (item.now ∷ []) }
{
    if matches!(item, Item::Late(_)) {
        lists.saturating_sub(1)
    } else {
        lists
    }
}

/// The row of an item and what follows it, from the row of what follows.
fn row_before<const W: usize>(
    classes: &Classes,
    late: &[Seq<Token>],
    item: &Item,
    tokens: &[Token],
    after: &Row<W>,
) -> Row<W>
    requires small { W ≤ 32 }
    requires short { length tokens.now < 64 * W }
    ensures { (rest : List Want) → IsRow tokens.now rest after.now
        → IsRow tokens.now (want classes.now late.now item.now ∷ rest) result }
{
    let mut row = Row::new();
    if after.is_empty() {
        return row;
    }
    let class = class_of(classes, item);
    let mut later = false;
    let mut end = tokens.len() + 1;
    while end > 0 {
        let place = end - 1;
        let (_before, left) = parted(tokens, place);
        if is_start(classes, late, item, class, left, place, after, later) {
            row.set(place);
        }
        later = later || after.has(place);
        end = place;
    }
    row
}

/// The class whose phrases the item matches, where it is there. It is looked up once, and not at
/// each place of the tokens.
fn class_of<'a>(classes: &'a Classes, item: &Item) -> Option<&'a Class>
    ensures { option_copied result ≡ class_of classes.now item.now }
{
    match item {
        Item::InClass(name) => classes.get(name),
        _ => None,
    }
}

/// Whether the item is met by tokens from a place on up to one whose bit is set. It is known
/// whether a bit behind the place is.
fn is_start<const W: usize>(
    classes: &Classes,
    late: &[Seq<Token>],
    item: &Item,
    class: Option<&Class>,
    left: &[Token],
    place: usize,
    after: &Row<W>,
    later: bool,
) -> bool
    requires class { option_copied class ≡ class_of classes.now item.now }
    requires small { W ≤ 32 }
    requires short { place + length left.now < 64 * W }
    ensures { IsLater after.now (place + 1) (place + length left.now) later
        → IsStart (want classes.now late.now item.now) left.now place after.now result }
{
    match item {
        Item::Any => later || after.has(place),
        Item::More => later,
        Item::InClass(_) => later && phrase_length(class, left, place, after).is_some(),
        _ => is_fixed_start(classes, late, item, left, place, after),
    }
}

/// The same of an item whose matches have one length.
fn is_fixed_start<const W: usize>(
    classes: &Classes,
    late: &[Seq<Token>],
    item: &Item,
    left: &[Token],
    place: usize,
    after: &Row<W>,
) -> bool
    requires fixed { is_free item.now ≡ false }
    requires small { W ≤ 32 }
    requires short { place + length left.now < 64 * W }
    ensures { result ≡ starts_fixed (want classes.now late.now item.now) left.now place after.now }
{
    let size = width(late, item);
    size <= left.len() && after.has(place + size) && is_met(classes, late, item, &left[..size])
}

/// The least number of tokens that are a phrase of the class, up to a place whose bit is set.
fn phrase_length<const W: usize>(
    class: Option<&Class>,
    left: &[Token],
    place: usize,
    after: &Row<W>,
) -> Option<usize>
    requires small { W ≤ 32 }
    requires short { place + length left.now < 64 * W }
    ensures some { IfSome result
        (λ n. IsLeast (Phrase (members_of (option_copied class.entry)))
        left.now place after.now n) }
    ensures none { IfNone result
        (IsStart (Phrase (members_of (option_copied class.entry)))
        left.now place after.now false) }
{
    let class = class?;
    let most = class.longest_phrase().min(left.len());
    for length in 1..most + 1 {
        if after.has(place + length) {
            let (piece, _rest) = parted(left, length);
            if class.has_phrase(piece) {
                return Some(length);
            }
        }
    }
    None
}

/// By the rows behind the items that are left.
#[derive(Drop)]
pub struct ByRows<const W: usize> {
    pub rows: ArrayVec<Row<W>, 20>,
}

impl<const W: usize> Lengths for ByRows<W> {
    ghost serves = { λ by classes lists items left start.
        (W ≤ 32) × StandRows (64 * W) (wants classes lists items) left start by.rows.items };

    fn next(
        &mut self,
        classes: &Classes,
        late: &[Seq<Token>],
        item: &Item,
        _others: &[Seq<Token>],
        _after: &[Item],
        left: &[Token],
        start: usize,
    ) -> Option<usize> {
        next_length(classes, late, item, left, start, &mut self.rows)
    }
}

/// What the first item takes of the tokens that are left, in the match that is taken, if there is
/// any. The last of the rows is dropped where it is the item's.
fn next_length<const W: usize>(
    classes: &Classes,
    late: &[Seq<Token>],
    item: &Item,
    left: &[Token],
    place: usize,
    rows: &mut ArrayVec<Row<W>, 20>,
) -> Option<usize>
    requires small { W ≤ 32 }
    requires short { place + length left.now < 64 * W }
    ensures some { IfSome result
        (λ n. (tokens : List Token) (rest : List Want) → left.now ≡ drop place tokens
        → place ≤ length tokens
        → AreRows tokens (want classes.now late.now item.now ∷ rest) rows.old.items
        → IsNext (want classes.now late.now item.now) rest left.now n
        × AreRows tokens rest rows.new.items) }
    ensures none { IfNone result
        ((tokens : List Token) (rest : List Want) → left.now ≡ drop place tokens
        → place ≤ length tokens
        → AreRows tokens (want classes.now late.now item.now ∷ rest) rows.old.items
        → (n : ℕ) (later : List ℕ)
        → Fits (want classes.now late.now item.now ∷ rest) left.now (n ∷ later) → ⊥) }
{
    if !is_free(item) {
        return fixed_length(classes, late, item, left);
    }
    let row = rows.pop()?;
    least_length(classes, late, item, left, place, &row)
}

/// What an item whose matches have one length takes of the tokens that are left.
#[inline(always)]
pub fn fixed_length(
    classes: &Classes,
    late: &[Seq<Token>],
    item: &Item,
    left: &[Token],
) -> Option<usize>
    requires { is_free item.now ≡ false }
    ensures some { IfSome result
        (λ n. (after : List Want) → IsNext (want classes.now late.now item.now) after left.now n) }
    ensures none { IfNone result
        ((n : ℕ) → n ≤ length left.now
        → meets (want classes.now late.now item.now) (take n left.now) ≡ true → ⊥) }
{
    match item {
        Item::Exact(token) => exact_length(token, left),
        _ => other_length(classes, late, item, left),
    }
}

/// The same of a token.
#[inline(always)]
fn exact_length(token: &Token, left: &[Token]) -> Option<usize>
    ensures some { IfSome result
        (λ n. (after : List Want) → IsNext (These (token.now ∷ [])) after left.now n) }
    ensures none { IfNone result
        ((n : ℕ) → n ≤ length left.now
        → meets (These (token.now ∷ [])) (take n left.now) ≡ true → ⊥) }
{
    match left {
        [first, ..] if is_same(token, first) => Some(1),
        _ => None,
    }
}

/// The same of any item.
fn other_length(
    classes: &Classes,
    late: &[Seq<Token>],
    item: &Item,
    left: &[Token],
) -> Option<usize>
    requires { is_free item.now ≡ false }
    ensures some { IfSome result
        (λ n. (after : List Want) → IsNext (want classes.now late.now item.now) after left.now n) }
    ensures none { IfNone result
        ((n : ℕ) → n ≤ length left.now
        → meets (want classes.now late.now item.now) (take n left.now) ≡ true → ⊥) }
{
    let width = width(late, item);
    if width > left.len() {
        return None;
    }
    let (piece, _rest) = parted(left, width);
    if is_met(classes, late, item, piece) {
        Some(width)
    } else {
        None
    }
}

/// The least number of tokens that are a match of the item, up to a place whose bit is set.
fn least_length<const W: usize>(
    classes: &Classes,
    late: &[Seq<Token>],
    item: &Item,
    left: &[Token],
    place: usize,
    after: &Row<W>,
) -> Option<usize>
    requires small { W ≤ 32 }
    requires short { place + length left.now < 64 * W }
    ensures some { IfSome result
        (λ n. IsLeast (want classes.now late.now item.now) left.now place after.now n) }
    ensures none { IfNone result
        (IsStart (want classes.now late.now item.now) left.now place after.now false) }
{
    if matches!(item, Item::InClass(_)) {
        return phrase_length(class_of(classes, item), left, place, after);
    }
    for length in 0..left.len() + 1 {
        if after.has(place + length) {
            let (piece, _rest) = parted(left, length);
            if is_met(classes, late, item, piece) {
                return Some(length);
            }
        }
    }
    None
}
