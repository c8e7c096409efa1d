ghost use Rattle.std.specs.Prelude.{◌≡◌, ◌<◌, ◌++◌, ◌∷◌, [], List, ℕ, length};
ghost use Rattle.mail_base.specs.declared.classes.Classes.{Classes};
ghost use Rattle.mail_base.specs.declared.rule.Item.{Item};
ghost use Rattle.mail_base.specs.declared.token.Token.{Token};
ghost use Rattle.rule_match.specs.declared.cuts.Cut.{Cut};
ghost use Rattle.rule_match.specs.Choices.{Fits};
ghost use Rattle.rule_match.specs.Kept.{kept_cuts, bound_piece};
ghost use Rattle.rule_match.specs.inner.Steps.{piece_behind, AreWithin};
ghost use Rattle.rule_match.specs.Wants.{wants};

use arrayvec::ArrayVec;
use mail_base::{Seq, Token};
use std::marker::Model;

/// What an item takes of the tokens: where it begins, counted from 0, and how many it takes.
#[derive(Clone, Copy, Default)]
pub struct Cut {
    pub start: usize,
    pub length: usize,
    /// Whether `$1` to `$9` count the item.
    pub binds: bool,
}

/// The cuts of a match, one per item that is written with `$`, in order. Every other item takes one
/// token. It takes no memory, and a contract sees it as the list of the cuts.
#[derive(Drop)]
pub struct Cuts {
    kept: ArrayVec<Cut, 20>,
}

impl Model for Cuts {
    ghost Value = { List Cut };

    ghost view = { λ c. c.kept.items };
}

impl Cuts {
    /// No cuts.
    pub fn new() -> Cuts
        ensures { result ≡ [] }
    {
        Cuts {
            kept: ArrayVec::new(),
        }
    }

    pub(crate) fn clear(&mut self)
        ensures { self.new ≡ [] }
    {
        self.kept.clear();
    }

    pub(crate) fn push(&mut self, cut: Cut)
        requires { length self.old < 20 }
        ensures { self.new ≡ self.old ++ cut ∷ [] }
    {
        self.kept.push(cut);
    }

    pub(crate) fn of(kept: ArrayVec<Cut, 20>) -> Cuts
        ensures { result ≡ kept.items }
    {
        Cuts { kept }
    }

    pub fn cuts(&self) -> &[Cut]
        ensures { result.now ≡ self.now }
    {
        self.kept.as_slice()
    }

    /// What the n-th binding item takes, which `$n` stands for; n counts from 1. It is empty where
    /// fewer items bind.
    pub fn piece<'a>(&self, tokens: &'a Seq<Token>, number: u8) -> &'a [Token]
        requires { (classes : Classes) × (late : List (List Token)) × (items : List Item)
            × (lengths : List ℕ)
            × Fits (wants classes late items) tokens.now lengths
            × (self.now ≡ kept_cuts items 0 lengths) }
        ensures { (classes : Classes) (late : List (List Token))
            (items : List Item) (lengths : List ℕ)
            → Fits (wants classes late items) tokens.now lengths
            → self.now ≡ kept_cuts items 0 lengths
            → result.now ≡ bound_piece items tokens.now lengths number }
    {
        if number == 0 {
            return &[];
        }
        piece_behind(self.cuts(), tokens.items(), number - 1)
    }
}

/// What the binding cut behind so many others takes.
fn piece_behind<'a>(cuts: &[Cut], tokens: &'a [Token], number: u8) -> &'a [Token]
    requires { AreWithin (length tokens.now) cuts.now }
    ensures { result.now ≡ piece_behind tokens.now cuts.now number }
{
    let mut left = cuts;
    let mut others = number;
    while let Some((cut, later)) = left.split_first() {
        if cut.binds {
            if others == 0 {
                return &tokens[cut.start..cut.start + cut.length];
            }
            others -= 1;
        }
        left = later;
    }
    &[]
}
