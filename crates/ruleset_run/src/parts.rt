ghost use Rattle.std.specs.Prelude.{◌≡◌, ◌++◌, ◌∷◌, [], IfOk, OnOk, map};
ghost use Rattle.ruleset_run.specs.Filling.{OneCall, OneToken};
ghost use Rattle.ruleset_run.specs.inner.Filler.{Gain, Stand};

use crate::calls::{push_all, with_room};
use mail_base::{NoMemory, Seq, Token};
use std::alloc::Global;
use std::mem;

/// The most tokens of a filled list.
pub const MOST_TOKENS: usize = 2000;

/// The tokens and calls of a right side. Where there are more than 2,000 tokens they are no longer
/// kept.
#[derive(Drop)]
pub struct Parts {
    /// For each call the tokens that stand before it, behind the call before it.
    pub fronts: Seq<Seq<Token>>,
    /// The tokens behind the last call; all of them where there is no call.
    pub last: Seq<Token>,
    /// The number of tokens before the last call.
    pub count: usize,
    pub is_long: bool,
}

impl Parts {
    /// No parts, with room for so many tokens.
    pub fn with_room(alloc: Global, room: usize) -> Result<Parts, NoMemory>
        ensures { IfOk result (λ parts. Stand parts []) }
    {
        let last = with_room(alloc, room)?;
        Ok(Parts {
            fronts: Seq::new(alloc),
            last: Seq::from_vec(last),
            count: 0,
            is_long: false,
        })
    }

    /// Adds copies of tokens at the end.
    pub fn push_tokens(&mut self, more: &[Token]) -> Result<(), NoMemory>
        ensures { OnOk result (Gain self.old self.new (map OneToken more.now)) }
    {
        if self.is_long {
            return Ok(());
        }
        let room = MOST_TOKENS.saturating_sub(self.count);
        if more.len() > room.saturating_sub(self.last.len()) {
            self.is_long = true;
            return Ok(());
        }
        push_all(&mut self.last, more)
    }

    /// Adds a call at the end.
    pub fn push_call(&mut self) -> Result<(), NoMemory>
        ensures { OnOk result (Gain self.old self.new (OneCall ∷ [])) }
    {
        if self.is_long {
            return Ok(());
        }
        let alloc = self.last.allocator();
        // A list without tokens keeps its room for those behind the call.
        if self.last.is_empty() {
            return self.fronts.push(Seq::new(alloc));
        }
        let front = mem::replace(&mut self.last, Seq::new(alloc));
        self.count = self.count.saturating_add(front.len());
        self.fronts.push(front)
    }
}
