ghost use Rattle.std.specs.Prelude.{◌≡◌, ◌<◌, IfOk, OnOk, OnErr, false, fold, is_some};
ghost use Rattle.addr_tokens.specs.Reader.{cut};
ghost use Rattle.map_tables.specs.Answers.{TellsOr, macro_name, macros_after, map_answer, told, with_macro};
ghost use Rattle.ruleset_run.specs.Cutting as spec;
ghost use Rattle.ruleset_run.specs.inner.Values.{current, lates, with_change, with_new};

use addr_tokens::cut;
use cf_macros::expanded;
use mail_base::{Catalog, Macros, NoMemory, Seq, Text, Token, TryCopy, literal};
use map_tables::{Found, MapFault, Maps, macro_name};
use std::alloc::Global;
use std::marker::Model;
use std::mem;

/// The macros of a run, with what their `$&x` stand for, each cut once. They are copied when one is
/// changed for the first time.
///
/// What look-ups change waits until [`Values::settle`]: in one right side each `$&x` is put in
/// before its look-ups are made. A contract sees the operators, the macros, and the macros with
/// what waits.
#[derive(Drop)]
pub struct Values<'a> {
    operators: &'a Text,
    given: &'a Macros,
    changed: Option<Macros>,
    waiting: Seq<Change>,
    cuts: Catalog<Option<Seq<Token>>>,
}

/// What a look-up makes of a macro: it has this value, or isn't set.
#[derive(Drop)]
pub struct Change {
    pub name: Text,
    pub value: Option<Text>,
}

impl<'a> Model for Values<'a> {
    ghost use Rattle.std.specs.Prelude.{fold};
    ghost use Rattle.ruleset_run.specs.inner.Values.{AreCuts, Known, current, with_change};

    ghost Value = { Known };

    ghost view = { λ v. record {
      operators = v.operators.now;
      macros = current v.given.now v.changed;
      after = fold with_change (current v.given.now v.changed) v.waiting;
    } };

    ghost invariant = { λ v. AreCuts v.operators.now (current v.given.now v.changed) v.cuts };
}

impl<'a> Values<'a> {
    /// The macros that are given, of which none was changed. It takes no memory.
    pub fn new(alloc: Global, operators: &'a Text, macros: &'a Macros) -> Values<'a>
        ensures { result ≡ record {
          operators = operators.now;
          macros = macros.now;
          after = macros.now;
        } }
    {
        Values {
            operators,
            given: macros,
            changed: None,
            waiting: Seq::new(alloc),
            cuts: Catalog::new(alloc),
        }
    }

    pub fn allocator(&self) -> Global {
        self.waiting.allocator()
    }

    /// The tokens of a text, or `None` where it can't be cut.
    pub fn cut(&self, text: &Text) -> Result<Option<Seq<Token>>, NoMemory>
        ensures { IfOk result (λ tokens. tokens ≡ cut self.now.operators false text.now) }
    {
        cut(self.allocator(), text, self.operators, false)
    }

    /// Whether what a `$&x` stands for can be cut.
    pub fn is_cut(&mut self, name: &Text) -> Result<bool, NoMemory>
        ensures value { IfOk result (λ is. is ≡ is_some (lates self.old name.now)) }
        ensures same { self.new ≡ self.old }
    {
        match self.cuts.get(name) {
            Some(tokens) => Ok(tokens.is_some()),
            None => Ok(self.late_anew(name)?.is_some()),
        }
    }

    /// The tokens that a `$&x` stands for, or `None` where they can't be cut.
    pub fn late(&mut self, name: &Text) -> Result<Option<Seq<Token>>, NoMemory>
        ensures value { IfOk result (λ tokens. tokens ≡ lates self.old name.now) }
        ensures same { self.new ≡ self.old }
    {
        match self.cuts.get(name) {
            Some(tokens) => tokens.copy(),
            None => self.late_anew(name),
        }
    }

    // The same where they weren't cut before.
    fn late_anew(&mut self, name: &Text) -> Result<Option<Seq<Token>>, NoMemory>
        ensures value { IfOk result (λ tokens. tokens ≡ lates self.old name.now) }
        ensures same { self.new ≡ self.old }
    {
        let macros = current(self.given, &self.changed);
        let text = late_text(self.allocator(), macros, name)?;
        let tokens = cut(self.allocator(), &text, self.operators, false)?;
        let copied = tokens.copy()?;
        self.cuts.set(name.copy()?, copied)?;
        Ok(tokens)
    }

    /// What the map of a name says of a key, with these arguments. A macro that it changes waits.
    pub fn lookup(
        &mut self,
        maps: &Maps,
        map: &Text,
        key: &Text,
        args: &Seq<Text>,
    ) -> Result<Found, MapFault>
        ensures answer { TellsOr (told (map_answer maps.now map.now key.now args.now)) result }
        ensures after { OnOk result
            (self.new ≡ record self.old {
              after = macros_after
                  (map_answer maps.now map.now key.now args.now) key.now args.now self.old.after;
            }) }
        ensures same { OnErr result (self.new ≡ self.old) }
    {
        let reply = maps.ask(map, key, args)?;
        if reply.sets {
            self.change(key, args)?;
        }
        Ok(reply.found)
    }

    // The macro that a key names stands for the first argument, and isn't set where there is none;
    // it waits.
    fn change(&mut self, key: &Text, args: &Seq<Text>) -> Result<(), NoMemory>
        ensures ok { OnOk result
            (self.new ≡ record self.old {
              after = with_macro (macro_name key.now) args.now self.old.after;
            }) }
        ensures err { OnErr result (self.new ≡ self.old) }
    {
        let name = Text::of(self.allocator(), macro_name(key.bytes()))?;
        let value = match args.get(0) {
            Some(text) => Some(literal(self.allocator(), text.bytes())?),
            None => None,
        };
        self.waiting.push(Change { name, value })
    }

    /// The changes that wait are made.
    pub fn settle(&mut self) -> Result<(), NoMemory>
        ensures ok { OnOk result (self.new ≡ record self.old { macros = self.old.after }) }
        ensures operators { self.new.operators ≡ self.old.operators }
    {
        if self.waiting.is_empty() {
            return Ok(());
        }
        let alloc = self.allocator();
        self.cuts = Catalog::new(alloc);
        let waiting = mem::replace(&mut self.waiting, Seq::new(alloc));
        let mut macros = taken(self.given, mem::replace(&mut self.changed, None))?;
        change_all(&mut macros, waiting.items())?;
        self.changed = Some(macros);
        Ok(())
    }
}

fn current<'a>(given: &'a Macros, changed: &'a Option<Macros>) -> &'a Macros
    ensures { result.now ≡ current given.now changed.now }
{
    match changed {
        Some(macros) => macros,
        None => given,
    }
}

// The macros that were changed, or a copy of those that were given.
fn taken(given: &Macros, changed: Option<Macros>) -> Result<Macros, NoMemory>
    ensures { IfOk result (λ macros. macros ≡ current given.now changed) }
{
    match changed {
        Some(macros) => Ok(macros),
        None => given.copy(),
    }
}

fn change_all(macros: &mut Macros, changes: &[Change]) -> Result<(), NoMemory>
    ensures { OnOk result (macros.new ≡ fold with_change macros.old changes.now) }
{
    for change in changes {
        change_one(macros, change)?;
    }
    Ok(())
}

fn change_one(macros: &mut Macros, change: &Change) -> Result<(), NoMemory>
    ensures { OnOk result (macros.new ≡ with_change macros.old change.now) }
{
    match &change.value {
        Some(value) => macros.set(&change.name, value),
        None => {
            macros.unset(&change.name);
            Ok(())
        }
    }
}

// The macro's value, expanded, or no text where that is refused.
#[tactic(auto, unfolding(crate::specs::Cutting::late_text))]
fn late_text(alloc: Global, macros: &Macros, name: &Text) -> Result<Text, NoMemory>
    ensures { IfOk result (λ text. text ≡ spec.late_text macros.now name.now) }
{
    let Some(value) = macros.get(name) else {
        return Ok(Text::new(alloc));
    };
    expanded(alloc, value, macros)
}
