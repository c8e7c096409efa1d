ghost use Rattle.std.specs.Prelude.{◌≡◌, ◌≤◌, ◌+◌, [], false, None, Some, Ok, unwrap_or, OnOk, IfOk, IfErr, option_copied};
ghost use Rattle.std.specs.List.{list_any};
ghost use Rattle.mail_base.specs.Catalogs.{value_at};
ghost use Rattle.cf_macros.specs.Expansion as spec;
ghost use Rattle.cf_macros.specs.Expansion.{value, rule_value, value_in, IsRefused};
ghost use Rattle.cf_macros.specs.inner.Levels.{is_silent};
ghost use Rattle.cf_macros.specs.inner.Runs.{Reads, Fails, comes_to};

use crate::ExpandFault;
use crate::level::{Given, Level};
use crate::run::Run;
use crate::scope::Scope;
use mail_base::{Macros, NoMemory, Text};
use std::alloc::Global;

/// The most levels of references.
const MOST_LEVELS: usize = 10;

/// The most references that an expansion follows.
const MOST_REFERENCES: usize = 10_000;

fn any_tests(below: &[Level<'_>]) -> bool
    ensures { result ≡ list_any (λ level. level.tests) below.now }
{
    below.iter().any(|level| level.tests)
}

fn is_silent(below: &[Level<'_>]) -> bool
    ensures { result ≡ is_silent below.now }
{
    any_tests(below)
}

impl<'a> Run<'a> {
    fn next(&mut self) -> Result<Option<&'a [u8]>, ExpandFault>
        requires { self.old.level.tests ≡ false }
        ensures reads { IfOk result (λ name. Reads self.old self.new (option_copied name)) }
        ensures followed { self.new.followed ≡ self.old.followed }
        ensures err { IfErr result (λ fault. Fails fault self.old) }
    {
        'levels: loop {
            self.given.silent = is_silent(&self.below);
            let (level, name) = self.level.read(&mut self.given)?;
            self.level = level;
            if name.is_some() {
                return Ok(name);
            }
            let Some(outer) = self.below.pop() else {
                return Ok(None);
            };
            self.level = outer.resume(level.gave);
        }
    }

    fn follow(&mut self, macros: &'a Macros, name: &[u8]) -> Result<(), ExpandFault>
        ensures same { OnOk result (comes_to macros.now self.new None
            ≡ comes_to macros.now self.old (Some name.now)) }
        ensures reads { OnOk result (self.new.level.tests ≡ false) }
        ensures counts { OnOk result (self.new.followed ≡ self.old.followed + 1) }
        ensures few { OnOk result (self.new.followed ≤ 10_000) }
        ensures err { IfErr result (λ fault. IsRefused fault (comes_to macros.now self.old
            (Some name.now))) }
    {
        if self.below.len() >= MOST_LEVELS {
            return Err(ExpandFault::Deep);
        }
        if self.followed >= MOST_REFERENCES {
            return Err(ExpandFault::Large);
        }
        let name = Text::of(self.given.text.allocator(), name)?;
        self.below.push(self.level)?;
        self.level = Level::new(self.level.scope, value_of(macros, &name));
        self.followed += 1;
        Ok(())
    }
}

// The value of a macro, which is empty where it isn't set.
fn value_of<'a>(macros: &'a Macros, name: &Text) -> &'a [u8]
    ensures { result.now ≡ unwrap_or (value_at name.now macros.now) [] }
{
    match macros.get(name) {
        Some(value) => value.bytes(),
        None => &[],
    }
}

fn expand_in(alloc: Global, scope: Scope, text: &Text, macros: &Macros) -> Result<Text, ExpandFault>
    ensures value { IfOk result (λ given. value_in scope text.now macros.now ≡ Ok given) }
    ensures refused { IfErr result (λ fault. IsRefused fault (value_in scope text.now macros.now)) }
{
    let mut run = Run {
        below: Vec::new(alloc),
        level: Level::new(scope, text.bytes()),
        given: Given {
            text: Text::new(alloc),
            silent: false,
        },
        followed: 0,
    };
    'references: while let Some(name) = run.next()? {
        run.follow(macros, name)?;
    }
    Ok(run.given.text)
}

/// The text with the values of its macros in their places, and of each conditional the part that is
/// to be given. It follows at most ten levels and 10,000 references, those of tests among them, and
/// gives at most 1,048,576 bytes. What comes first as the text is read is the refusal (Sendmail
/// Installation and Operation Guide, macros and conditionals).
pub fn expand(alloc: Global, text: &Text, macros: &Macros) -> Result<Text, ExpandFault>
    ensures value { IfOk result (λ given. value text.now macros.now ≡ Ok given) }
    ensures refused { IfErr result (λ fault. IsRefused fault (value text.now macros.now)) }
{
    expand_in(alloc, Scope::Outside, text, macros)
}

/// The same of a text that counts as empty where its expansion is refused.
pub fn expanded(alloc: Global, text: &Text, macros: &Macros) -> Result<Text, NoMemory>
    ensures { IfOk result (λ given. given ≡ spec.expanded text.now macros.now) }
{
    match expand(alloc, text, macros) {
        Ok(given) => Ok(given),
        Err(ExpandFault::NoMemory) => Err(NoMemory),
        Err(ExpandFault::Unclosed(_)) => Ok(Text::new(alloc)),
        Err(ExpandFault::Deep) => Ok(Text::new(alloc)),
        Err(ExpandFault::Large) => Ok(Text::new(alloc)),
    }
}

/// The name of this host: the value of `$j`, which is empty where its expansion is refused.
pub fn host_name(alloc: Global, macros: &Macros) -> Result<Text, NoMemory>
    ensures { IfOk result (λ name. name ≡ spec.host_name macros.now) }
{
    let written = Text::of(alloc, b"$j")?;
    expanded(alloc, &written, macros)
}

/// A side of a rule, expanded as by [`expand`], but that `$$`, `$&x` and `$&{x}` stay as they are
/// written, in the side and in the values of its macros: they are for whoever cuts the side into
/// tokens and runs the rule (Sendmail Installation and Operation Guide, macros and "R: Rewriting
/// Rules").
pub fn expand_rule(alloc: Global, text: &Text, macros: &Macros) -> Result<Text, ExpandFault>
    ensures value { IfOk result (λ given. rule_value text.now macros.now ≡ Ok given) }
    ensures refused { IfErr result (λ fault. IsRefused fault (rule_value text.now macros.now)) }
{
    expand_in(alloc, Scope::Rule, text, macros)
}
