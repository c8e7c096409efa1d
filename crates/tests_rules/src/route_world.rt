// The configuration in which addresses are routed, but for its rulesets.
use crate::route_rules::{Line, rules_of};
use crate::sets::set_of;
use crate::world::World;
use mail_base::{Config, Mailer, NoMemory, Seq, Text};
use map_tables::Maps;
use std::alloc::Global;
use std::test::Fail;

// A mailer's name, path, flags, and the sets of its fields S and R.
type Fields = (
    &'static str,
    &'static str,
    &'static str,
    &'static str,
    &'static str,
);

static MAILERS: [Fields; 7] = [
    ("local", "/bin/mail", "lsDFMAw5n", "", ""),
    ("prog", "/bin/sh", "lsDFMn", "", ""),
    ("smtp", "[IPC]", "mDFMuX", "out", "in"),
    ("Keep", "[IPC]", "muh5", "", ""),
    ("Strip", "[IPC]", "s", "", ""),
    ("files", "[file]", "lsu", "", ""),
    ("lost", "[IPC]", "u", "nowhere", "nowhere"),
];

/// The rulesets of the cases.
static NAMES: [&str; 10] = [
    "0",
    "1",
    "2",
    "3",
    "4",
    "5",
    "in",
    "out",
    "empty",
    "check_mail",
];

fn named(alloc: Global, name: &str) -> Result<Option<Text>, NoMemory> {
    if name.is_empty() {
        return Ok(None);
    }
    Ok(Some(Text::of(alloc, name.as_bytes())?))
}

fn mailer_of(alloc: Global, line: &Fields) -> Result<Mailer, NoMemory> {
    let name = Text::of(alloc, line.0.as_bytes())?;
    let path = Text::of(alloc, line.1.as_bytes())?;
    let flags = Text::of(alloc, line.2.as_bytes())?;
    let envelope_from = named(alloc, line.3)?;
    let envelope_to = named(alloc, line.4)?;
    Ok(Mailer {
        name,
        path,
        flags,
        envelope_from,
        envelope_to,
        header_from: None,
        header_to: None,
        args: Seq::new(alloc),
        line_end: Text::new(alloc),
        most: 0,
        group: None,
        batch: 100,
    })
}

fn add_mailers(alloc: Global, config: &mut Config) -> Result<(), NoMemory> {
    for line in &MAILERS {
        let mailer = mailer_of(alloc, line)?;
        let key = mailer.name.folded()?;
        config.mailers.set(key, mailer)?;
    }
    Ok(())
}

// Each ruleset with rules in the case, and those without rules that a mailer or a test names.
fn add_sets(alloc: Global, config: &mut Config, lines: &[Line], case: usize) -> Result<(), Fail> {
    for name in &NAMES {
        let rules = rules_of(alloc, lines, case, name)?;
        if !rules.is_empty() || matches!(*name, "in" | "out" | "empty") {
            config.book.push(set_of(name, &rules)?)?;
        }
    }
    Ok(())
}

fn config_of(alloc: Global, lines: &[Line], case: usize) -> Result<Config, Fail> {
    let mut config = Config::new(alloc)?;
    config.options.operator_chars = Text::of(alloc, b".:%@!^/[]+")?;
    add_mailers(alloc, &mut config)?;
    add_sets(alloc, &mut config, lines, case)?;
    Ok(config)
}

/// The configuration of a case.
pub(crate) fn world_of(alloc: Global, lines: &[Line], case: usize) -> Result<World, Fail> {
    let config = config_of(alloc, lines, case)?;
    let maps = Maps::load(alloc, &config, &Seq::new(alloc), &Text::new(alloc))?;
    Ok(World { config, maps })
}
