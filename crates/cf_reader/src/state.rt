ghost use Rattle.std.specs.Prelude.{◌≡◌, ◌∷◌, [], codes, IfOk};
ghost use Rattle.cf_reader.specs.Letters as spec;
ghost use Rattle.cf_reader.specs.Letters.{first_state, first_config};

use crate::class_line::ClassLine;
use crate::map_lines::MapLines;
use mail_base::{Catalog, Classes, Config, Group, NoMemory, Seq, Text};
use std::alloc::Global;
use std::mem;

/// What the lines so far say.
pub struct State {
    /// All of the configuration but its classes and its maps. A group has the empty path until it
    /// has one.
    pub config: Config,
    /// The K lines so far.
    pub maps: MapLines,
    /// The C and F lines so far.
    pub class_lines: Seq<ClassLine>,
    /// The names of the ruleset to which rules go.
    pub names: Seq<Text>,
    /// Whether an S or R line came.
    pub has_rules: bool,
    /// Whether a Q line of the group mqueue came.
    pub has_main: bool,
    /// Whether DaemonPortOptions was set.
    pub has_daemon: bool,
}

// Written out, since a caller's proof goes through the parts of a derived drop at each way out.
impl Drop for State {
    fn drop(self) {
        let State {
            config: _,
            maps: _,
            class_lines: _,
            names: _,
            has_rules: _,
            has_main: _,
            has_daemon: _,
        } = self;
    }
}

impl State {
    /// What is said before any line.
    pub(crate) fn new(alloc: Global) -> Result<State, NoMemory>
        ensures { IfOk result (λ state. state ≡ first_state) }
    {
        let mut config = first_config(alloc)?;
        let lines = mem::replace(&mut config.maps, Seq::new(alloc));
        let maps = MapLines::of(alloc, lines)?;
        let class_lines = first_lines(alloc)?;
        let names = first_names(alloc)?;
        Ok(State {
            config,
            maps,
            class_lines,
            names,
            has_rules: false,
            has_main: false,
            has_daemon: false,
        })
    }

    /// The configuration with these classes and groups, and with the maps so far.
    pub(crate) fn settled(self, classes: Classes, groups: Catalog<Group>) -> Config
        ensures { result ≡ record self.config {
          classes = classes;
          groups = groups;
          maps = self.maps;
        } }
    {
        let State {
            config,
            maps,
            class_lines: _,
            names: _,
            has_rules: _,
            has_main: _,
            has_daemon: _,
        } = self;
        let mut config = config;
        config.classes = classes;
        config.groups = groups;
        config.maps = maps.into_lines();
        config
    }
}

fn first_config(alloc: Global) -> Result<Config, NoMemory>
    ensures { IfOk result (λ config. config ≡ first_config) }
{
    let mut config = Config::new(alloc)?;
    let group = unplaced_group(alloc)?;
    config.groups.set(Text::of(alloc, b"mqueue")?, group)?;
    Ok(config)
}

fn unplaced_group(alloc: Global) -> Result<Group, NoMemory>
    ensures { IfOk result (λ group. group ≡ spec.unplaced_group) }
{
    let name = Text::of(alloc, b"mqueue")?;
    Ok(Group::new(name, Text::new(alloc)))
}

fn first_lines(alloc: Global) -> Result<Seq<ClassLine>, NoMemory>
    ensures { IfOk result (λ lines. lines ≡ spec.local_words ∷ []) }
{
    let mut words = Seq::new(alloc);
    words.push(Text::of(alloc, b"localhost")?)?;
    let class = Text::of(alloc, b"w")?;
    let mut lines = Seq::new(alloc);
    lines.push(ClassLine { class, words })?;
    Ok(lines)
}

fn first_names(alloc: Global) -> Result<Seq<Text>, NoMemory>
    ensures { IfOk result (λ names. names ≡ codes "0" ∷ []) }
{
    let mut names = Seq::new(alloc);
    names.push(Text::of(alloc, b"0")?)?;
    Ok(names)
}
