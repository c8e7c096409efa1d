ghost use Rattle.std.specs.Prelude.{◌≡◌, slice_get, IfOk, OnOk};
ghost use Rattle.cf_reader.specs.Configuration as spec;
ghost use Rattle.cf_reader.specs.inner.Steps.{with_group_at};

use crate::class_line::ClassLine;
use crate::state::State;
use addr_tokens::members;
use mail_base::{Catalog, Classes, Config, Group, NoMemory, Text, TryCopy};
use std::alloc::Global;

impl State {
    /// The configuration behind the last line: the words of classes are cut under the operators as
    /// they are now, and a group without a path has the queue directory as it is now.
    pub(crate) fn finish(self, alloc: Global) -> Result<Config, NoMemory>
        ensures { IfOk result (λ config. config ≡ spec.finished self) }
    {
        let options = &self.config.options;
        let classes = classes_of(alloc, &options.operator_chars, self.class_lines.items())?;
        let groups = placed_groups(alloc, &options.queue_directory, &self.config.groups)?;
        Ok(self.settled(classes, groups))
    }
}

// The classes with the words of these lines.
fn classes_of(alloc: Global, operators: &Text, lines: &[ClassLine]) -> Result<Classes, NoMemory>
    ensures { IfOk result (λ classes. classes ≡ spec.classes_of operators.now lines.now) }
{
    let mut classes = Classes::new(alloc);
    for line in lines {
        let members = members(alloc, operators, line.words.items())?;
        classes.extend(&line.class, members)?;
    }
    Ok(classes)
}

// The groups, each with a path.
fn placed_groups(
    alloc: Global,
    directory: &Text,
    groups: &Catalog<Group>,
) -> Result<Catalog<Group>, NoMemory>
    ensures { IfOk result (λ placed. placed ≡ spec.placed_groups directory.now groups.now) }
{
    let mut placed = Catalog::new(alloc);
    for index in 0..groups.len() {
        place_at(directory, groups, index, &mut placed)?;
    }
    Ok(placed)
}

fn place_at(
    directory: &Text,
    groups: &Catalog<Group>,
    index: usize,
    placed: &mut Catalog<Group>,
) -> Result<(), NoMemory>
    ensures { OnOk result
        (placed.new ≡ with_group_at directory.now placed.old (slice_get groups.now index)) }
{
    match groups.at(index) {
        Some((name, group)) => place_group(directory, name, group, placed),
        None => Ok(()),
    }
}

fn place_group(
    directory: &Text,
    name: &Text,
    group: &Group,
    placed: &mut Catalog<Group>,
) -> Result<(), NoMemory>
    ensures { OnOk result
        (placed.new ≡ spec.with_group directory.now placed.old (name.now, group.now)) }
{
    let name = name.copy()?;
    let group = placed_group(directory, group)?;
    placed.set(name, group)
}

fn placed_group(directory: &Text, group: &Group) -> Result<Group, NoMemory>
    ensures { IfOk result (λ placed. placed ≡ spec.placed directory.now group.now) }
{
    let mut placed = group.copy()?;
    if group.path.is_empty() {
        placed.path = directory.copy()?;
    }
    Ok(placed)
}
