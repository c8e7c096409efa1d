ghost use Rattle.std.specs.Prelude.{◌≡◌, bytes_eq, IfOk, OnOk, slice_get};
ghost use Rattle.std.specs.List.{list_any};
ghost use Rattle.queue_table.specs.Calls.{AreDirs};
ghost use Rattle.queue_table.specs.Directories.{all_dirs, with_dir};
ghost use Rattle.queue_table.specs.inner.Directing.{with_group_at};

use crate::Terms;
use mail_base::{Catalog, Group, NoMemory, Seq, Text, TryCopy};

impl Terms {
    /// The directories of all groups, each once: that of `mqueue`, and then those of the others in
    /// the order of their Q lines.
    pub fn dirs(&self) -> Result<Seq<Text>, NoMemory>
        ensures is { IfOk result (λ dirs. dirs ≡ all_dirs self.now) }
        ensures each { IfOk result (AreDirs self.now) }
    {
        let mut dirs = Seq::new(self.groups.allocator());
        dirs.push(self.main_dir()?)?;
        for index in 0..self.groups.len() {
            add_group(&mut dirs, &self.groups, index)?;
        }
        Ok(dirs)
    }
}

fn add_group(dirs: &mut Seq<Text>, groups: &Catalog<Group>, index: usize) -> Result<(), NoMemory>
    ensures { OnOk result (dirs.new ≡ with_group_at dirs.old (slice_get groups.now index)) }
{
    match groups.at(index) {
        Some((_, group)) => add(dirs, &group.path),
        None => Ok(()),
    }
}

// Adds a directory, unless it is among them.
fn add(dirs: &mut Seq<Text>, dir: &Text) -> Result<(), NoMemory>
    ensures { OnOk result (dirs.new ≡ with_dir dirs.old dir.now) }
{
    if is_among(dirs, dir) {
        return Ok(());
    }
    dirs.push(dir.copy()?)
}

fn is_among(dirs: &Seq<Text>, dir: &Text) -> bool
    ensures { result ≡ list_any (bytes_eq dir.now) dirs.now }
{
    dirs.items()
        .iter()
        .any(|known| dir.bytes() == known.bytes())
}
