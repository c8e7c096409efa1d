ghost use Rattle.std.specs.Prelude.{◌≡◌, ◌⊎◌, ◌≤◌, ◌++◌, All, Contains, IfOk, IfSome, IsErrOf, OnOk, Some, Err, false, true, filter, length, map};
ghost use Rattle.std.specs.List.{AllPairs, flat_map};
ghost use Rattle.std.specs.List.Sorted.{IsPermutation};
ghost use Rattle.std.specs.Option.{option_copied};
ghost use Rattle.mail_base.specs.Histories.{Rose};
ghost use Rattle.mail_base.specs.declared.fault.StoreFault.TheVariants.{IdsSpent as Spent, SpoolFault as Broke};
ghost use Rattle.spool_disk.specs.Disk.{FileMap};
ghost use Rattle.spool_disk.specs.Listings.{AreSameNames, IsAscending};
ghost use Rattle.spool_disk.specs.Spooled.{Reads};
ghost use Rattle.spool_store.specs.Entries.{Table as Entries};
ghost use Rattle.spool_store.specs.Keepers.{seen as queue_seen};
ghost use Rattle.spool_store.specs.Settled.{StandsFor};
ghost use Rattle.spool_store.specs.inner.Looks.{Looks};
ghost use Rattle.queue_table.specs.Calls.{HoldsTable, store};
ghost use Rattle.sendmail_run.specs.Listings.{IsListing, head_line, note_text, path_of, row_line, strange_line, total_line};
ghost use Rattle.sendmail_run.specs.Listings as spec;
ghost use Rattle.sendmail_run.specs.inner.Listing.{GoesOn, body_by, held_lines, is_open, lines_of};

use mail_base::{Entry, NoMemory, Note, Row, Seq, State, StoreFault, Stray, Text};
use queue_table::Table;
use spool_disk::{Spool, sorted_names};
use spool_store::{Held, Queue};
use std::alloc::Global;

/// What is printed of the queue: the entries with a row that isn't done, those that are tried first
/// first; the files that are left alone; and the number of the entries. The sizes are those of the
/// bodies, which are read one after another.
///
/// It changes nothing. `IdsSpent` never comes.
pub fn listing<D: Spool>(alloc: Global, table: &Table, spool: &mut D) -> Result<Text, StoreFault>
    ensures is { (files : FileMap) (entries : Entries) → (D.seen spool.old).told ≡ Some files
        → StandsFor (store table.now).dirs entries files → HoldsTable table.now entries
        → IfOk result (IsListing entries.entries (store table.now).strange) }
    ensures untouched { Reads (D.seen spool.old) (D.seen spool.new) }
    ensures broken { (store table.now).broken ≡ true
        → (result ≡ Err Broke) × (spool.new ≡ spool.old) }
    ensures never { IsErrOf result Spent → ⊥ }
    ensures later { (D.seen spool.old).faults ≤ (D.seen spool.new).faults }
    ensures cause { IsErrOf result Broke
        → ((store table.now).broken ≡ true)
        ⊎ Rose (D.seen spool.old).faults (D.seen spool.new).faults }
    ensures calm { IsErrOf result Broke ⊎ ((D.seen spool.new).faults ≡ (D.seen spool.old).faults) }
{
    if table.is_broken() {
        return Err(StoreFault::SpoolFault);
    }
    let shown = in_order(alloc, table.entries())?;
    let paths = sorted_paths(alloc, table.queue().strange())?;
    let mut text = Text::new(alloc);
    push_entries(table.queue(), shown.as_slice(), spool, &mut text)?;
    push_paths(&mut text, paths.items())?;
    push_total(&mut text, shown.len())?;
    Ok(text)
}

// The entries with a row that isn't done, in the order of their priorities and ids.
fn in_order(alloc: Global, entries: &[Held]) -> Result<Vec<&Held>, NoMemory>
    ensures same { IfOk result
        (λ shown. IsPermutation (filter is_open entries.now) (map (λ h. h.now) shown.items)) }
    ensures order { IfOk result (λ shown. AllPairs GoesOn (map (λ h. h.now) shown.items)) }
{
    let mut shown = unfinished(alloc, entries)?;
    shown.sort_by_key(|held| (held.entry.control.priority, held.entry.id.number()))?;
    Ok(shown)
}

// The entries with a row that isn't done.
fn unfinished(alloc: Global, entries: &[Held]) -> Result<Vec<&Held>, NoMemory>
    ensures { IfOk result
        (λ shown. map (λ h. h.now) shown.items ≡ filter is_open entries.now) }
{
    let mut shown = Vec::new(alloc);
    for held in entries {
        if !held.entry.control.is_finished() {
            shown.push(held)?;
        }
    }
    Ok(shown)
}

// Adds the lines of entries.
fn push_entries<D: Spool>(
    queue: &Queue,
    shown: &[&Held],
    spool: &mut D,
    text: &mut Text,
) -> Result<(), StoreFault>
    requires whole { (queue_seen queue.now).broken ≡ false }
    requires among { All (λ h. Contains (queue_seen queue.now).entries h.now) shown.now }
    ensures lines { (files : FileMap) → (D.seen spool.old).told ≡ Some files
        → OnOk result
        (text.new ≡ text.old ++ flat_map (held_lines files) (map (λ h. h.now) shown.now)) }
    ensures looks { Looks (D.seen spool.old) (D.seen spool.new) result }
{
    for held in shown {
        push_entry(queue, held, spool, text)?;
    }
    Ok(())
}

// Adds the lines of an entry.
fn push_entry<D: Spool>(
    queue: &Queue,
    held: &Held,
    spool: &mut D,
    text: &mut Text,
) -> Result<(), StoreFault>
    requires whole { (queue_seen queue.now).broken ≡ false }
    requires among { Contains (queue_seen queue.now).entries held.now }
    ensures lines { IfSome (D.seen spool.old).told
        (λ files. OnOk result (text.new ≡ text.old ++ held_lines files held.now)) }
    ensures looks { Looks (D.seen spool.old) (D.seen spool.new) result }
{
    let size = size_of(queue, held, spool)?;
    push_lines(text, &held.entry, size)?;
    Ok(())
}

// How many bytes the body of an entry has.
fn size_of<D: Spool>(queue: &Queue, held: &Held, spool: &mut D) -> Result<usize, StoreFault>
    requires whole { (queue_seen queue.now).broken ≡ false }
    requires among { Contains (queue_seen queue.now).entries held.now }
    ensures size { IfSome (D.seen spool.old).told
        (λ files. IfOk result (λ size. size ≡ length (body_by files held.now))) }
    ensures looks { Looks (D.seen spool.old) (D.seen spool.new) result }
{
    let body = queue.body(spool, &held.entry.id)?;
    Ok(body.len())
}

// Adds the lines of an entry with a body of so many bytes.
fn push_lines(text: &mut Text, entry: &Entry, size: usize) -> Result<(), NoMemory>
    ensures { OnOk result
        (text.new ≡ text.old ++ lines_of entry.now.id entry.now.control size) }
{
    push_head(text, entry, size)?;
    for row in entry.control.rows.items() {
        push_row(text, row)?;
    }
    Ok(())
}

#[tactic(auto, unfolding(crate::specs::Listings::head_line))]
fn push_head(text: &mut Text, entry: &Entry, size: usize) -> Result<(), NoMemory>
    ensures { OnOk result (text.new ≡ text.old ++ head_line entry.now.id entry.now.control size) }
{
    let id = entry.id.text(text.allocator())?;
    text.extend(id.bytes())?;
    text.push(b' ')?;
    text.extend(entry.control.group.bytes())?;
    let numbers = format!(in text.allocator(); " {size} {} ", entry.control.priority)?;
    text.extend(numbers.as_bytes())?;
    text.extend(entry.control.sender.bytes())?;
    text.push(b'\n')
}

#[tactic(auto, unfolding(crate::specs::Listings::row_line))]
fn push_row(text: &mut Text, row: &Row) -> Result<(), NoMemory>
    ensures { OnOk result (text.new ≡ text.old ++ row_line row.now) }
{
    text.extend(b"  ")?;
    text.extend(letter_of(&row.state))?;
    text.push(b' ')?;
    text.extend(row.address.bytes())?;
    push_note(text, note_of(&row.state))?;
    text.push(b'\n')
}

// What has become of a row, by a letter.
fn letter_of(state: &State) -> &'static [u8]
    ensures { result.now ≡ spec.letter_of state.now }
{
    match state {
        State::Queued(_) => b"Q",
        State::Sent => b"S",
        State::Failed(_, _) => b"F",
        State::Returned(_) => b"R",
        State::Dead(_, _) => b"D",
    }
}

// What is noted of its last attempt.
fn note_of(state: &State) -> Option<&Note>
    ensures { option_copied result ≡ spec.note_of state.now }
{
    match state {
        State::Queued(note) => note.as_ref(),
        State::Failed(_, note) | State::Dead(_, note) => Some(note),
        State::Sent | State::Returned(_) => None,
    }
}

fn push_note(text: &mut Text, note: Option<&Note>) -> Result<(), NoMemory>
    ensures { OnOk result (text.new ≡ text.old ++ note_text (option_copied note.entry)) }
{
    let Some(note) = note else {
        return Ok(());
    };
    text.extend(b" (")?;
    text.extend(note.bytes())?;
    text.push(b')')
}

// The paths of the files that are left alone, in their order, each once.
fn sorted_paths(alloc: Global, strays: &[Stray]) -> Result<Seq<Text>, NoMemory>
    ensures ascending { IfOk result IsAscending }
    ensures same { IfOk result (AreSameNames (map path_of strays.now)) }
{
    sorted_names(paths_of(alloc, strays)?)
}

fn paths_of(alloc: Global, strays: &[Stray]) -> Result<Vec<Text>, NoMemory>
    ensures { IfOk result (λ paths. paths.items ≡ map path_of strays.now) }
{
    let mut paths = Vec::new(alloc);
    for stray in strays {
        paths.push(path_of(alloc, stray)?)?;
    }
    Ok(paths)
}

fn path_of(alloc: Global, stray: &Stray) -> Result<Text, NoMemory>
    ensures { IfOk result (λ path. path ≡ spec.path_of stray.now) }
{
    let mut path = Text::of(alloc, stray.dir.bytes())?;
    path.push(b'/')?;
    path.extend(stray.name.bytes())?;
    Ok(path)
}

fn push_paths(text: &mut Text, paths: &[Text]) -> Result<(), NoMemory>
    ensures { OnOk result (text.new ≡ text.old ++ flat_map strange_line paths.now) }
{
    for path in paths {
        push_path(text, path)?;
    }
    Ok(())
}

#[tactic(auto, unfolding(crate::specs::Listings::strange_line))]
fn push_path(text: &mut Text, path: &Text) -> Result<(), NoMemory>
    ensures { OnOk result (text.new ≡ text.old ++ strange_line path.now) }
{
    text.extend(b"strange: ")?;
    text.extend(path.bytes())?;
    text.push(b'\n')
}

#[tactic(auto, unfolding(crate::specs::Listings::total_line))]
fn push_total(text: &mut Text, count: usize) -> Result<(), NoMemory>
    ensures { OnOk result (text.new ≡ text.old ++ total_line count) }
{
    let line = format!(in text.allocator(); "Total requests: {count}\n")?;
    text.extend(line.as_bytes())
}
