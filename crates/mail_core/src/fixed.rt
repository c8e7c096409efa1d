ghost use Rattle.std.specs.Prelude.{◌≡◌, ◌++◌, ◌∷◌, [], List, IfOk, OnOk, filter, map, bytes_eq, codes};
ghost use Rattle.std.specs.List.{AllPairs};
ghost use Rattle.std.specs.List.Sorted.{IsPermutation};
ghost use Rattle.std.specs.Option.{option_copied};
ghost use Rattle.mail_base.specs.Catalogs.{with_value};
ghost use Rattle.spool_store.specs.Entries.{Table as Entries};
ghost use Rattle.spool_store.specs.declared.held.Held.{Held as HeldSeen};
ghost use Rattle.queue_table.specs.Calls.{HoldsTable};
ghost use Rattle.mail_core.specs.Listed.{IsFixed, is_of};
ghost use Rattle.mail_core.specs.Plans.{Once};
ghost use Rattle.mail_core.specs.Sites.{Site};
ghost use Rattle.mail_core.specs.inner.Fixing as spec;
ghost use Rattle.mail_core.specs.inner.Fixing.{GoesOn, counts_after, lane_in};

use mail_base::{Catalog, Config, Group, Id, NoMemory, Seq, Text, TryCopy};
use queue_table::{Table, due, entries_are_ordered};
use spool_store::Held;
use std::alloc::Global;

/// The list of a run over the queue, which is fixed at a moment: the entries that are due then by
/// the least age alone, and of the group that is run, if one is said; those that go first first;
/// of each lane no more than its jobs.
pub(crate) fn fixed_list(
    alloc: Global,
    table: &Table,
    config: &Config,
    group: Option<&Text>,
    moment: u64,
) -> Result<Seq<Id>, NoMemory>
    ensures { (site : Site) (entries : Entries) → site.config ≡ config.now
        → site.plan ≡ Once (option_copied group.entry) → HoldsTable table.now entries
        → IfOk result (IsFixed site (option_copied group.entry) moment entries) }
{
    // A law: of two entries one goes first.
    entries_are_ordered();
    let due = in_order(alloc, table.entries(), config, group, moment)?;
    picked(alloc, due.as_slice(), &config.groups)
}

// The entries that are wanted, in the order of their priorities and ids.
fn in_order<'a>(
    alloc: Global,
    entries: &'a [Held],
    config: &Config,
    group: Option<&Text>,
    moment: u64,
) -> Result<Vec<&'a Held>, NoMemory>
    ensures same { IfOk result
        (λ shown. IsPermutation
        (filter (spec.is_wanted config.now (option_copied group.entry) moment) entries.now)
        (map (λ h. h.now) shown.items)) }
    ensures order { IfOk result (λ shown. AllPairs GoesOn (map (λ h. h.now) shown.items)) }
{
    let mut shown = wanted(alloc, entries, config, group, moment)?;
    shown.sort_by_key(|held| (held.entry.control.priority, held.entry.id.number()))?;
    Ok(shown)
}

// The entries that are wanted.
fn wanted<'a>(
    alloc: Global,
    entries: &'a [Held],
    config: &Config,
    group: Option<&Text>,
    moment: u64,
) -> Result<Vec<&'a Held>, NoMemory>
    ensures { IfOk result
        (λ shown. map (λ h. h.now) shown.items
        ≡ filter (spec.is_wanted config.now (option_copied group.entry) moment) entries.now) }
{
    let mut shown = Vec::new(alloc);
    for held in entries {
        if is_wanted(held, config, group, moment) {
            shown.push(held)?;
        }
    }
    Ok(shown)
}

fn is_wanted(held: &Held, config: &Config, group: Option<&Text>, moment: u64) -> bool
    ensures { result ≡ spec.is_wanted config.now (option_copied group.entry) moment held.now }
{
    let control = &held.entry.control;
    is_of(&config.groups, group, &control.group)
        && due(control, moment, config.options.min_queue_age)
}

// Whether entries of a group count in the lane that is run, if one is said.
fn is_of(groups: &Catalog<Group>, lane: Option<&Text>, group: &Text) -> bool
    ensures { result ≡ is_of (option_copied lane.entry) (lane_in groups.now group.now) }
{
    match lane {
        None => true,
        Some(lane) => is_in(groups, lane, group),
    }
}

fn is_in(groups: &Catalog<Group>, lane: &Text, group: &Text) -> bool
    ensures { result ≡ bytes_eq lane.now (lane_in groups.now group.now) }
{
    match groups.get(group) {
        Some(_) => lane.bytes() == group.bytes(),
        None => lane.bytes() == b"mqueue".as_slice(),
    }
}

// Of entries in their order those whose lane has a place behind the ones before it.
fn picked(alloc: Global, due: &[&Held], groups: &Catalog<Group>) -> Result<Seq<Id>, NoMemory>
    ensures { IfOk result
        (λ list. list ≡ spec.picked groups.now [] (map (λ h. h.now) due.now)) }
{
    let main = Text::of(alloc, b"mqueue")?;
    let mut counts = Catalog::new(alloc);
    let mut list = Seq::new(alloc);
    for held in due {
        pick(&mut list, &mut counts, groups, &main, held)?;
    }
    Ok(list)
}

// Puts an entry behind those that are on the list, if its lane has a place still.
fn pick(
    list: &mut Seq<Id>,
    counts: &mut Catalog<u64>,
    groups: &Catalog<Group>,
    main: &Text,
    held: &Held,
) -> Result<(), NoMemory>
    requires { main.now ≡ codes "mqueue" }
    ensures { OnOk result
        ((later : List HeldSeen) → list.new ++ spec.picked groups.now counts.new later
        ≡ list.old ++ spec.picked groups.now counts.old (held.now ∷ later)) }
{
    if takes_place(counts, groups, main, &held.entry.control.group)? {
        list.push(held.entry.id)?;
    }
    Ok(())
}

// Takes a place in the lane of a group, and says whether there was one.
fn takes_place(
    counts: &mut Catalog<u64>,
    groups: &Catalog<Group>,
    main: &Text,
    group: &Text,
) -> Result<bool, NoMemory>
    requires { main.now ≡ codes "mqueue" }
    ensures place { IfOk result
        (λ there. there ≡ spec.place_in groups.now group.now counts.old) }
    ensures counts { OnOk result (counts.new ≡ spec.counts_in groups.now group.now counts.old) }
{
    match groups.get(group) {
        Some(own) => takes(counts, group, own.jobs),
        None => takes(counts, main, jobs_in(groups, main)),
    }
}

// The most entries of a lane that are on the list; 0 is no limit.
fn jobs_in(groups: &Catalog<Group>, lane: &Text) -> u64
    ensures { result ≡ spec.jobs_in groups.now lane.now }
{
    match groups.get(lane) {
        Some(group) => group.jobs,
        None => 0,
    }
}

// Takes a place in a lane of so many jobs, and says whether there was one.
fn takes(counts: &mut Catalog<u64>, lane: &Text, jobs: u64) -> Result<bool, NoMemory>
    ensures place { IfOk result (λ there. there ≡ spec.has_place jobs lane.now counts.old) }
    ensures counts { OnOk result (counts.new ≡ counts_after jobs lane.now counts.old) }
{
    if jobs == 0 {
        return Ok(true);
    }
    let count = count_at(counts, lane);
    if count >= jobs {
        return Ok(false);
    }
    put(counts, lane, count + 1)?;
    Ok(true)
}

fn count_at(counts: &Catalog<u64>, lane: &Text) -> u64
    ensures { result ≡ spec.count_at lane.now counts.now }
{
    match counts.get(lane) {
        Some(count) => *count,
        None => 0,
    }
}

fn put(counts: &mut Catalog<u64>, lane: &Text, count: u64) -> Result<(), NoMemory>
    ensures { OnOk result (counts.new ≡ with_value lane.now count counts.old) }
{
    if let Some(place) = counts.get_mut(lane) {
        *place = count;
        return Ok(());
    }
    counts.set(lane.copy()?, count)
}
