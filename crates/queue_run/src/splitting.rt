ghost use Rattle.std.specs.Prelude.{◌≡◌, ◌<◌, ◌++◌, ◌∷◌, [], IfOk, OnOk, Some, length, nat_lt, reverse, get_or, set};
ghost use Rattle.std.specs.Option.{option_copied};
ghost use Rattle.addr_route.specs.Aims.{has_flag};
ghost use Rattle.queue_run.specs.declared.batch.Batch.{Batch as TheBatch};
ghost use Rattle.queue_run.specs.Batches.{added, batches_of, begun, course_of, joined, most_at, most_by, user_of};
ghost use Rattle.queue_run.specs.inner.Courses.{IsIndexed, IsOpenAt, IsPlaceFor, begun_index};

use crate::course::Course;
use crate::{Batch, Routed};
use indexmap::IndexMap;
use mail_base::{Config, Mailer, NoMemory, Resolved, Seq, Text, TryCopy};
use std::alloc::Global;

// The batches so far, and the place of the last one that goes each way.
#[derive(Drop)]
struct Splitting {
    batches: Vec<Batch>,
    last: IndexMap<Course, usize>,
}

/// The batches of rows, the last one first. Rows that go the same way are found by an index, so
/// that the time grows as the number of rows.
pub(crate) fn batches(
    alloc: Global,
    config: &Config,
    rows: Seq<Routed>,
) -> Result<Vec<Batch>, NoMemory>
    ensures { IfOk result (λ batches. reverse batches.items ≡ batches_of config.now rows) }
{
    let mut batches = batches_in(alloc, config, rows.into_vec())?;
    batches.reverse();
    Ok(batches)
}

#[tactic(auto, using(crate::proofs::SplitLemmas::none_indexed))]
fn batches_in(alloc: Global, config: &Config, rows: Vec<Routed>) -> Result<Vec<Batch>, NoMemory>
    ensures { IfOk result (λ batches. batches.items ≡ batches_of config.now rows.items) }
{
    let mut splitting = Splitting {
        batches: Vec::new(alloc),
        last: IndexMap::new(alloc),
    };
    for row in rows {
        splitting.join(alloc, config, row)?;
    }
    Ok(splitting.batches)
}

impl Splitting {
    // Puts a row into the first batch that takes it, or begins one.
    fn join(&mut self, alloc: Global, config: &Config, row: Routed) -> Result<(), NoMemory>
        requires indexed { IsIndexed config.now self.old.batches.items self.old.last.entries }
        ensures is { OnOk result
            (self.new.batches.items ≡ joined config.now row self.old.batches.items) }
        ensures indexed { OnOk result
            (IsIndexed config.now self.new.batches.items self.new.last.entries) }
    {
        let place = self.place_for(config, &row)?;
        match place {
            Some(at) => add(alloc, &mut self.batches, at, &row),
            None => self.begin(alloc, row),
        }
    }

    // Where the first batch is that takes a row.
    fn place_for(&self, config: &Config, row: &Routed) -> Result<Option<usize>, NoMemory>
        requires indexed { IsIndexed config.now self.now.batches.items self.now.last.entries }
        ensures { IfOk result
            (IsPlaceFor config.now (course_of row.now.resolved) self.now.batches.items) }
    {
        let course = Course::of(&row.resolved)?;
        match course {
            Some(way) => Ok(self.place_of(config, &way)),
            None => Ok(None),
        }
    }

    // Where the batch of a mailer and a host is that has room.
    fn place_of(&self, config: &Config, way: &Course) -> Option<usize>
        requires indexed { IsIndexed config.now self.now.batches.items self.now.last.entries }
        ensures { IsPlaceFor config.now (Some way.now) self.now.batches.items result }
    {
        match self.last.get(way) {
            Some(at) => self.place_at(config, way, *at),
            None => None,
        }
    }

    // That place, if there is room.
    fn place_at(&self, config: &Config, way: &Course, place: usize) -> Option<usize>
        requires open_at { IsOpenAt config.now way.now self.now.batches.items place }
        ensures { IsPlaceFor config.now (Some way.now) self.now.batches.items result }
    {
        let most = most_at(config, way);
        if self.has_room(place, most) {
            return Some(place);
        }
        None
    }

    // Whether a batch has fewer rows than that.
    fn has_room(&self, place: usize, most: u64) -> bool
        requires { place < length self.now.batches.items }
        ensures { (d : TheBatch)
            → result ≡ nat_lt (length (get_or self.now.batches.items place d).places) most }
    {
        (self.batches[place].places.len() as u64) < most
    }

    // Begins a batch behind all others.
    fn begin(&mut self, alloc: Global, row: Routed) -> Result<(), NoMemory>
        ensures is { OnOk result
            (self.new.batches.items ≡ self.old.batches.items ++ begun row ∷ []) }
        ensures last { OnOk result
            (self.new.last.entries
            ≡ begun_index (course_of row.resolved) (length self.old.batches.items)
            self.old.last.entries) }
    {
        note(&mut self.last, &row.resolved, self.batches.len())?;
        let batch = begun(alloc, row)?;
        self.batches.push(batch)?;
        Ok(())
    }
}

// Notes where the last batch is that goes there.
fn note(
    last: &mut IndexMap<Course, usize>,
    resolved: &Resolved,
    place: usize,
) -> Result<(), NoMemory>
    ensures { OnOk result
        (last.new.entries ≡ begun_index (course_of resolved.now) place last.old.entries) }
{
    if let Some(course) = Course::of(resolved)? {
        last.insert(course, place)?;
    }
    Ok(())
}

// The most rows that stand in a batch that goes there.
fn most_at(config: &Config, course: &Course) -> u64
    ensures { result ≡ most_at config.now course.now }
{
    most_by(config.mailer(&course.mailer))
}

fn most_by(mailer: Option<&Mailer>) -> u64
    ensures { result ≡ most_by (option_copied mailer.entry) }
{
    match mailer {
        Some(mailer) => most_of(mailer),
        None => 1,
    }
}

fn most_of(mailer: &Mailer) -> u64
    ensures { result ≡ most_by (Some mailer.now) }
{
    if has_flag(mailer, b'm') {
        return mailer.batch;
    }
    1
}

// Whether a mailer has a flag.
pub(crate) fn has_flag(mailer: &Mailer, flag: u8) -> bool
    ensures { result ≡ has_flag flag mailer.now }
{
    mailer.flags.bytes().contains(&flag)
}

fn user_of(alloc: Global, resolved: &Resolved) -> Result<Text, NoMemory>
    ensures { IfOk result (λ user. user ≡ user_of resolved.now) }
{
    match resolved {
        Resolved::Goes(triple) => triple.user.copy(),
        Resolved::Refuses(_error) => Ok(Text::new(alloc)),
    }
}

// The batch that a row begins.
fn begun(alloc: Global, row: Routed) -> Result<Batch, NoMemory>
    ensures { IfOk result (λ batch. batch ≡ begun row) }
{
    let mut places = Seq::new(alloc);
    places.push(row.place)?;
    let mut users = Seq::new(alloc);
    users.push(user_of(alloc, &row.resolved)?)?;
    Ok(Batch {
        resolved: row.resolved,
        places,
        users,
    })
}

// Puts a row into a batch.
fn add_row(alloc: Global, batch: &mut Batch, row: &Routed) -> Result<(), NoMemory>
    ensures { OnOk result (batch.new ≡ added row.now batch.old) }
{
    let user = user_of(alloc, &row.resolved)?;
    batch.places.push(row.place)?;
    batch.users.push(user)?;
    Ok(())
}

fn add(alloc: Global, batches: &mut Vec<Batch>, place: usize, row: &Routed) -> Result<(), NoMemory>
    requires { place < length batches.old.items }
    ensures { (d : TheBatch) → OnOk result (batches.new.items
        ≡ set batches.old.items place (added row.now (get_or batches.old.items place d))) }
{
    add_row(alloc, &mut batches[place], row)
}
