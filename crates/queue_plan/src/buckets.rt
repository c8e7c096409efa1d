ghost use Rattle.std.specs.Prelude.{◌≡◌, IfOk, OnOk, [], map, slice_get};
ghost use Rattle.std.specs.Option.{option_copied};
ghost use Rattle.queue_plan.specs.inner.Buckets as spec;

use crate::Heading;
use indexmap::IndexMap;
use mail_base::{NoMemory, Seq, TryCopy};
use std::alloc::Global;

/// The places of headings, gathered by heading in the order in which each is first met.
pub fn gathered(
    alloc: Global,
    headings: &[Heading],
) -> Result<IndexMap<Heading, Seq<usize>>, NoMemory>
    ensures { IfOk result (λ buckets. buckets.entries ≡ spec.gathered headings.now) }
{
    let mut buckets = IndexMap::new(alloc);
    for (place, heading) in headings.iter().enumerate() {
        put(&mut buckets, heading, place)?;
    }
    Ok(buckets)
}

// Puts a place behind those of its heading.
fn put(
    buckets: &mut IndexMap<Heading, Seq<usize>>,
    heading: &Heading,
    place: usize,
) -> Result<(), NoMemory>
    ensures { OnOk result (buckets.new.entries ≡ spec.put heading.now place buckets.old.entries) }
{
    if let Some(places) = buckets.get_mut(heading) {
        return places.push(place);
    }
    let key = heading.copy()?;
    let mut places = Seq::new(*buckets.allocator());
    places.push(place)?;
    buckets.insert(key, places)?;
    Ok(())
}
