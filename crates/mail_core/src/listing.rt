ghost use Rattle.std.specs.Prelude.{◌≡◌, ◌≢◌, All, IfErr, IfOk};
ghost use Rattle.mail_core.specs.Holding.{without_id};
ghost use Rattle.mail_core.specs.inner.Nexts.{AreAscending, IsListNext, IsPlaceOf, MayBegin};

use mail_base::{Id, Seq};
use queue_table::Waiting;
use spool_store::Held;
use std::mem;

/// The first of a list that nobody holds and whose lane has room. It takes no memory.
pub(crate) fn first_listed(waiting: &Waiting, ids: &[Id], entries: &[Held]) -> Option<Id>
    requires ascending { AreAscending entries.now }
    ensures { IsListNext waiting.now entries.now ids.now result }
{
    if waiting.is_full() {
        return None;
    }
    for place in 0..ids.len() {
        let id = ids[place];
        if may_begin(waiting, entries, id) {
            return Some(id);
        }
    }
    None
}

// Whether an entry is there, nobody holds it, and its lane has room.
fn may_begin(waiting: &Waiting, entries: &[Held], id: Id) -> bool
    requires ascending { AreAscending entries.now }
    ensures { MayBegin waiting.now entries.now id result }
{
    match place_of(entries, id.number()) {
        Ok(place) => waiting.is_free(&entries[place]),
        Err(_place) => false,
    }
}

// Where the entry of an id is, if it is there. It halves the entries.
fn place_of(entries: &[Held], id: u64) -> Result<usize, usize>
    requires ascending { AreAscending entries.now }
    ensures found { IfOk result (IsPlaceOf entries.now id) }
    ensures absent { IfErr result (λ _. All (λ h. h.entry.id ≢ id) entries.now) }
{
    entries.binary_search_by_key(&id, |held| held.entry.id.number())
}

/// Takes an id off a list.
pub(crate) fn without(ids: &mut Seq<Id>, id: Id)
    ensures { ids.new ≡ without_id id ids.old }
{
    let alloc = ids.allocator();
    let mut items = mem::replace(ids, Seq::new(alloc)).into_vec();
    keep_others(&mut items, id);
    *ids = Seq::from_vec(items);
}

fn keep_others(items: &mut Vec<Id>, id: Id)
    ensures { items.new.items ≡ without_id id items.old.items }
{
    items.retain(|other| other.number() != id.number());
}
