ghost use Rattle.std.specs.Prelude.{◌≡◌, ◌+◌, ◌≤◌, IfOk, ℕ, List, Some, All, length, map};
ghost use Rattle.qf_format.specs.Valid.{IsParent, IsValid};
ghost use Rattle.spool_store.specs.Parts.{entry_of};
ghost use Rattle.spool_store.specs.Writes.{heir, numbered};

use crate::Part;
use mail_base::{Draft, Entry, Id, Kind, NoMemory, Parent, Seq, Text, TryCopy};
use qf_format::print;
use std::alloc::Global;

/// The part that writes a draft under an id, with that parent.
pub(crate) fn part_of(
    alloc: Global,
    id: Id,
    draft: &Draft,
    parent: Option<Parent>,
) -> Result<Part, NoMemory>
    requires valid { IsValid (record draft.now.control { parent = parent }) }
    ensures { IfOk result
        (λ part. part.entry
        ≡ record {
          id = id;
          dir = draft.now.dir;
          control = record draft.now.control { parent = parent };
        }) }
{
    let dir = draft.dir.copy()?;
    let mut control = draft.control.copy()?;
    control.parent = parent;
    let text = print(&control)?;
    let df = Text::of(alloc, id.name(Kind::Df).bytes())?;
    let tf = Text::of(alloc, id.name(Kind::Tf).bytes())?;
    let qf = Text::of(alloc, id.name(Kind::Qf).bytes())?;
    Ok(Part {
        entry: Entry { id, dir, control },
        control: text,
        df,
        tf,
        qf,
    })
}

/// The parts that write drafts under ids from the first on, as children of that parent.
pub(crate) fn heirs(
    alloc: Global,
    first: u64,
    parent: &Parent,
    drafts: &[Draft],
) -> Result<Seq<Part>, NoMemory>
    requires valid { All (λ d. IsValid d.control) drafts.now }
    requires parent { IsParent parent.now }
    requires room { first + length drafts.now ≤ 1_000_000_000_000 }
    ensures { IfOk result
        (λ parts. (body : List ℕ)
        → map (entry_of body) parts ≡ numbered first body (map (heir parent.now) drafts.now)) }
{
    let mut parts = Seq::new(alloc);
    let mut next = first;
    for draft in drafts {
        let part = part_of(alloc, Id::new(next), draft, Some(*parent))?;
        parts.push(part)?;
        next += 1;
    }
    Ok(parts)
}
