ghost use Rattle.std.specs.Prelude.{◌≡◌, ℕ, All, List, Ok, Option, Result, Some};
ghost use Rattle.mail_base.specs.Drawing.{null_sender};
ghost use Rattle.mail_base.specs.declared.draw.Draw.{Draw};
ghost use Rattle.mail_edge.specs.Seen.{FileMap};
ghost use Rattle.alias_expand.specs.declared.refusal.ExpandRefusal.{ExpandRefusal};
ghost use Rattle.alias_expand.specs.Rows.{Expands, IsMeant, Site};

use addr_route::{one_route, some_route};

/// An address comes to one outcome, where the files are told.
pub fn one_expansion()
    ensures { (site : Site) (files : FileMap) (address sender : List ℕ)
        (one another : Result (List Draw) ExpandRefusal)
        → Expands site (Some files) address sender one
        → Expands site (Some files) address sender another → one ≡ another }
{
    // A law: an address has one route.
    one_route();
}

/// It comes to an outcome, whatever aliases and files name one another, which is neither a fault of
/// files nor want of memory.
pub fn some_expansion()
    ensures { (site : Site) (files : FileMap) (address sender : List ℕ)
        → (outcome : Result (List Draw) ExpandRefusal)
        × (Expands site (Some files) address sender outcome × IsMeant outcome) }
{
    // A law: an address has a route.
    some_route();
}

/// The rows of a null sender have it, whatever owners aliases have and whether files are told.
pub fn null_sender_stays()
    ensures { (site : Site) (files : Option FileMap) (address : List ℕ) (rows : List Draw)
        → Expands site files address null_sender (Ok rows)
        → All (λ row. row.sender ≡ null_sender) rows }
{}
