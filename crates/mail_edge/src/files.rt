ghost use Rattle.std.specs.Prelude.{◌≡◌, ◌≤◌, false, length, IfOk, IfSome};
ghost use Rattle.mail_base.specs.Causes.{HasEdgeCause, has_failed};
ghost use Rattle.mail_edge.specs.Seen.{FilesSeen, text_of};

use mail_base::{EdgeFault, Text};
use std::alloc::Global;

/// The most bytes that the text of a file has (own). A larger file is a fault of its device.
pub const LARGEST_FILE: usize = 67_108_864;

/// Files to read, on a disk or in memory. They may tell their names and texts, which never change.
/// Their count of faults never falls, and rises where a call answers `Failed` and in no other.
pub trait Files {
    /// All that is seen of them.
    ghost seen: { Self → FilesSeen };

    /// The text of the file of that name, or `None` where there is no such file. The text's memory
    /// comes from `alloc`.
    fn read(&mut self, alloc: Global, name: &Text) -> Result<Option<Text>, EdgeFault>
        ensures text { IfOk result
            (λ text. IfSome (seen self.old).map (λ files. text ≡ text_of files name.now)) }
        ensures bound { IfOk result (λ text. IfSome text (λ bytes. length bytes ≤ LARGEST_FILE)) }
        ensures fixed { (seen self.new).map ≡ (seen self.old).map }
        ensures cause { HasEdgeCause (seen self.old).faults (seen self.new).faults result }
        ensures calm { has_failed result ≡ false
            → (seen self.new).faults ≡ (seen self.old).faults };
}
