use mail_base::{EdgeFault, Text};
use std::alloc::Global;

/// A spool whose files can be looked at beside its calls, of which nothing is seen.
pub trait Look {
    /// The bytes of that file, or `None` where it isn't there.
    fn look(&self, alloc: Global, dir: &Text, name: &Text) -> Result<Option<Text>, EdgeFault>;
}
