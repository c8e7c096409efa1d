ghost use Rattle.std.specs.Prelude.{◌≡◌, IfOk};
ghost use Rattle.queue_table.specs.Calls.{AreDirs};
ghost use Rattle.queue_table.specs.Directories.{all_dirs, terms_of};
ghost use Rattle.sendmail_run.specs.Serving as spec;

use cf_macros::host_name;
use mail_base::{Config, Macros, NoMemory, Seq, Text, first_bytes};
use queue_table::Terms;
use std::alloc::Global;

/// The most bytes of a host that replies name.
const MOST_HOST: usize = 255;

/// The host that replies name: the value of `$j`, or the empty text where that can't be expanded.
pub fn host_of(alloc: Global, macros: &Macros) -> Result<Text, NoMemory>
    ensures { IfOk result (λ host. host ≡ spec.host_of macros.now) }
{
    let name = host_name(alloc, macros)?;
    Text::of(alloc, first_bytes(name.bytes(), MOST_HOST))
}

/// The directories of the queue, among which is that of each group.
pub fn queue_dirs(config: &Config) -> Result<Seq<Text>, NoMemory>
    ensures is { IfOk result (λ dirs. dirs ≡ all_dirs (terms_of config.now)) }
    ensures each { IfOk result (AreDirs (terms_of config.now)) }
{
    Terms::of(config)?.dirs()
}
