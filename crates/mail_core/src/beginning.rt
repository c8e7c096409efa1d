ghost use Rattle.std.specs.Prelude.{◌≡◌, [], IfOk, None, Some};
ghost use Rattle.std.specs.Option.{option_copied};
ghost use Rattle.spawn_edge.specs.Spawned.{Spawned};
ghost use Rattle.spool_store.specs.Entries.{Table as Entries};
ghost use Rattle.mail_core.specs.Beginning.{Start, beginning};
ghost use Rattle.mail_core.specs.Crews.{IsListOf, IsManned};
ghost use Rattle.mail_core.specs.Holding.{waiting_of};
ghost use Rattle.mail_core.specs.Plans.{Once, Serve};
ghost use Rattle.mail_core.specs.Sites.{Site};
ghost use Rattle.mail_core.specs.Standing.{Begins, Serves, Stands, Stores, table_of};

use crate::crew::Crew;
use crate::fixed::fixed_list;
use crate::intake::Intake;
use crate::lanes::{USUAL_INTERVAL, lanes};
use crate::serving::Core;
use mail_base::{Config, Id, NoMemory, Seq, Text};
use queue_table::{Table, Waiting};
use smtp_receive::too_many_sessions;
use std::alloc::Global;

impl Core {
    /// A core that serves sessions, over a table, and between their turns the queue, where `wait`
    /// is the interval, in seconds, of a queue group that says none. In replies it names this host.
    pub fn serving(
        alloc: Global,
        host: Text,
        table: Table,
        config: &Config,
        wait: Option<u64>,
    ) -> Result<Core, NoMemory>
        ensures begins { IfOk result
            (λ core. (site : Site) (entries : Entries) → site.host ≡ host
            → site.config ≡ config.now → site.plan ≡ Serve wait → Stores site table entries
            → Begins site core entries None) }
        ensures manned { IfOk result
            (λ core. (site : Site) (spawner : Spawned) → site.config ≡ config.now
            → site.plan ≡ Serve wait → IsManned (table_of core) spawner core.crew) }
        ensures table { IfOk result (λ core. table_of core ≡ table) }
    {
        let waiting = lanes(alloc, config, Some(wait.unwrap_or(USUAL_INTERVAL)))?;
        let intake = Intake::new(alloc, table)?;
        Core::over(alloc, host, intake, waiting, None)
    }

    /// A core that runs the queue once, over a table, or one group of it. The list of the run is
    /// fixed by this reading of the clock. It serves no session.
    pub fn once(
        alloc: Global,
        host: Text,
        table: Table,
        config: &Config,
        group: Option<&Text>,
        reading: u64,
    ) -> Result<Core, NoMemory>
        ensures begins { IfOk result
            (λ core. (site : Site) (entries : Entries) → site.host ≡ host
            → site.config ≡ config.now → site.plan ≡ Once (option_copied group.entry)
            → Stores site table entries → Begins site core entries (Some reading)) }
        ensures manned { IfOk result
            (λ core. (site : Site) (spawner : Spawned) → site.config ≡ config.now
            → site.plan ≡ Once (option_copied group.entry)
            → IsManned (table_of core) spawner core.crew) }
        ensures table { IfOk result (λ core. table_of core ≡ table) }
    {
        let waiting = lanes(alloc, config, None)?;
        let mut intake = Intake::new(alloc, table)?;
        intake.at(reading);
        let list = fixed_list(alloc, &intake.table, config, group, intake.moment)?;
        Core::over(alloc, host, intake, waiting, Some(list))
    }

    // A core with no session, in which nobody holds an entry.
    fn over(
        alloc: Global,
        host: Text,
        intake: Intake,
        waiting: Waiting,
        list: Option<Seq<Id>>,
    ) -> Result<Core, NoMemory>
        ensures stands { IfOk result
            (λ core. (site : Site) (start : Start) → site.host ≡ host
            → Serves site intake start.table → waiting ≡ waiting_of site []
            → IsListOf site.plan list start.list → intake.moment ≡ (beginning start).latest
            → Stands site core (beginning start)) }
        ensures manned { IfOk result
            (λ core. (site : Site) (spawner : Spawned) → waiting ≡ waiting_of site []
            → IsManned (table_of core) spawner core.crew) }
        ensures table { IfOk result (λ core. table_of core ≡ intake.table) }
    {
        Ok(Core {
            alloc,
            host,
            full: too_many_sessions(alloc)?,
            callers: Vec::new(alloc),
            intake,
            crew: Crew::new(alloc, waiting, list),
            stopping: false,
        })
    }
}
