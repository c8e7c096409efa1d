ghost use Rattle.std.specs.Prelude.{◌≡◌, [], IfOk, map};
ghost use Rattle.mail_core.specs.Holding.{waiting_of};
ghost use Rattle.mail_core.specs.Sites.{Site};
ghost use Rattle.mail_core.specs.inner.Lanes as spec;
ghost use Rattle.mail_core.specs.inner.Lanes.{IsUsual};

use mail_base::{Catalog, Config, Group, NoMemory, Text, TryCopy};
use queue_table::{Lane, Waiting};
use std::alloc::Global;

/// The seconds between two tries of an entry where none are said: 30 minutes.
pub(crate) const USUAL_INTERVAL: u64 = 1_800;

/// What each queue group of a configuration allows, where `usual` is the interval, in seconds, of a
/// group that says none. Without it, in a run over the queue, each waits for the least age alone.
pub(crate) fn lanes(alloc: Global, config: &Config, usual: Option<u64>) -> Result<Waiting, NoMemory>
    ensures { (site : Site) → site.config ≡ config.now → IsUsual site.plan usual
        → IfOk result (λ waiting. waiting ≡ waiting_of site []) }
{
    let lanes = group_lanes(alloc, config, usual)?;
    let other = main_lane(alloc, config, usual)?;
    Ok(Waiting::new(alloc, lanes, other))
}

// The lanes of all groups under their names.
fn group_lanes(
    alloc: Global,
    config: &Config,
    usual: Option<u64>,
) -> Result<Catalog<Lane>, NoMemory>
    ensures { IfOk result
        (λ lanes. lanes
        ≡ map (spec.named_lane usual config.now.options.min_queue_age) config.now.groups) }
{
    let mut lanes = Catalog::new(alloc);
    for index in 0..config.groups.len() {
        let (name, group) = config.groups.at(index).unwrap();
        let lane = lane(usual, config.options.min_queue_age, name, group)?;
        lanes.set(name.copy()?, lane)?;
    }
    // No name of a catalog comes twice, so this never is; but no clause of a catalog says so.
    if lanes.len() < config.groups.len() {
        return Err(NoMemory);
    }
    Ok(lanes)
}

// The lane of the group `mqueue`, in which entries of groups that aren't configured count too.
fn main_lane(alloc: Global, config: &Config, usual: Option<u64>) -> Result<Lane, NoMemory>
    ensures { IfOk result
        (λ lane. lane ≡ spec.main_lane usual config.now.options.min_queue_age config.now.groups) }
{
    let age = config.options.min_queue_age;
    let name = Text::of(alloc, b"mqueue")?;
    match config.groups.get(&name) {
        Some(group) => lane(usual, age, &name, group),
        None => Ok(Lane {
            group: name,
            wait: least_wait(usual, age, None),
            runners: 1,
        }),
    }
}

// The lane of a group of that name.
fn lane(usual: Option<u64>, age: u64, name: &Text, group: &Group) -> Result<Lane, NoMemory>
    ensures { IfOk result (λ lane. lane ≡ spec.lane usual age name.now group.now) }
{
    Ok(Lane {
        group: name.copy()?,
        wait: least_wait(usual, age, group.interval),
        runners: group.runners,
    })
}

// The least seconds between two tries, by the least age and the interval of a group.
fn least_wait(usual: Option<u64>, age: u64, interval: Option<u64>) -> u64
    ensures { result ≡ spec.least_wait usual age interval }
{
    match usual {
        Some(usual) => age.max(interval.unwrap_or(usual)),
        None => age,
    }
}
