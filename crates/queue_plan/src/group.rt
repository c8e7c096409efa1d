ghost use Rattle.std.specs.Prelude.{◌≡◌, ◌==◌, ℕ, IfOk, List, None};
ghost use Rattle.std.specs.List.{list_any};
ghost use Rattle.std.specs.Option.{option_copied};
ghost use Rattle.mail_base.specs.Catalogs.{value_like};
ghost use Rattle.mail_base.specs.Texts.{IsLine};
ghost use Rattle.queue_plan.specs.Groups.{Groups, IsGroupName, group_by, mailer_of, own_group};
ghost use Rattle.queue_plan.specs.Groups as spec;

use crate::asking::said;
use crate::law::one_group;
use mail_base::{Config, Macros, Mailer, NoMemory, Resolved, Text, TryCopy};
use map_tables::Maps;
use std::alloc::Global;

/// The queue group of a row, by its address and the name of its mailer, which is empty where its
/// route is an error (Sendmail Installation and Operation Guide, "Queue Groups"): what the set
/// `queuegroup` answers where that is `$#` and the name of a group, else the group of the mailer's
/// field Q where there is one of that name, else `mqueue`. An address that can't be cut into tokens
/// and a run that fails answer nothing. Names of groups compare byte by byte, those of mailers
/// without case. A group whose name isn't on one line counts as none: no entry can name it.
pub fn group_of(
    alloc: Global,
    config: &Config,
    maps: &Maps,
    macros: &Macros,
    address: &Text,
    mailer: &Text,
) -> Result<Text, NoMemory>
    ensures group { IfOk result
        (Groups config.now maps.now macros.now address.now mailer.now) }
    ensures only { (name : List ℕ)
        → Groups config.now maps.now macros.now address.now mailer.now name
        → IfOk result (λ given. given ≡ name) }
    ensures name { IfOk result (IsGroupName config.now) }
    ensures line { IfOk result IsLine }
{
    // A law: a row has one group.
    one_group();
    grouped(alloc, config, maps, macros, address, mailer)
}

/// The name of the mailer of a row, which is empty where its route is an error.
pub fn mailer_of(alloc: Global, resolved: &Resolved) -> Result<Text, NoMemory>
    ensures { IfOk result (λ name. name ≡ mailer_of resolved.now) }
{
    match resolved {
        Resolved::Goes(triple) => triple.mailer.copy(),
        Resolved::Refuses(_error) => Ok(Text::new(alloc)),
    }
}

fn grouped(
    alloc: Global,
    config: &Config,
    maps: &Maps,
    macros: &Macros,
    address: &Text,
    mailer: &Text,
) -> Result<Text, NoMemory>
    ensures group { IfOk result
        (Groups config.now maps.now macros.now address.now mailer.now) }
    ensures name { IfOk result (IsGroupName config.now) }
{
    let said = said(alloc, config, maps, macros, address)?;
    group_by(alloc, config, said, config.mailer(mailer))
}

// The group by a name that was said, if there is one, and by a mailer.
fn group_by(
    alloc: Global,
    config: &Config,
    said: Option<Text>,
    mailer: Option<&Mailer>,
) -> Result<Text, NoMemory>
    ensures is { IfOk result
        (λ name. name ≡ group_by config.now said (own_group (option_copied mailer.entry))) }
    ensures name { IfOk result (IsGroupName config.now) }
{
    match said {
        Some(name) => if is_group(config, &name) {
            Ok(name)
        } else {
            own_or_main(alloc, config, mailer)
        },
        None => own_or_main(alloc, config, mailer),
    }
}

// The group by a mailer alone.
fn own_or_main(alloc: Global, config: &Config, mailer: Option<&Mailer>) -> Result<Text, NoMemory>
    ensures is { IfOk result
        (λ name. name ≡ group_by config.now None (own_group (option_copied mailer.entry))) }
    ensures name { IfOk result (IsGroupName config.now) }
{
    match mailer {
        Some(mailer) => of_mailer(alloc, config, &mailer.group),
        None => Text::of(alloc, b"mqueue"),
    }
}

fn of_mailer(alloc: Global, config: &Config, own: &Option<Text>) -> Result<Text, NoMemory>
    ensures is { IfOk result (λ name. name ≡ group_by config.now None own.now) }
    ensures name { IfOk result (IsGroupName config.now) }
{
    match own {
        Some(name) => if is_group(config, name) {
            name.copy()
        } else {
            Text::of(alloc, b"mqueue")
        },
        None => Text::of(alloc, b"mqueue"),
    }
}

// Whether there is a group of a name that an entry may have.
fn is_group(config: &Config, name: &Text) -> bool
    ensures { result ≡ spec.is_group config.now name.now }
{
    !has_lf(name.bytes()) && config.groups.get(name).is_some()
}

fn has_lf(name: &[u8]) -> bool
    ensures { result ≡ list_any (λ byte. byte == 10) name.now }
{
    name.iter().any(|byte| *byte == b'\n')
}
