//! What runs stand on: a configuration with its maps and aliases, and files.

use alias_expand::{Aliases, Homes};
use cf_reader::read;
use mail_base::{Config, NoMemory, Seq, Text};
use mail_edge::{MemFiles, SureFiles};
use map_tables::Maps;
use std::alloc::Global;
use std::test::Fail;

/// What a step is given beside its table and devices, and what returned mail is drawn by.
pub(crate) struct World {
    pub config: Config,
    pub maps: Maps,
    pub aliases: Aliases,
    pub homes: Homes,
}

// Written out, since a caller's proof goes through the parts of a derived drop at each way out.
impl Drop for World {
    fn drop(self) {
        let World {
            config: _,
            maps: _,
            aliases: _,
            homes: _,
        } = self;
    }
}

static FRONT: &[u8] = b"Cwmx.example\nDwmx\nDjmx.example\nO QueueDirectory=/q\n\
    O AliasFile=/aliases\nO HostsFile=/hosts\nO OperatorChars=.:%@!^/[]+\n\
    Qbulk, Path=/q/bulk, recipients=100\n\
    HReceived: from $s by $j with $r id $i; $b\n\
    Mlocal, P=/bin/mail, F=lsDFMAw5n, A=mail -d $u\n\
    Mprog, P=/bin/sh, F=lsDFMn, A=sh -c $u\n\
    Msmtp, P=[IPC], F=mDFMuX, Q=bulk, A=TCP $h\n";

static RULES: &[u8] = b"Scanonify=3\nR$* < $+ > $*\t$2\nR$+ @ $+\t$: $1 < @ $2 >\n\
    Sparse=0\nR$+ < @ $=w >\t$#local $: $1\nR$+ < @ $+ >\t$#smtp $@ $2 $: $1 < @ $2 >\n\
    R$+\t$#local $: $1\nSfinal=4\nR$+ < @ $+ >\t$1 @ $2\n";

static HOSTS: &[u8] = b"127.0.0.1 far.example far\n127.0.0.1 c.example\n";

// The rows of olga are read from a file.
static ALIASES: &[u8] = b"olga: :include:/list\n";

/// Files, of which the calls with these numbers fail.
pub(crate) fn files_of(alloc: Global, failing: Seq<u64>) -> Result<MemFiles, Fail> {
    let mut named = Seq::new(alloc);
    named.push((Text::of(alloc, b"/list")?, Text::of(alloc, b"eve\n")?))?;
    let sure = SureFiles::new(named).ok_or("a large text")?;
    Ok(MemFiles::new(sure, failing))
}

fn aliases_of(alloc: Global) -> Result<Aliases, Fail> {
    let text = Text::of(alloc, ALIASES)?;
    if text.len() > 65_536 {
        return Err(Fail::from("a large text"));
    }
    let mut aliases = Aliases::new(alloc);
    if aliases.read(&text).is_err() {
        return Err(Fail::from("refused aliases"));
    }
    Ok(aliases)
}

fn text_with(alloc: Global, lines: &str) -> Result<Text, NoMemory> {
    let mut text = Text::of(alloc, FRONT)?;
    text.extend(lines.as_bytes())?;
    text.extend(RULES)?;
    Ok(text)
}

fn config_of(alloc: Global, text: &Text) -> Result<Config, Fail> {
    if text.len() > 65_536 {
        return Err(Fail::from("a large configuration"));
    }
    let mut files = files_of(alloc, Seq::new(alloc))?;
    match read(alloc, text, &mut files) {
        Ok(config) => Ok(config),
        Err(_) => Err(Fail::from("a refused configuration")),
    }
}

/// The example configuration with these lines before its rules.
pub(crate) fn world_with(alloc: Global, lines: &str) -> Result<World, Fail> {
    let config = config_of(alloc, &text_with(alloc, lines)?)?;
    let hosts = Text::of(alloc, HOSTS)?;
    let maps = Maps::load(alloc, &config, &Seq::new(alloc), &hosts)?;
    let aliases = aliases_of(alloc)?;
    let homes = Homes::read(alloc, &Text::new(alloc))?;
    Ok(World {
        config,
        maps,
        aliases,
        homes,
    })
}
