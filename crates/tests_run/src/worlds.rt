// The configuration of the cases, with its maps, aliases, homes and files.
use crate::samples::config_of;
use alias_expand::{Aliases, Homes};
use mail_base::{Config, NoMemory, Seq, Text};
use mail_edge::MemFiles;
use map_tables::Maps;
use std::alloc::Global;
use std::test::Fail;

/// What addresses are expanded and recipients are judged by.
pub(crate) struct World {
    pub config: Config,
    pub maps: Maps,
    pub aliases: Aliases,
    pub homes: Homes,
}

// Written out, since a caller's proof goes through the parts of a derived drop at each way out.
impl Drop for World {
    fn drop(self) {
        let World {
            config: _,
            maps: _,
            aliases: _,
            homes: _,
        } = self;
    }
}

// Levels go to 2. Addresses in `far` and `by` go by smtp, of which `by` has the host `f` and the
// value of f behind it; other hosts have no route, and what has no host is local; a leaf `moved`
// goes elsewhere by set 5. The sets refuse the sender `bad` and the recipient `no`.
static RULES: &[u8] = b"DjHOST\nDfset\nO MaxAliasRecursion=2\nO OperatorChars=.:%@!^/[]+\n\
    Mlocal, P=/bin/mail, F=lsDFMAw5, A=mail -d $u\nMprog, P=/bin/sh, F=lsDFM, A=sh -c $u\n\
    Msmtp, P=[IPC], F=mDFMuX, A=TCP $h\n\
    S3\nR$* < $+ > $*\t$2\n\
    S0\nR$+ @ far\t$#smtp $@ far $: $1\nR$+ @ by\t$#smtp $@ f$&f $: $1\n\
    R$+ @ $+\t$#error $@ nohost $: no\nR$+\t$#local $: $1\n\
    S5\nRmoved\t$#smtp $@ near $: moved\n\
    Scheck_mail\nR< bad >\t$#error $@ 5.7.1 $: not from you\n\
    Scheck_rcpt\nR< no >\t$#error $@ 5.7.1 $: not here\n";

static ALIASES: &[u8] = b"one: ann\ntwo: one, bob@far\nowner-two: olga\nself: self, ann\n\
    loop: pool\npool: loop\nround: around, ann\naround: round\n\
    a1: a2\na2: a3\na3: ann\nprog: \"|/bin/x y\"\nesc: \\one\n\
    inc: :include:/list\nlost: :include:/none\ntwice: :include:/list, :include:/list\n\
    nohost: ann@off, bob@far\nboth: bob@far, bob@far\nowned: ann\nowner-owned: x, y\n\
    crowd: :include:/crowd\n";

static HOMES: &[u8] = b"kim /k\nlee /l\nmoved /m\nsue /s\n";

static FILES: [(&str, &[u8]); 6] = [
    ("/list", b"ann, :include:/more\n# none\nbob@far\n"),
    ("/more", b"joe\n:include:/list\n"),
    ("/k/.forward", b"kim, ann\n"),
    ("/l/.forward", b"\\lee, bob@far\n"),
    ("/m/.forward", b"ann\n"),
    ("/empty", b""),
];

/// The files, of which the calls with these numbers fail.
pub(crate) fn files_of(alloc: Global, failing: &[u64]) -> Result<MemFiles, Fail> {
    crate::samples::files_of(alloc, &FILES, failing)
}

/// A file of more members than an address may come to.
pub(crate) fn crowded(alloc: Global) -> Result<MemFiles, Fail> {
    let crowd = crowd(alloc, 10_001)?;
    crate::samples::files_of(alloc, &[("/crowd", crowd.bytes())], &[])
}

// So many members.
fn crowd(alloc: Global, count: u32) -> Result<Text, NoMemory> {
    let mut text = Text::new(alloc);
    for number in 0..count {
        let line = format!(in alloc; "u{number}\n")?;
        text.extend(line.as_bytes())?;
    }
    Ok(text)
}

fn aliases_of(alloc: Global, text: &Text) -> Result<Aliases, Fail> {
    if text.len() >= 1 << 32 {
        return Err(Fail::from("a large text"));
    }
    let mut aliases = Aliases::new(alloc);
    if aliases.read(text).is_err() {
        return Err(Fail::from("refused aliases"));
    }
    Ok(aliases)
}

/// The world of the cases.
pub(crate) fn world_of(alloc: Global) -> Result<World, Fail> {
    world_with(alloc, &Text::of(alloc, ALIASES)?)
}

/// The same with other aliases.
pub(crate) fn world_with(alloc: Global, aliases: &Text) -> Result<World, Fail> {
    let config = config_of(alloc, RULES)?;
    let maps = Maps::load(alloc, &config, &Seq::new(alloc), &Text::new(alloc))?;
    Ok(World {
        config,
        maps,
        aliases: aliases_of(alloc, aliases)?,
        homes: Homes::read(alloc, &Text::of(alloc, HOMES)?)?,
    })
}
