use crate::books::book_of;
use crate::classes::members;
use crate::rules::items;
use mail_base::{
    Book, Catalog, Classes, Config, DaemonPort, Go, Group, HeaderLine, Lookup, Mailer, MapClass,
    MapLine, Member, NoMemory, Options, Pattern, Piece, Precedence, Query, Rule, RuleSet, Seq,
    Step, Template, Text, Token, TryCopy, texts_of,
};
use std::alloc::Global;
use std::test::Fail;

fn is_preset(config: &Config) -> bool {
    config.macros.values().len() == 4
        && config.groups.len() == 1
        && config.maps.len() == 1
        && config.mailers.is_empty()
        && config.book.sets().is_empty()
}

fn are_preset(options: &Options) -> bool {
    options.operator_chars.bytes() == b".:@[]".as_slice()
        && options.queue_directory.bytes() == b"/var/spool/mqueue".as_slice()
        && options.hosts_file.bytes() == b"/etc/hosts".as_slice()
        && options.double_bounce_address.bytes() == b"postmaster".as_slice()
        && options.queue_return == 432_000
        && options.max_hop_count == 25
        && options.queue_warn.is_none()
}

fn starts_preset(alloc: Global) -> Result<bool, NoMemory> {
    let config = Config::new(alloc)?;
    let copied = config.copy()?;
    Ok(is_preset(&config) && is_preset(&copied) && are_preset(&copied.options))
}

fn mailer(alloc: Global, name: &[u8], path: &[u8]) -> Result<Mailer, NoMemory> {
    Ok(Mailer {
        name: Text::of(alloc, name)?,
        path: Text::of(alloc, path)?,
        flags: Text::new(alloc),
        line_end: Text::new(alloc),
        envelope_from: None,
        header_from: None,
        envelope_to: None,
        header_to: None,
        most: 0,
        group: None,
        args: Seq::new(alloc),
        batch: 100,
    })
}

fn fill_mailer(alloc: Global, mailer: &mut Mailer) -> Result<(), NoMemory> {
    mailer.flags.extend(b"mDFMuX")?;
    mailer.line_end.push(b'\n')?;
    mailer.envelope_to = Some(Text::of(alloc, b"11")?);
    mailer.group = Some(Text::of(alloc, b"bulk")?);
    mailer.args = texts_of(alloc, &[b"TCP", b"$h"])?;
    Ok(())
}

fn add_mailers(alloc: Global, mailers: &mut Catalog<Mailer>) -> Result<(), NoMemory> {
    let mut smtp = mailer(alloc, b"", b"[IPC]")?;
    fill_mailer(alloc, &mut smtp)?;
    mailers.set(Text::of(alloc, b"smtp")?, smtp)?;
    mailers.set(
        Text::of(alloc, b"local")?,
        mailer(alloc, b"Local", b"/bin/mail")?,
    )
}

fn add_members(alloc: Global, classes: &mut Classes) -> Result<(), NoMemory> {
    let name = Text::of(alloc, b"w")?;
    classes.extend(&name, members(alloc, &[b"\"a\" b", b"(b"])?)
}

/// The class of a map, by its place below.
fn class(alloc: Global, place: u8) -> Result<MapClass, NoMemory> {
    match place {
        0 => Ok(MapClass::Text),
        1 => Ok(MapClass::Hash),
        2 => Ok(MapClass::Btree),
        3 => Ok(MapClass::Host),
        4 => Ok(MapClass::Dequote),
        5 => Ok(MapClass::Sequence(Seq::from_vec(Vec::from_slice(alloc, &[0, 2])?))),
        6 => Ok(MapClass::Null),
        7 => Ok(MapClass::Arith),
        8 => Ok(MapClass::Macro),
        _ => Ok(MapClass::Other(Text::of(alloc, b"ldap")?)),
    }
}

fn place(class: &MapClass) -> u8 {
    match class {
        MapClass::Text => 0,
        MapClass::Hash => 1,
        MapClass::Btree => 2,
        MapClass::Host => 3,
        MapClass::Dequote => 4,
        MapClass::Sequence(_) => 5,
        MapClass::Null => 6,
        MapClass::Arith => 7,
        MapClass::Macro => 8,
        MapClass::Other(_) => 9,
    }
}

/// A map of a class, whose place is its column of the key.
fn map(alloc: Global, place: u8) -> Result<MapLine, NoMemory> {
    Ok(MapLine {
        name: Text::of(alloc, b"both")?,
        tag: Text::of(alloc, b".")?,
        class: class(alloc, place)?,
        keeps_case: true,
        match_only: false,
        optional: true,
        key_column: place,
        value_column: 99,
        separator: Some(b':'),
        file: None,
    })
}

fn add_maps(alloc: Global, maps: &mut Seq<MapLine>) -> Result<(), NoMemory> {
    for place in 0..10u8 {
        maps.push(map(alloc, place)?)?;
    }
    Ok(())
}

fn cut(alloc: Global, number: u8) -> Result<Seq<Piece>, NoMemory> {
    let mut pieces = Seq::new(alloc);
    pieces.push(Piece::Cut(number))?;
    Ok(pieces)
}

fn args(alloc: Global) -> Result<Seq<Seq<Piece>>, NoMemory> {
    let mut args = Seq::new(alloc);
    args.push(cut(alloc, 2)?)?;
    Ok(args)
}

fn lookup(alloc: Global) -> Result<Step, NoMemory> {
    let query = Query {
        name: Text::of(alloc, b"host")?,
        key: cut(alloc, 1)?,
        args: args(alloc)?,
        fallback: Some(cut(alloc, 3)?),
    };
    Ok(Step::Lookup(Lookup::of(alloc, query)?))
}

fn steps(alloc: Global) -> Result<Seq<Step>, NoMemory> {
    let mut steps = Seq::new(alloc);
    steps.push(Step::Plain(Piece::Give(Token::Op(b'@'))))?;
    steps.push(Step::Plain(Piece::Late(Text::of(alloc, b"x")?)))?;
    steps.push(lookup(alloc)?)?;
    steps.push(Step::Call)?;
    Ok(steps)
}

pub(crate) fn rule(alloc: Global) -> Result<Rule, Fail> {
    let left = Pattern::of(items(alloc, b"*")?).ok_or("one is few")?;
    let steps = steps(alloc)?;
    let right = Template {
        go: Go::Next,
        steps,
    };
    Ok(Rule { left, right })
}

fn set_book(alloc: Global, book: &mut Book) -> Result<(), Fail> {
    *book = book_of(alloc, &[b"parse"])?;
    if !book.sets().is_empty() {
        book.push_rule(0, rule(alloc)?)?;
    }
    Ok(())
}

fn add_group(alloc: Global, groups: &mut Catalog<Group>) -> Result<(), NoMemory> {
    let name = Text::of(alloc, b"bulk")?;
    let mut bulk = Group::new(name.copy()?, Text::of(alloc, b"/q/bulk")?);
    bulk.recipients = 100;
    groups.set(name, bulk)
}

fn add_header(alloc: Global, headers: &mut Seq<HeaderLine>) -> Result<(), NoMemory> {
    headers.push(HeaderLine {
        flags: Text::of(alloc, b"DF")?,
        name: Text::of(alloc, b"Received")?,
        template: Text::of(alloc, b"from $s")?,
    })
}

fn add_precedence(alloc: Global, lines: &mut Seq<Precedence>) -> Result<(), NoMemory> {
    lines.push(Precedence {
        name: Text::of(alloc, b"bulk")?,
        class: -60,
    })
}

fn set_port(alloc: Global, port: &mut DaemonPort) -> Result<(), NoMemory> {
    port.address = Some(Text::of(alloc, b"127.0.0.1")?);
    port.port = 587;
    Ok(())
}

fn fill_names(alloc: Global, config: &mut Config) -> Result<(), NoMemory> {
    add_mailers(alloc, &mut config.mailers)?;
    add_members(alloc, &mut config.classes)?;
    add_group(alloc, &mut config.groups)?;
    set_port(alloc, &mut config.options.daemon_port)
}

fn fill_lines(alloc: Global, config: &mut Config) -> Result<(), Fail> {
    add_maps(alloc, &mut config.maps)?;
    add_header(alloc, &mut config.headers)?;
    add_precedence(alloc, &mut config.precedences)?;
    config.warnings.push(7)?;
    set_book(alloc, &mut config.book)
}

/// A configuration with something of each type that a configuration holds.
fn filled(alloc: Global) -> Result<Config, Fail> {
    let mut config = Config::new(alloc)?;
    fill_names(alloc, &mut config)?;
    fill_lines(alloc, &mut config)?;
    Ok(config)
}

fn is_header(header: Option<&HeaderLine>) -> bool {
    match header {
        Some(header) => {
            header.flags.bytes() == b"DF".as_slice()
                && header.name.bytes() == b"Received".as_slice()
                && header.template.bytes() == b"from $s".as_slice()
        }
        None => false,
    }
}

fn is_precedence(line: Option<&Precedence>) -> bool {
    match line {
        Some(line) => line.name.bytes() == b"bulk".as_slice() && line.class == -60,
        None => false,
    }
}

fn has_its_place(map: &MapLine) -> bool {
    match &map.class {
        MapClass::Sequence(members) => map.key_column == 5 && members.items() == [0, 2].as_slice(),
        class => map.key_column == place(class),
    }
}

fn is_map(map: &MapLine) -> bool {
    map.name.bytes() == b"both".as_slice()
        && map.tag.bytes() == b".".as_slice()
        && map.keeps_case
        && !map.match_only
        && map.optional
        && map.value_column == 99
        && map.separator == Some(b':')
        && map.file.is_none()
        && has_its_place(map)
}

/// Whether the maps are the first one, which stands before any line, and one of each class.
fn are_maps(maps: &[MapLine]) -> bool {
    for map in maps.iter().skip(1) {
        if !is_map(map) {
            return false;
        }
    }
    maps.len() == 11
}

fn are_members(members: &[Member]) -> bool {
    match members {
        [_, cut, uncut] => {
            cut.text.bytes() == b"\"a\" b".as_slice()
                && cut.tokens.is_some()
                && uncut.tokens.is_none()
        }
        _ => false,
    }
}

fn are_args(args: &[Text]) -> bool {
    match args {
        [tcp, host] => tcp.bytes() == b"TCP".as_slice() && host.bytes() == b"$h".as_slice(),
        _ => false,
    }
}

pub(crate) fn is_word(text: Option<&Text>, word: &[u8]) -> bool {
    match text {
        Some(text) => text.bytes() == word,
        None => false,
    }
}

fn is_smtp(mailer: Option<&Mailer>) -> bool {
    match mailer {
        Some(mailer) => {
            mailer.flags.bytes() == b"mDFMuX".as_slice()
                && are_args(mailer.args.items())
                && is_word(mailer.envelope_to.as_ref(), b"11")
                && mailer.envelope_from.is_none()
                && is_word(mailer.group.as_ref(), b"bulk")
                && mailer.batch == 100
        }
        None => false,
    }
}

fn is_bulk(group: Option<&Group>) -> bool {
    match group {
        Some(group) => group.path.bytes() == b"/q/bulk".as_slice() && group.recipients == 100,
        None => false,
    }
}

fn is_lookup(step: &Step) -> bool {
    match step {
        Step::Lookup(lookup) => {
            let query = lookup.query();
            query.name.bytes() == b"host".as_slice()
                && query.key.len() == 1
                && query.args.len() == 1
                && query.fallback.is_some()
        }
        _ => false,
    }
}

fn are_steps(steps: &[Step]) -> bool {
    match steps {
        [
            Step::Plain(Piece::Give(_)),
            Step::Plain(Piece::Late(_)),
            lookup,
            Step::Call,
        ] => { is_lookup(lookup) }
        _ => false,
    }
}

fn is_rule(rule: Option<&Rule>) -> bool {
    match rule {
        Some(rule) => {
            rule.left.items().len() == 1
                && rule.right.go == Go::Next
                && are_steps(rule.right.steps.items())
        }
        None => false,
    }
}

fn is_ruleset(book: &[RuleSet]) -> bool {
    match book {
        [set] => set.names().len() == 1 && set.count() == 1 && is_rule(set.rule(0)),
        _ => false,
    }
}

fn has_lines(config: &Config) -> bool {
    is_header(config.headers.get(0))
        && is_precedence(config.precedences.get(0))
        && are_maps(config.maps.items())
        && is_ruleset(config.book.sets())
        && config.warnings.items() == [7].as_slice()
        && config.options.daemon_port.port == 587
        && is_word(config.options.daemon_port.address.as_ref(), b"127.0.0.1")
}

/// Whether the members of w, the mailer `smtp` and the group `bulk` are those that were added.
fn has_names(alloc: Global, config: &Config) -> Result<bool, NoMemory> {
    let smtp = Text::of(alloc, b"smtp")?;
    let bulk = Text::of(alloc, b"bulk")?;
    let class = Text::of(alloc, b"w")?;
    Ok(
        is_smtp(config.mailers.get(&smtp))
            && is_bulk(config.groups.get(&bulk))
            && are_members(config.classes.members(&class)),
    )
}

fn is_copied(alloc: Global) -> Result<bool, Fail> {
    let config = filled(alloc)?;
    let copied = config.copy()?;
    Ok(has_names(alloc, &copied)? && has_lines(&copied))
}

/// Names, and the paths of the mailers that they name.
static MAILERS: [(&[u8], Option<&[u8]>); 6] = [
    (b"LOCAL", Some(b"/bin/mail")),
    (b"local", Some(b"/bin/mail")),
    (b"sMTp", Some(b"[IPC]")),
    (b"", None),
    (b"loca", None),
    (b"uucp", None),
];

fn finds(
    alloc: Global,
    config: &Config,
    name: &[u8],
    path: Option<&[u8]>,
) -> Result<bool, NoMemory> {
    let name = Text::of(alloc, name)?;
    match (config.mailer(&name), path) {
        (Some(mailer), Some(path)) => Ok(mailer.path.bytes() == path),
        (None, None) => Ok(true),
        _ => Ok(false),
    }
}

#[test]
fn configurations_are_preset_and_copied_and_find_mailers_without_case(
    rt: HostRuntime,
) -> Result<(), Fail> {
    assert!(rt; starts_preset(rt.alloc()) == Ok(true));
    assert!(rt; is_copied(rt.alloc())?);
    let config = filled(rt.alloc())?;
    for (at, (name, path)) in MAILERS.iter().enumerate() {
        assert!(rt;
            finds(rt.alloc(), &config, name, *path) == Ok(true),
            "row {at}"
        );
    }
    Ok(())
}
