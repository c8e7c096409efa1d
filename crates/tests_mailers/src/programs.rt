use crate::dialogues::{add, calls};
use mail_base::{Macros, Mailer, NoMemory, Seq, Text, literal, words_of};
use mailer_pipe::{PipeFault, are_arguments, begin, is_argument, takes_users};
use spawn_edge::{ScriptSpawner, SpawnEvent, Start};
use std::alloc::Global;

static MACROS: [(&[u8], &[u8]); 5] = [
    (b"f", b"bob@c.example"),
    (b"g", b"bob@c.example"),
    (b"h", b"mx.example"),
    (b"i", b"w000000000001"),
    (b"U", b"$u"),
];

fn macros_of(alloc: Global) -> Result<Macros, NoMemory> {
    let mut macros = Macros::new(alloc);
    for (name, value) in &MACROS {
        let value = Text::of(alloc, value)?;
        macros.define(name, &value)?;
    }
    Ok(macros)
}

// A program mailer with these words of A.
fn mailer_of(alloc: Global, words: &[u8]) -> Result<Mailer, NoMemory> {
    let path = Text::of(alloc, b"/bin/prog")?;
    let args = words_of(alloc, words)?;
    let line_end = Text::of(alloc, b"\n")?;
    Ok(Mailer {
        name: Text::new(alloc),
        path,
        flags: Text::new(alloc),
        envelope_from: None,
        header_from: None,
        envelope_to: None,
        header_to: None,
        args,
        line_end,
        most: 0,
        group: None,
        batch: 100,
    })
}

// Users, separated by commas.
fn users_of(alloc: Global, users: &[u8]) -> Result<Seq<Text>, NoMemory> {
    let mut list = Seq::new(alloc);
    for user in users.split(|byte| *byte == b',') {
        list.push(Text::of(alloc, user)?)?;
    }
    Ok(list)
}

// How a start went, and what it has: its program, its arguments in angles, and its input.
fn show_start(text: &mut Text, went: &[u8], start: &Start) -> Result<(), NoMemory> {
    add(text, &[went, start.program.bytes()])?;
    for arg in start.args.items() {
        add(text, &[b"<", arg.bytes(), b">"])?;
    }
    text.extend(start.input.bytes())
}

fn show_events(text: &mut Text, events: &[SpawnEvent]) -> Result<(), NoMemory> {
    for event in events {
        match event {
            SpawnEvent::Began { start, .. } => show_start(text, b"+", start)?,
            SpawnEvent::Unbegun { start, .. } => show_start(text, b"!", start)?,
            SpawnEvent::Polled(..) => {}
        }
    }
    Ok(())
}

// Begins, if the mailer takes users and each of them may be an argument.
fn begun(
    alloc: Global,
    spawner: &mut ScriptSpawner,
    mailer: &Mailer,
    users: &Seq<Text>,
) -> Result<(), PipeFault> {
    if !takes_users(mailer) {
        return Ok(());
    }
    if !are_arguments(users) {
        return Ok(());
    }
    let macros = macros_of(alloc)?;
    let message = Text::of(alloc, b"hi\n")?;
    begin(alloc, spawner, mailer, &macros, users, &message)?;
    Ok(())
}

// Begins with these words of A, users and failing calls, and shows what is told.
fn show_begun(
    text: &mut Text,
    words: &[u8],
    users: &[u8],
    failing: &[u8],
) -> Result<(), PipeFault> {
    let alloc = text.allocator();
    let failing = calls(alloc, failing)?;
    let mut spawner = ScriptSpawner::new(alloc, Seq::new(alloc), failing);
    let users = users_of(alloc, users)?;
    let mailer = mailer_of(alloc, words)?;
    let answer = begun(alloc, &mut spawner, &mailer, &users);
    show_events(text, spawner.seen())?;
    answer
}

/// The words of A, users, and the start.
type Row = (&'static [u8], &'static [u8], &'static [u8]);

static ROWS: [Row; 20] = [
    (b"mail -d $u", b"ann", b"+/bin/prog<-d><ann>hi\n"),
    (
        b"mail -d $u",
        b"ann,ben,cy",
        b"+/bin/prog<-d><ann><ben><cy>hi\n",
    ),
    (
        b"mail $u -f $f",
        b"ann,ben",
        b"+/bin/prog<ann><ben><-f><bob@c.example>hi\n",
    ),
    (
        b"mail -r$g -h $h -d$u@$h",
        b"ann,ben",
        b"+/bin/prog<-rbob@c.example><-h><mx.example><-dann@mx.example><-dben@mx.example>hi\n",
    ),
    (
        b"mail ${u}.$&u.$&{u}",
        b"ann",
        b"+/bin/prog<ann.ann.ann>hi\n",
    ),
    (b"$u $u", b"ann", b"+/bin/prog<ann>hi\n"),
    // A user is one argument, whatever its bytes.
    (
        b"sh -c $u",
        b"echo $HOME \"a b\" $$ ${x",
        b"+/bin/prog<-c><echo $HOME \"a b\" $$ ${x>hi\n",
    ),
    (
        b"sh -c $u",
        b"exec /usr/bin/vacation $USER",
        b"+/bin/prog<-c><exec /usr/bin/vacation $USER>hi\n",
    ),
    (b"sh -c $u", b"$u", b"+/bin/prog<-c><$u>hi\n"),
    (b"mail $u", b"", b"+/bin/prog<>hi\n"),
    (b"mail $u", b"ann,", b"+/bin/prog<ann><>hi\n"),
    (b"mail $u", b"\xff\n\t", b"+/bin/prog<\xff\n\t>hi\n"),
    // Words behind the first that holds it have the last user, and those before it have none.
    (b"mail $u $u", b"ann,ben", b"+/bin/prog<ann><ben><ben>hi\n"),
    (b"mail $u -o $U", b"ann", b"+/bin/prog<ann><-o><ann>hi\n"),
    (b"mail $U $u", b"ann", b"+/bin/prog<><ann>hi\n"),
    (b"mail $?u-d$. $u", b"ann", b"+/bin/prog<><ann>hi\n"),
    (b"mail $u $?u-d$.", b"ann", b"+/bin/prog<ann><-d>hi\n"),
    // Two dollar signs begin no name, and what can't be expanded is empty.
    (b"mail $$u $u", b"ann", b"+/bin/prog<$u><ann>hi\n"),
    (b"mail a${x $u", b"ann", b"+/bin/prog<><ann>hi\n"),
    (b"mail $u${x a", b"ann,ben", b"+/bin/prog<><><a>hi\n"),
];

fn begins_so(alloc: Global, words: &[u8], users: &[u8], told: &[u8]) -> bool {
    let mut text = Text::new(alloc);
    show_begun(&mut text, words, users, b"").is_ok() && text.bytes() == told
}

#[test]
fn programs_get_their_arguments(rt: HostRuntime) {
    for (at, row) in ROWS.iter().enumerate() {
        assert!(rt; begins_so(rt.alloc(), row.0, row.1, row.2), "row {at}");
    }
}

/// The words of A, and whether they give the program its users.
static TAKES: [(&[u8], bool); 14] = [
    (b"mail -d $u", true),
    (b"mail x${u}y", true),
    (b"mail $&u", true),
    (b"mail $&{u}", true),
    (b"mail a$$$u", true),
    (b"mail $?x$u$.", true),
    (b"TCP $h", false),
    (b"$u", false),
    (b"", false),
    (b"mail $$u", false),
    (b"mail $?ux$.", false),
    (b"mail ${uu} $U {u} u $", false),
    (b"mail $&", false),
    (b"mail ${u", false),
];

fn takes_so(alloc: Global, row: &(&[u8], bool)) -> Result<bool, NoMemory> {
    let mailer = mailer_of(alloc, row.0)?;
    Ok(takes_users(&mailer) == row.1)
}

#[test]
fn some_mailers_take_users(rt: HostRuntime) {
    for (at, row) in TAKES.iter().enumerate() {
        assert!(rt; takes_so(rt.alloc(), row) == Ok(true), "row {at}");
    }
}

// So many users, separated by commas, and the start that has each as an argument of its own.
fn fill(users: &mut Text, start: &mut Text, count: usize) -> Result<(), NoMemory> {
    start.extend(b"+/bin/prog<-d>")?;
    for number in 0..count {
        let user = format!(in users.allocator(); "u{number}")?;
        if number > 0 {
            users.push(b',')?;
        }
        users.extend(user.as_bytes())?;
        add(start, &[b"<", user.as_bytes(), b">"])?;
    }
    start.extend(b"hi\n")
}

fn begins_with(alloc: Global, count: usize) -> bool {
    let mut list = Text::new(alloc);
    let mut start = Text::new(alloc);
    fill(&mut list, &mut start, count).is_ok()
        && begins_so(alloc, b"mail -d $u", list.bytes(), start.bytes())
}

#[test]
fn up_to_a_hundred_users_are_arguments(rt: HostRuntime) {
    for count in 1..101 {
        assert!(rt; begins_with(rt.alloc(), count), "{count} users");
    }
}

// Whether a start that fails is told with its texts, and is the device's fault.
fn is_device_fault(alloc: Global) -> bool {
    let mut text = Text::new(alloc);
    let answer = show_begun(&mut text, b"mail -d $u", b"ann", b"\0");
    answer == Err(PipeFault::DeviceFault) && text.bytes() == b"!/bin/prog<-d><ann>hi\n".as_slice()
}

#[test]
fn a_start_that_fails_is_told(rt: HostRuntime) {
    assert!(rt; is_device_fault(rt.alloc()));
}

/// A text, and the value of a macro that stands for it.
static LITERALS: [(&[u8], &[u8]); 4] = [
    (b"", b""),
    (b"ann@mx", b"ann@mx"),
    (b"$a", b"$$a"),
    (b"$$\x00{$", b"$$$$\x00{$$"),
];

#[test]
fn values_stand_for_texts(rt: HostRuntime) -> Result<(), NoMemory> {
    for (at, row) in LITERALS.iter().enumerate() {
        assert!(rt; literal(rt.alloc(), row.0)?.bytes() == row.1, "row {at}");
    }
    let fit = Text::of(rt.alloc(), b"|a\nb\x01")?;
    let cut = Text::of(rt.alloc(), b"a\x00b")?;
    assert!(rt; is_argument(&fit) && !is_argument(&cut));
    Ok(())
}
