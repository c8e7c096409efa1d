use mail_base::{
    Back, Cause, Control, Cut, Draft, Draw, Entry, Id, Kept, Marks, Message, NoMemory, Note,
    Outcomes, Parent, Resolved, Result1, RouteError, Row, Seq, Split, State, Status, Stray, Text,
    Triple, TryCopy, texts_of,
};
use std::alloc::Global;
use std::test::Fail;

fn status(bytes: &[u8]) -> Result<Status, Fail> {
    Ok(Status::of(bytes).ok_or("no status")?)
}

fn note() -> Result<Note, Fail> {
    Ok(Note::of(b"exit 75").ok_or("no note")?)
}

fn kept(alloc: Global) -> Result<Kept, NoMemory> {
    Ok(Kept {
        protocol: Text::of(alloc, b"ESMTP")?,
        helo: Text::of(alloc, b"c.example")?,
        client: Text::new(alloc),
    })
}

fn marks() -> Marks {
    Marks {
        bounce: true,
        double: false,
        warned: false,
    }
}

/// Why an address goes nowhere, by its place below.
pub(crate) fn cause(alloc: Global, place: u16) -> Result<Cause, NoMemory> {
    match place {
        0 => Ok(Cause::Loop),
        1 => Ok(Cause::Deep),
        2 => Ok(Cause::Work),
        3 => Ok(Cause::NoRuleset(Text::of(alloc, b"parse")?)),
        4 => Ok(Cause::MapClass(Text::of(alloc, b"ldap")?)),
        5 => Ok(Cause::NoSuchMap(Text::of(alloc, b"users")?)),
        6 => Ok(Cause::BadScan),
        7 => Ok(Cause::Long),
        8 => Ok(Cause::BadAddress),
        9 => Ok(Cause::LongAddress),
        10 => Ok(Cause::NotResolved),
        11 => Ok(Cause::UnknownMailer(Text::of(alloc, b"uucp")?)),
        12 => Ok(Cause::NoUser),
        13 => Ok(Cause::FileMailer),
        _ => Ok(Cause::ErrorMailer),
    }
}

fn place(cause: &Cause) -> u16 {
    match cause {
        Cause::Loop => 0,
        Cause::Deep => 1,
        Cause::Work => 2,
        Cause::NoRuleset(_) => 3,
        Cause::MapClass(_) => 4,
        Cause::NoSuchMap(_) => 5,
        Cause::BadScan => 6,
        Cause::Long => 7,
        Cause::BadAddress => 8,
        Cause::LongAddress => 9,
        Cause::NotResolved => 10,
        Cause::UnknownMailer(_) => 11,
        Cause::NoUser => 12,
        Cause::FileMailer => 13,
        Cause::ErrorMailer => 14,
    }
}

/// A refusal, with the place of its cause as its code.
fn refusal(alloc: Global, place: u16) -> Result<RouteError, Fail> {
    let status = status(b"5.3.5")?;
    Ok(RouteError {
        code: place,
        text: Text::of(alloc, b"Unknown mailer uucp")?,
        cause: cause(alloc, place)?,
        status,
    })
}

fn ann(alloc: Global) -> Result<Triple, NoMemory> {
    Ok(Triple {
        mailer: Text::of(alloc, b"local")?,
        host: Text::new(alloc),
        user: Text::of(alloc, b"ann")?,
    })
}

/// Where an address goes by its place: each of the first 15 is that of a cause.
fn resolved(alloc: Global, place: u16) -> Result<Resolved, Fail> {
    if place < 15 {
        Ok(Resolved::Refuses(refusal(alloc, place)?))
    } else {
        Ok(Resolved::Goes(ann(alloc)?))
    }
}

fn draw(alloc: Global, place: u16) -> Result<Draw, Fail> {
    Ok(Draw {
        address: Text::of(alloc, b"ann@mx.example")?,
        sender: Text::of(alloc, b"<>")?,
        primary: true,
        resolved: resolved(alloc, place)?,
    })
}

/// A row for each cause, and one that goes.
fn draws(alloc: Global) -> Result<Seq<Draw>, Fail> {
    let mut rows = Seq::new(alloc);
    for place in 0..16u16 {
        rows.push(draw(alloc, place)?)?;
    }
    Ok(rows)
}

fn bounce(alloc: Global) -> Result<Message, Fail> {
    Ok(Message {
        sender: Text::of(alloc, b"<>")?,
        body: Text::of(alloc, b"hello\r\n")?,
        rows: draws(alloc)?,
        kept: kept(alloc)?,
        headers: Seq::new(alloc),
        size: 22,
        class: 0,
        eight: false,
        marks: marks(),
    })
}

fn cuts(alloc: Global) -> Result<Seq<Cut>, NoMemory> {
    let mut cuts = Seq::new(alloc);
    cuts.push(Cut {
        sender: Text::of(alloc, b"<>")?,
        group: Text::of(alloc, b"mqueue")?,
        rows: Seq::new(alloc),
    })?;
    Ok(cuts)
}

fn back(alloc: Global) -> Result<Back, Fail> {
    Ok(Back {
        cuts: cuts(alloc)?,
        message: bounce(alloc)?,
    })
}

fn is_kept(kept: &Kept) -> bool {
    kept.protocol.bytes() == b"ESMTP".as_slice()
        && kept.helo.bytes() == b"c.example".as_slice()
        && kept.client.is_empty()
}

fn is_bounce(message: &Message) -> bool {
    message.sender.bytes() == b"<>".as_slice()
        && message.body.bytes() == b"hello\r\n".as_slice()
        && message.size == 22
        && message.headers.is_empty()
        && message.marks == marks()
        && is_kept(&message.kept)
        && are_drawn(message.rows.items())
}

fn is_named(cause: &Cause) -> bool {
    match cause {
        Cause::NoRuleset(name) => name.bytes() == b"parse".as_slice(),
        Cause::UnknownMailer(name) => name.bytes() == b"uucp".as_slice(),
        _ => true,
    }
}

fn is_refusal(error: &RouteError, at: usize) -> bool {
    error.code as usize == at
        && place(&error.cause) == error.code
        && is_named(&error.cause)
        && error.status.bytes() == b"5.3.5".as_slice()
        && error.text.bytes() == b"Unknown mailer uucp".as_slice()
}

fn is_ann(triple: &Triple) -> bool {
    triple.mailer.bytes() == b"local".as_slice()
        && triple.host.is_empty()
        && triple.user.bytes() == b"ann".as_slice()
}

fn is_drawn(row: &Draw, at: usize) -> bool {
    let goes_so = match &row.resolved {
        Resolved::Goes(triple) => at == 15 && is_ann(triple),
        Resolved::Refuses(error) => is_refusal(error, at),
    };
    goes_so && row.address.bytes() == b"ann@mx.example".as_slice() && row.primary
}

fn are_drawn(rows: &[Draw]) -> bool {
    for (place, row) in rows.iter().enumerate() {
        if !is_drawn(row, place) {
            return false;
        }
    }
    rows.len() == 16
}

fn are_cut(cuts: &[Cut]) -> bool {
    match cuts {
        [cut] => {
            cut.sender.bytes() == b"<>".as_slice()
                && cut.group.bytes() == b"mqueue".as_slice()
                && cut.rows.is_empty()
        }
        _ => false,
    }
}

fn goes_back(back: &Back) -> Result<bool, Fail> {
    let copied = back.copy()?;
    Ok(is_bounce(&copied.message) && are_cut(copied.cuts.items()))
}

/// What is copied is apart from its copy.
fn is_apart(kept: &Kept) -> Result<bool, Fail> {
    let mut other = kept.copy()?;
    other.client.push(b'1')?;
    Ok(is_kept(kept) && !is_kept(&other))
}

pub(crate) fn state(place: u8) -> Result<State, Fail> {
    match place {
        0 => Ok(State::Queued(None)),
        1 => Ok(State::Queued(Some(note()?))),
        2 => Ok(State::Sent),
        3 => Ok(State::Failed(status(b"5.1.1")?, note()?)),
        4 => Ok(State::Returned(Id::new(2))),
        _ => Ok(State::Dead(status(b"5.1.1")?, note()?)),
    }
}

fn place_of(state: &State) -> u8 {
    match state {
        State::Queued(None) => 0,
        State::Queued(Some(_)) => 1,
        State::Sent => 2,
        State::Failed(_, _) => 3,
        State::Returned(_) => 4,
        State::Dead(_, _) => 5,
    }
}

/// A row of each state.
fn rows(alloc: Global) -> Result<Seq<Row>, Fail> {
    let mut rows = Seq::new(alloc);
    for place in 0..6u8 {
        let state = state(place)?;
        rows.push(Row {
            address: Text::of(alloc, b"<ann@mx.example>")?,
            primary: true,
            state,
        })?;
    }
    Ok(rows)
}

fn child(alloc: Global) -> Result<Control, Fail> {
    Ok(Control {
        revision: 3,
        parent: Some(parent()),
        group: Text::of(alloc, b"mqueue")?,
        created: 1_767_225_600,
        last_try: 0,
        tries: 0,
        priority: 30_022,
        class: -60,
        marks: marks(),
        eight: true,
        sender: Text::of(alloc, b"<>")?,
        rows: rows(alloc)?,
        headers: texts_of(alloc, &[b"Subject: hi"])?,
        kept: kept(alloc)?,
    })
}

fn parent() -> Parent {
    Parent {
        id: Id::new(1),
        revision: 2,
    }
}

fn are_rows(rows: &[Row]) -> bool {
    for (place, row) in rows.iter().enumerate() {
        let is_row = row.address.bytes() == b"<ann@mx.example>".as_slice() && row.primary;
        if !is_row || place_of(&row.state) as usize != place {
            return false;
        }
    }
    rows.len() == 6
}

fn is_child(control: &Control) -> bool {
    control.revision == 3
        && control.parent == Some(parent())
        && control.group.bytes() == b"mqueue".as_slice()
        && control.created == 1_767_225_600
        && control.priority == 30_022
        && control.class == -60
        && control.marks == marks()
        && control.eight
        && control.headers.len() == 1
        && is_kept(&control.kept)
        && are_rows(control.rows.items())
}

fn entry(alloc: Global) -> Result<Entry, Fail> {
    Ok(Entry {
        id: Id::new(7),
        dir: Text::of(alloc, b"/q")?,
        control: child(alloc)?,
    })
}

fn is_entry(entry: &Entry) -> bool {
    entry.id == Id::new(7) && entry.dir.bytes() == b"/q".as_slice() && is_child(&entry.control)
}

fn is_entry_copied(alloc: Global) -> Result<bool, Fail> {
    let entry = entry(alloc)?;
    Ok(is_entry(&entry.copy()?))
}

fn draft(alloc: Global, id: Option<Id>) -> Result<Draft, Fail> {
    Ok(Draft {
        id,
        dir: Text::of(alloc, b"/q/bulk")?,
        control: child(alloc)?,
    })
}

fn stray(alloc: Global) -> Result<Stray, NoMemory> {
    Ok(Stray {
        dir: Text::of(alloc, b"/q")?,
        name: Text::of(alloc, b"qfAAA123")?,
    })
}

fn is_draft(draft: &Draft, id: Option<Id>) -> bool {
    draft.id == id && draft.dir.bytes() == b"/q/bulk".as_slice() && is_child(&draft.control)
}

fn is_draft_copied(alloc: Global, id: Option<Id>) -> Result<bool, Fail> {
    let draft = draft(alloc, id)?;
    Ok(is_draft(&draft.copy()?, id))
}

fn is_stray(stray: &Stray) -> bool {
    stray.dir.bytes() == b"/q".as_slice() && stray.name.bytes() == b"qfAAA123".as_slice()
}

fn is_stray_copied(alloc: Global) -> Result<bool, Fail> {
    let stray = stray(alloc)?;
    Ok(is_stray(&stray.copy()?))
}

fn result(place: u8) -> Result<Result1, Fail> {
    match place {
        0 => Ok(Result1::Sent),
        1 => Ok(Result1::Deferred(note()?)),
        _ => Ok(Result1::Failed(status(b"5.1.1")?, note()?)),
    }
}

fn outcomes(alloc: Global) -> Result<Outcomes, Fail> {
    let mut results = Seq::new(alloc);
    for place in 0..3u8 {
        results.push(result(place)?)?;
    }
    Ok(Outcomes { results })
}

fn are_results(results: &[Result1]) -> bool {
    match results {
        [
            Result1::Sent,
            Result1::Deferred(later),
            Result1::Failed(status, _),
        ] => { later.bytes() == b"exit 75".as_slice() && status.bytes() == b"5.1.1".as_slice() }
        _ => false,
    }
}

fn are_outcomes_copied(alloc: Global) -> Result<bool, Fail> {
    let outcomes = outcomes(alloc)?;
    let copied = outcomes.copy()?;
    Ok(are_results(copied.results.items()))
}

fn split(alloc: Global) -> Result<Split, NoMemory> {
    Ok(Split {
        headers: Seq::new(alloc),
        body: Text::of(alloc, b"hello")?,
        block: 0,
    })
}

fn is_split_copied(split: &Split) -> Result<bool, Fail> {
    let copied = split.copy()?;
    Ok(copied.body.bytes() == b"hello".as_slice() && copied.headers.is_empty())
}

/// What is copied.
enum Kind {
    Message,
    Kept,
    Entry,
    NewDraft,
    Draft,
    Stray,
    Outcomes,
    Split,
}

static KINDS: [(Kind, &str); 8] = [
    (Kind::Message, "a message that goes back in cuts"),
    (Kind::Kept, "macros that are kept"),
    (Kind::Entry, "an entry"),
    (Kind::NewDraft, "the draft of a new entry"),
    (Kind::Draft, "the draft of an entry"),
    (Kind::Stray, "a stray file"),
    (Kind::Outcomes, "outcomes"),
    (Kind::Split, "a text that is split"),
];

fn is_copied(alloc: Global, kind: &Kind) -> Result<bool, Fail> {
    match kind {
        Kind::Message => goes_back(&back(alloc)?),
        Kind::Kept => is_apart(&kept(alloc)?),
        Kind::Entry => is_entry_copied(alloc),
        Kind::NewDraft => is_draft_copied(alloc, None),
        Kind::Draft => is_draft_copied(alloc, Some(Id::new(3))),
        Kind::Stray => is_stray_copied(alloc),
        Kind::Outcomes => are_outcomes_copied(alloc),
        Kind::Split => is_split_copied(&split(alloc)?),
    }
}

#[test]
fn copies_are_as_what_is_copied_and_marks_compared(rt: HostRuntime) -> Result<(), Fail> {
    let mut other = marks();
    assert!(rt; other == marks());
    other.warned = true;
    assert!(rt; other != marks());
    for (kind, name) in &KINDS {
        assert!(rt; is_copied(rt.alloc(), kind)?, "{name}");
    }
    Ok(())
}
