use crate::again::{Course, Device, Scene, Way, add, calls, digit, plays, write_mark};
use link_edge::{DialEvent, Dialer, Peer, ScriptDialer};
use mail_base::{Failed, NoMemory, Text, TryCopy, texts_of};
use std::alloc::Global;
use std::test::Fail;

// What is done with a dialer.
enum Act {
    // Dials that port of the host `h`, or, at 0, the socket `/s`.
    Dial(u16),
    // Reads from a line into a buffer of four bytes.
    Read(u64),
    Write(u64, &'static [u8]),
    Close(u64),
}

// A dialer by what its peers say, what is done with it, and how it goes.
struct Row {
    pieces: &'static [&'static [u8]],
    acts: &'static [Act],
    way: Way,
}

// A long reply, one that fits, and the end of the line.
const PIECES: &[&[u8]] = &[b"220 hi", b"250", b""];

const TALK: &[Act] = &[
    Act::Dial(25),
    Act::Read(1),
    Act::Read(1),
    Act::Write(1, b"QUIT"),
    Act::Read(1),
    Act::Close(1),
];

// Each call of one dialogue fails in turn.
static ROWS: [Row; 9] = [
    Row {
        pieces: PIECES,
        acts: TALK,
        way: Way {
            failing: &[],
            went: b"1+ 1>220  1>hi 1< 1>250 1x ",
            told: b"1+h25 1>220  1>hi 1<QUIT 1>250 1x ",
            faults: 0,
        },
    },
    Row {
        pieces: PIECES,
        acts: TALK,
        way: Way {
            failing: &[0],
            went: b"fail no no no no no ",
            told: b"!h25 ",
            faults: 1,
        },
    },
    // A line of which a read failed is neither read nor written to any more.
    Row {
        pieces: PIECES,
        acts: TALK,
        way: Way {
            failing: &[1],
            went: b"1+ fail no no no 1x ",
            told: b"1+h25 1?> 1x ",
            faults: 1,
        },
    },
    Row {
        pieces: PIECES,
        acts: TALK,
        way: Way {
            failing: &[2],
            went: b"1+ 1>220  fail no no 1x ",
            told: b"1+h25 1>220  1?> 1x ",
            faults: 1,
        },
    },
    // So is one of which a write failed.
    Row {
        pieces: PIECES,
        acts: TALK,
        way: Way {
            failing: &[3],
            went: b"1+ 1>220  1>hi fail no 1x ",
            told: b"1+h25 1>220  1>hi 1?< 1x ",
            faults: 1,
        },
    },
    Row {
        pieces: PIECES,
        acts: TALK,
        way: Way {
            failing: &[4],
            went: b"1+ 1>220  1>hi 1< fail 1x ",
            told: b"1+h25 1>220  1>hi 1<QUIT 1?> 1x ",
            faults: 1,
        },
    },
    // An empty piece is an end, and so is each read behind the last piece. What is closed may not
    // be read, written to or closed.
    Row {
        pieces: &[b"", b"ab"],
        acts: &[
            Act::Dial(0),
            Act::Read(1),
            Act::Read(1),
            Act::Read(1),
            Act::Close(1),
            Act::Read(1),
            Act::Write(1, b"a"),
            Act::Close(1),
        ],
        way: Way {
            failing: &[],
            went: b"1+ 1> 1>ab 1> 1x no no no ",
            told: b"1+/s 1> 1>ab 1> 1x ",
            faults: 0,
        },
    },
    // Lines have numbers of their own, and a failed dial takes none.
    Row {
        pieces: &[b"a", b"b"],
        acts: &[
            Act::Dial(0),
            Act::Dial(26),
            Act::Dial(27),
            Act::Read(2),
            Act::Read(1),
            Act::Close(1),
            Act::Close(2),
        ],
        way: Way {
            failing: &[1],
            went: b"1+ fail 2+ 2>a 1>b 1x 2x ",
            told: b"1+/s !h26 2+h27 2>a 1>b 1x 2x ",
            faults: 1,
        },
    },
    // Peers without pieces say nothing.
    Row {
        pieces: &[],
        acts: &[Act::Dial(25), Act::Read(1), Act::Read(1)],
        way: Way {
            failing: &[],
            went: b"1+ 1> 1> ",
            told: b"1+h25 1> 1> ",
            faults: 0,
        },
    },
];

fn peer(alloc: Global, port: u16) -> Result<Peer, NoMemory> {
    if port == 0 {
        return Ok(Peer::Path(Text::of(alloc, b"/s")?));
    }
    Ok(Peer::Host {
        address: Text::of(alloc, b"h")?,
        port,
    })
}

fn dial(dialer: &mut ScriptDialer, port: u16, went: &mut Text) -> Result<(), NoMemory> {
    let peer = peer(went.allocator(), port)?;
    match dialer.dial(&peer) {
        Ok(line) => write_mark(went, line, b"+", b""),
        Err(Failed) => went.extend(b"fail "),
    }
}

// A line is read, written to and closed only where it may be.
fn read(dialer: &mut ScriptDialer, line: u64, went: &mut Text) -> Result<(), NoMemory> {
    if !dialer.is_sound(line) {
        return went.extend(b"no ");
    }
    let mut buf = [0u8; 4];
    match dialer.read(line, &mut buf) {
        Ok(count) => write_mark(went, line, b">", &buf[..count]),
        Err(Failed) => went.extend(b"fail "),
    }
}

fn write(
    dialer: &mut ScriptDialer,
    line: u64,
    bytes: &[u8],
    went: &mut Text,
) -> Result<(), NoMemory> {
    if !dialer.is_sound(line) {
        return went.extend(b"no ");
    }
    let bytes = Text::of(went.allocator(), bytes)?;
    match dialer.write(line, &bytes) {
        Ok(()) => write_mark(went, line, b"<", b""),
        Err(Failed) => went.extend(b"fail "),
    }
}

fn close(dialer: &mut ScriptDialer, line: u64, went: &mut Text) -> Result<(), NoMemory> {
    if !dialer.is_open(line) {
        return went.extend(b"no ");
    }
    dialer.close(line);
    write_mark(went, line, b"x", b"")
}

fn write_event(text: &mut Text, event: &DialEvent) -> Result<(), NoMemory> {
    match event {
        DialEvent::Dialled { peer, line, .. } => write_peer(text, &digit(*line), b"+", peer),
        DialEvent::Undialled { peer, .. } => write_peer(text, b"", b"!", peer),
        DialEvent::Read(line, bytes) => write_mark(text, *line, b">", bytes.bytes()),
        DialEvent::Unread(line) => write_mark(text, *line, b"?>", b""),
        DialEvent::Wrote(line, bytes) => write_mark(text, *line, b"<", bytes.bytes()),
        DialEvent::Unwritten(line) => write_mark(text, *line, b"?<", b""),
        DialEvent::Closed(line) => write_mark(text, *line, b"x", b""),
    }
}

// A line, how its dial went, and its peer, whose port is written by its last two digits.
fn write_peer(text: &mut Text, line: &[u8], mark: &[u8], peer: &Peer) -> Result<(), NoMemory> {
    match peer {
        Peer::Host { address, port } => {
            add(text, &[line, mark, address.bytes()])?;
            add(
                text,
                &[&digit(*port as u64 / 10), &digit(*port as u64), b" "],
            )
        }
        Peer::Path(path) => add(text, &[line, mark, path.bytes(), b" "]),
    }
}

impl Device for ScriptDialer {
    fn counts(&self) -> (u64, u64) {
        (self.calls.faults, self.starved)
    }

    fn failures(&self) -> (u64, u64) {
        let mut shown = 0u64;
        let mut hidden = self.missed;
        for event in self.seen() {
            match event {
                DialEvent::Dialled { missed, .. } => hidden = hidden.saturating_add(*missed),
                DialEvent::Undialled { missed, .. } => {
                    hidden = hidden.saturating_add(*missed);
                    shown = shown.saturating_add(1);
                }
                DialEvent::Unread(_) => shown = shown.saturating_add(1),
                DialEvent::Unwritten(_) => shown = shown.saturating_add(1),
                _ => {}
            }
        }
        (shown, hidden)
    }

    fn told(&self, alloc: Global) -> Result<Text, NoMemory> {
        let mut text = Text::new(alloc);
        for event in self.seen() {
            write_event(&mut text, event)?;
        }
        Ok(text)
    }
}

impl Scene<ScriptDialer> for Row {
    fn way(&self) -> &Way {
        &self.way
    }

    fn device(&self, alloc: Global, failing: &[u64]) -> Result<ScriptDialer, NoMemory> {
        let failing = calls(alloc, failing)?;
        Ok(ScriptDialer::new(alloc, texts_of(alloc, self.pieces)?, failing))
    }

    fn play(&self, device: &mut ScriptDialer, went: &mut Course) -> Result<(), NoMemory> {
        for act in self.acts {
            let call = device.calls.calls;
            let done = match act {
                Act::Dial(port) => dial(device, *port, &mut went.text),
                Act::Read(line) => read(device, *line, &mut went.text),
                Act::Write(line, bytes) => write(device, *line, bytes, &mut went.text),
                Act::Close(line) => close(device, *line, &mut went.text),
            };
            done?;
            went.note(call)?;
        }
        Ok(())
    }
}

#[test]
fn peers_say_their_pieces_and_the_list_decides(rt: HostRuntime) -> Result<(), Fail> {
    for (at, row) in ROWS.iter().enumerate() {
        assert!(rt; plays::<ScriptDialer, Row>(rt.alloc(), row)?, "row {at}");
    }
    Ok(())
}

// Whether a peer is what is made for that port.
fn is_made(peer: &Peer, made: u16) -> bool {
    match peer {
        Peer::Host { address, port } => {
            *port == made && made > 0 && address.bytes() == b"h".as_slice()
        }
        Peer::Path(path) => made == 0 && path.bytes() == b"/s".as_slice(),
    }
}

fn is_copied(alloc: Global, port: u16) -> Result<bool, NoMemory> {
    let peer = peer(alloc, port)?;
    Ok(is_made(&peer.copy()?, port))
}

#[test]
fn a_peer_is_copied(rt: HostRuntime) {
    for port in b"\x00\x19" {
        assert!(rt;
            is_copied(rt.alloc(), *port as u16) == Ok(true),
            "port {port}"
        );
    }
}
