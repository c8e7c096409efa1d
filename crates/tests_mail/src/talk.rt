use crate::headers::add_class;
use crate::texts::add;
use judge_samples::TestJudge;
use mail_base::{Config, Id, JudgeFault, Kept, Message, NoMemory, Seq, Text};
use smtp_lines::{Line, Lines};
use smtp_receive::{Did, Session};
use std::alloc::Global;

/// What a session is given, a line or several behind that, and what is said to these.
pub(crate) type Row = (&'static [u8], &'static [u8], &'static [u8]);

/// The limits that a configuration sets, each 0 where it says nothing.
pub(crate) struct Limits {
    pub(crate) size: u64,
    pub(crate) recipients: u64,
    pub(crate) hops: u64,
}

pub(crate) static NO_LIMITS: Limits = Limits {
    size: 0,
    recipients: 0,
    hops: 0,
};

/// A session with its reader, under a configuration, and what was said in it after its greeting:
/// its replies, `+` for a line of data, `!` where a file can't be read, and for a message its
/// sender, its rows, headers in braces, body in brackets, the three macros, whether it was declared
/// as 8BITMIME, and its class.
pub(crate) struct Talk {
    session: Session,
    reader: Lines,
    config: Config,
    pub(crate) said: Text,
}

// Written out, since a caller's proof goes through the parts of a derived drop at each way out.
impl Drop for Talk {
    fn drop(self) {
        let Talk {
            session: _,
            reader: _,
            config: _,
            said: _,
        } = self;
    }
}

impl Talk {
    pub(crate) fn new(alloc: Global, limits: &Limits) -> Result<Talk, NoMemory> {
        Ok(Talk {
            config: config_of(alloc, limits)?,
            session: session_of(alloc)?,
            reader: Lines::new(alloc),
            said: Text::new(alloc),
        })
    }

    /// Takes a part of a stream with at most eight lines DATA.
    pub(crate) fn take(&mut self, stream: &[u8]) -> Result<(), NoMemory> {
        let fresh = self.reader.feed(stream)?;
        self.hear(&fresh)?;
        for _ in 0..8 {
            self.take_more()?;
        }
        Ok(())
    }

    /// Goes on as behind a want of memory.
    pub(crate) fn reset(&mut self) {
        self.session.reset();
    }

    pub(crate) fn greet(&mut self) -> Result<(), NoMemory> {
        let greeting = self.session.greeting()?;
        self.said.extend(greeting.bytes())
    }

    fn take_more(&mut self) -> Result<(), NoMemory> {
        let fresh = self.reader.more()?;
        self.hear(&fresh)
    }

    fn hear(&mut self, lines: &Seq<Line>) -> Result<(), NoMemory> {
        for line in lines.items() {
            self.answer(line)?;
        }
        Ok(())
    }

    fn answer(&mut self, line: &Line) -> Result<(), NoMemory> {
        match self.session.line(line, &self.config, &mut TestJudge::new()) {
            Ok(did) => self.tell(&did),
            Err(JudgeFault::FilesFault) => self.said.extend(b"!"),
            Err(JudgeFault::NoMemory) => Err(NoMemory),
        }
    }

    fn tell(&mut self, did: &Did) -> Result<(), NoMemory> {
        match did {
            Did::Granted(text) => {
                if self.reader.may_turn() {
                    self.reader.data();
                }
                self.said.extend(text.bytes())
            }
            Did::Reply(text) | Did::Bye(text) => self.said.extend(text.bytes()),
            Did::Taken => self.said.extend(b"+"),
            Did::Message(message) => self.store(message),
        }
    }

    fn store(&mut self, message: &Message) -> Result<(), NoMemory> {
        show(&mut self.said, message)?;
        let stored = self.session.stored(&Id::new(1))?;
        self.said.extend(stored.bytes())
    }
}

fn session_of(alloc: Global) -> Result<Session, NoMemory> {
    let host = Text::of(alloc, b"localhost")?;
    Session::new(alloc, &host, &Text::of(alloc, b"10.0.0.1")?)
}

fn show(said: &mut Text, message: &Message) -> Result<(), NoMemory> {
    said.extend(message.sender.bytes())?;
    for row in message.rows.items() {
        said.extend(row.address.bytes())?;
    }
    for header in message.headers.items() {
        add(said, &[b"{", header.bytes(), b"}"])?;
    }
    add(said, &[b"[", message.body.bytes(), b"] "])?;
    show_kept(said, &message.kept)?;
    let eight: &[u8] = if message.eight { b" 8BITMIME" } else { b"" };
    let class: &[u8] = if message.class == -60 { b" bulk" } else { b"" };
    add(said, &[eight, class, b"\r\n"])
}

fn show_kept(said: &mut Text, kept: &Kept) -> Result<(), NoMemory> {
    let (protocol, helo) = (kept.protocol.bytes(), kept.helo.bytes());
    add(said, &[protocol, b" ", helo, b" ", kept.client.bytes()])
}

/// The configuration with the classes of `bulk` and `special-delivery`.
fn config_of(alloc: Global, limits: &Limits) -> Result<Config, NoMemory> {
    let mut config = Config::new(alloc)?;
    config.options.max_message_size = limits.size;
    config.options.max_recipients_per_message = limits.recipients;
    if limits.hops > 0 {
        config.options.max_hop_count = limits.hops;
    }
    add_class(&mut config, b"special-delivery", 100)?;
    add_class(&mut config, b"bulk", -60)?;
    Ok(config)
}
