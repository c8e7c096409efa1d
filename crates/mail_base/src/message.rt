use crate::{Draw, NoMemory, Seq, Text, TryCopy};

/// The macros that are kept with an entry.
#[derive(Drop)]
pub struct Kept {
    /// The macro r, `SMTP` or `ESMTP`.
    pub protocol: Text,
    /// The macro s, HELO's argument.
    pub helo: Text,
    /// The macro `{client_addr}`, the peer's address.
    pub client: Text,
}

/// What an entry is marked with.
#[derive(Clone, Copy, Debug, PartialEq, Eq)]
pub struct Marks {
    /// It is a bounce or a warning.
    pub bounce: bool,
    /// It is a double bounce.
    pub double: bool,
    /// A warning was sent for it.
    pub warned: bool,
}

/// A message, as it was received or made.
#[derive(Drop)]
pub struct Message {
    /// The sender, with its brackets.
    pub sender: Text,
    pub rows: Seq<Draw>,
    /// Each with its continuation lines, without the last line's end.
    pub headers: Seq<Text>,
    pub body: Text,
    /// The bytes as received.
    pub size: u64,
    /// The class of its precedence.
    pub class: i64,
    /// Whether it was declared as 8BITMIME.
    pub eight: bool,
    pub marks: Marks,
    pub kept: Kept,
}

/// Rows of a message that become one entry.
#[derive(Drop)]
pub struct Cut {
    /// The sender of these rows, with its brackets.
    pub sender: Text,
    pub group: Text,
    pub rows: Seq<Draw>,
}

/// A message that is returned, with its cuts.
#[derive(Drop)]
pub struct Back {
    pub message: Message,
    pub cuts: Seq<Cut>,
}

/// A message's text, split.
#[derive(Drop)]
pub struct Split {
    /// Each with its continuation lines, without the last line's end.
    pub headers: Seq<Text>,
    pub body: Text,
    /// The size of the header block: the bytes of its lines with CR LF.
    pub block: u64,
}

impl TryCopy for Kept {
    fn copy(&self) -> Result<Kept, NoMemory> {
        Ok(Kept {
            protocol: self.protocol.copy()?,
            helo: self.helo.copy()?,
            client: self.client.copy()?,
        })
    }
}

impl TryCopy for Message {
    fn copy(&self) -> Result<Message, NoMemory> {
        Ok(Message {
            sender: self.sender.copy()?,
            rows: self.rows.copy()?,
            headers: self.headers.copy()?,
            body: self.body.copy()?,
            size: self.size,
            class: self.class,
            eight: self.eight,
            marks: self.marks,
            kept: self.kept.copy()?,
        })
    }
}

impl TryCopy for Cut {
    fn copy(&self) -> Result<Cut, NoMemory> {
        Ok(Cut {
            sender: self.sender.copy()?,
            group: self.group.copy()?,
            rows: self.rows.copy()?,
        })
    }
}

impl TryCopy for Back {
    fn copy(&self) -> Result<Back, NoMemory> {
        Ok(Back {
            message: self.message.copy()?,
            cuts: self.cuts.copy()?,
        })
    }
}

impl TryCopy for Split {
    fn copy(&self) -> Result<Split, NoMemory> {
        Ok(Split {
            headers: self.headers.copy()?,
            body: self.body.copy()?,
            block: self.block,
        })
    }
}
