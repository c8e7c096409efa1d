ghost use Rattle.std.specs.Prelude.{◌≡◌};
ghost use Rattle.mail_base.specs.Configs.{new_group};

use crate::{NoMemory, Seq, Text, TryCopy};

/// A mailer, as an M line declares it.
pub struct Mailer {
    pub name: Text,
    /// P, the program, `[IPC]`, `[TCP]` or `[FILE]`.
    pub path: Text,
    /// F, without white space.
    pub flags: Text,
    /// S for the envelope, or `None` where no set is named.
    pub envelope_from: Option<Text>,
    /// S for headers.
    pub header_from: Option<Text>,
    /// R for the envelope.
    pub envelope_to: Option<Text>,
    /// R for headers.
    pub header_to: Option<Text>,
    /// The words of A, the program's name first. They are expanded as a message is delivered.
    pub args: Seq<Text>,
    /// E, which ends each line of what the mailer gets.
    pub line_end: Text,
    /// M, the most bytes of a message; 0 is no limit.
    pub most: u64,
    /// Q, the queue group of its rows.
    pub group: Option<Text>,
    /// r, the most rows of a batch; at least 1.
    pub batch: u64,
}

// Written out, since a caller's proof goes through the parts of a derived drop at each way out.
impl Drop for Mailer {
    fn drop(self) {
        let Mailer {
            name: _,
            path: _,
            flags: _,
            envelope_from: _,
            header_from: _,
            envelope_to: _,
            header_to: _,
            args: _,
            line_end: _,
            most: _,
            group: _,
            batch: _,
        } = self;
    }
}

/// A queue group, as a Q line declares it.
#[derive(Drop)]
pub struct Group {
    pub name: Text,
    /// Its directory.
    pub path: Text,
    /// The most recipients of an entry; 0 is no limit.
    pub recipients: u64,
    /// The most entries that are held at once; at least 1.
    pub runners: u64,
    /// The least seconds between two tries, or `None` where the Q line doesn't say.
    pub interval: Option<u64>,
    /// The most entries of one queue run; 0 is no limit.
    pub jobs: u64,
}

impl Group {
    /// The group of a name and a directory, of which no more is said.
    pub fn new(name: Text, path: Text) -> Group
        ensures { result ≡ new_group name path }
    {
        Group {
            name,
            path,
            recipients: 0,
            runners: 1,
            interval: None,
            jobs: 0,
        }
    }
}

impl TryCopy for Mailer {
    fn copy(&self) -> Result<Mailer, NoMemory> {
        Ok(Mailer {
            name: self.name.copy()?,
            path: self.path.copy()?,
            flags: self.flags.copy()?,
            envelope_from: self.envelope_from.copy()?,
            header_from: self.header_from.copy()?,
            envelope_to: self.envelope_to.copy()?,
            header_to: self.header_to.copy()?,
            args: self.args.copy()?,
            line_end: self.line_end.copy()?,
            most: self.most,
            group: self.group.copy()?,
            batch: self.batch,
        })
    }
}

impl TryCopy for Group {
    fn copy(&self) -> Result<Group, NoMemory> {
        Ok(Group {
            name: self.name.copy()?,
            path: self.path.copy()?,
            recipients: self.recipients,
            runners: self.runners,
            interval: self.interval,
            jobs: self.jobs,
        })
    }
}
