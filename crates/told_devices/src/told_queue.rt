// A spool whose commits are told to the log. What is seen of it is the spool's.
ghost use Rattle.std.specs.Prelude.{◌≡◌};

use crate::control_text::{tell_changes, tell_new};
use crate::log::Log;
use crate::look::Look;
use mail_base::{EdgeFault, Failed, Id, Kind, Seq, Text};
use spool_disk::Spool;
use std::alloc::Global;

/// A spool with its log, where there is one. Each control text that gets its own name is then looked
/// at behind that, and the one that had the name before it, and what isn't the same is told. A text
/// that can't be read is passed over.
pub struct ToldQueue<D> {
    pub device: D,
    alloc: Global,
    log: Option<Log>,
    /// How many bytes the last body has that was written.
    size: u64,
}

/// What had the name of a control text before it.
#[derive(Drop)]
enum Earlier {
    /// Nobody asks, or it isn't known.
    Unknown,
    Nothing,
    Text(Text),
}

// Written out, since a caller's proof goes through the parts of a derived drop at each way out.
impl<D: Drop> Drop for ToldQueue<D> {
    fn drop(self) {
        let ToldQueue {
            device: _,
            alloc: _,
            log: _,
            size: _,
        } = self;
    }
}

impl<D> ToldQueue<D> {
    pub fn new(alloc: Global, device: D, log: Option<Log>) -> ToldQueue<D>
        ensures { result.device ≡ device }
    {
        ToldQueue {
            device,
            alloc,
            log,
            size: 0,
        }
    }
}

impl<D: Look> ToldQueue<D> {
    // What has that name, which a control text is to get.
    fn earlier(&self, dir: &Text, name: &Text) -> Earlier {
        if self.log.is_none() || !is_control(name) {
            return Earlier::Unknown;
        }
        match self.device.look(self.alloc, dir, name) {
            Ok(Some(text)) => Earlier::Text(text),
            Ok(None) => Earlier::Nothing,
            Err(_) => Earlier::Unknown,
        }
    }

    // Tells what the control text says that has that name now.
    fn tell(&self, dir: &Text, name: &Text, earlier: &Earlier) {
        let Some(log) = self.log else {
            return;
        };
        if matches!(earlier, Earlier::Unknown) {
            return;
        }
        if let Ok(Some(text)) = self.device.look(self.alloc, dir, name) {
            tell_text(log, name, text.bytes(), earlier, self.size);
        }
    }
}

impl<D: Spool + Look> Spool for ToldQueue<D> {
    ghost seen = { λ t. D.seen t.device };

    fn list(&mut self, alloc: Global, dir: &Text) -> Result<Seq<Text>, EdgeFault> {
        self.device.list(alloc, dir)
    }

    fn read(&mut self, alloc: Global, dir: &Text, name: &Text) -> Result<Option<Text>, EdgeFault> {
        self.device.read(alloc, dir, name)
    }

    fn write_new(&mut self, dir: &Text, name: &Text, bytes: &Text) -> Result<(), Failed> {
        if let Some((Kind::Df, _)) = Id::of(name) {
            self.size = u64::try_from(bytes.len()).unwrap_or(u64::MAX);
        }
        self.device.write_new(dir, name, bytes)
    }

    fn rename(&mut self, dir: &Text, from: &Text, to: &Text) -> Result<(), Failed> {
        let earlier = self.earlier(dir, to);
        let went = self.device.rename(dir, from, to);
        if went.is_ok() {
            self.tell(dir, to, &earlier);
        }
        went
    }

    fn remove(&mut self, dir: &Text, name: &Text) -> Result<(), Failed> {
        self.device.remove(dir, name)
    }

    ghost only_now = { λ s c h. D.only_now s.device c h };

    ghost at_rest = { λ s. D.at_rest s.device };

    ghost earlier = { λ s t u c le h. D.earlier s.device t u c le h };
}

fn is_control(name: &Text) -> bool {
    matches!(Id::of(name), Some((Kind::Qf, _)))
}

// Tells what a control text of that name says against what had it before.
fn tell_text(log: Log, name: &Text, text: &[u8], earlier: &Earlier, size: u64) {
    let id = name.bytes().get(2..).unwrap_or(b"");
    match earlier {
        Earlier::Unknown => {}
        Earlier::Nothing => tell_new(log, id, text, size),
        Earlier::Text(before) => tell_changes(log, id, before.bytes(), text),
    }
}
