ghost use Rattle.std.specs.Prelude.{◌≡◌, ◌<◌, ◌≤◌, List, ℕ, Option, None, Ok, false, length, IfOk, IsOk, OnOk, OnErr};
ghost use Rattle.mail_base.specs.Limits.{message_limit, most_headers};
ghost use Rattle.smtp_receive.specs.Dialogue.{data_answer, did_of, with_text};
ghost use Rattle.smtp_receive.specs.Mails.{deed_of};
ghost use Rattle.smtp_receive.specs.Replies.{text_of};
ghost use Rattle.smtp_receive.specs.Sessions.{Holds, cleared};
ghost use Rattle.smtp_receive.specs.inner.Steps as spec;
ghost use Rattle.smtp_receive.specs.inner.Steps.{BeginsMessage, end_of, given_by};

use crate::did::Did;
use crate::ending::{End, ending, has_looped};
use crate::path::Path;
use crate::reply::{Reply, grant};
use crate::session::Session;
use mail_base::{Config, Draw, Kept, Marks, Message, NoMemory, Seq, Text, TryCopy};
use mail_header::{Gathering, class_of};
use smtp_lines::Line;
use std::mem;

impl Session {
    pub(crate) fn begin_data(&mut self) -> Result<Did, NoMemory>
        ensures did { (limit : ℕ) → IfOk result
            (λ did. deed_of did ≡ did_of self.old.host limit (data_answer self.old.count)) }
        ensures refused { IfOk result (λ _. self.old.count ≡ 0 → self.new ≡ self.old) }
        ensures ok { IfOk result (λ _. 0 < self.old.count
            → (limit : ℕ) → BeginsMessage limit self.old self.new) }
        ensures err { OnErr result (self.new ≡ self.old) }
    {
        if self.count == 0 {
            return self.say(Reply::NeedRcpt);
        }
        let reply = grant(self.host.allocator())?;
        self.message = Some(Gathering::new(self.host.allocator()));
        Ok(Did::Granted(reply))
    }

    pub(crate) fn data(&mut self, line: &[u8], config: &Config) -> Result<(), NoMemory>
        ensures ok { OnOk result (spec.AddsLine (message_limit config.now.options)
            self.old self.new line.now) }
        ensures silent { self.old.message ≡ None → IsOk result }
        ensures err { OnErr result (self.new ≡ self.old) }
    {
        add_line(&mut self.message, line, config)
    }

    pub(crate) fn data_end(&mut self, config: &Config) -> Result<Did, NoMemory>
        ensures did { spec.IsSmallIfSome self.old.message
            → IfOk result (spec.Ends config.now self.old) }
        ensures ok { IfOk result (λ _. self.new ≡ cleared self.old) }
        ensures silent { self.old.message ≡ None → result ≡ Ok Did.Taken }
        ensures err { OnErr result (self.new ≡ self.old) }
    {
        match self.ending(config.options.message_limit()) {
            End::Nothing => {
                self.reset();
                Ok(Did::Taken)
            }
            End::Refused(reply) => {
                let did = self.say(reply)?;
                self.reset();
                Ok(did)
            }
            End::Whole => {
                let kept = self.kept.copy()?;
                let refusal = Reply::TooManyHops.text(self.host.allocator())?;
                Ok(self.give(kept, refusal, config))
            }
        }
    }

    fn ending(&self, limit: u64) -> End
        ensures { result ≡ end_of limit self.now.sender self.now.message }
    {
        match (&self.sender, &self.message) {
            (Some(_), Some(message)) => ending(message, limit),
            _ => End::Nothing,
        }
    }

    // Gives the message under way, or says what refuses it where it has passed too many hosts.
    // Either ends the transaction.
    fn give(&mut self, kept: Kept, refusal: Text, config: &Config) -> Did
        requires { refusal ≡ text_of Reply.TooManyHops }
        ensures did { spec.IsSmallIfSome self.old.message
            → deed_of result ≡ given_by config.now self.old kept }
        ensures ok { self.new ≡ cleared self.old }
    {
        let eight = self.eight;
        let rows = mem::replace(&mut self.rows, Seq::new(self.host.allocator()));
        let sender = self.sender.take();
        let message = self.message.take();
        self.reset();
        match (sender, message) {
            (Some(sender), Some(message)) => {
                message_or(refusal, message, sender, rows, eight, kept, config)
            }
            _ => Did::Taken,
        }
    }
}

fn add_line(message: &mut Option<Gathering>, line: &[u8], config: &Config) -> Result<(), NoMemory>
    ensures ok { OnOk result ((lines : Option (List (List ℕ)))
        → Holds (message_limit config.now.options) message.old lines
        → Holds (message_limit config.now.options) message.new
        (with_text (Line.Data line.now) lines)) }
    ensures silent { message.old ≡ None → IsOk result }
    ensures err { OnErr result (message.new ≡ message.old) }
{
    match message {
        Some(gathering) => gathering.add(line, config.options.message_limit()),
        None => Ok(()),
    }
}

// The message of the lines that were gathered, or what refuses it.
fn message_or(
    refusal: Text,
    message: Gathering,
    sender: Path,
    rows: Seq<Draw>,
    eight: bool,
    kept: Kept,
    config: &Config,
) -> Did
    requires { refusal ≡ text_of Reply.TooManyHops }
    ensures { length message.headers ≤ most_headers
        → deed_of result ≡ spec.given_or config.now message sender rows eight kept }
{
    let size = message.size();
    let split = message.into_split();
    if has_looped(&split.headers, config.options.max_hop_count) {
        return Did::Reply(refusal);
    }
    let class = class_of(config, &split.headers);
    Did::Message(Message {
        sender: sender.into_text(),
        rows,
        headers: split.headers,
        body: split.body,
        size,
        class,
        eight,
        marks: NO_MARKS,
        kept,
    })
}

const NO_MARKS: Marks = Marks {
    bounce: false,
    double: false,
    warned: false,
};
