ghost use Rattle.std.specs.Prelude.{◌≡◌, ◌++◌, ◌<◌, ◌+◌, ◌-◌, ◌^◌, List, ℕ, Option, Some, None, Ok, true, false, is_some, length, nat_lt, IfOk, OnOk, OnErr};
ghost use Rattle.mail_base.specs.Answering.{is_calm};
ghost use Rattle.mail_base.specs.Limits.{message_limit, most_rows};
ghost use Rattle.mail_base.specs.Texts.{IsLine};
ghost use Rattle.smtp_lines.specs.Commands.{Mail, Rcpt};
ghost use Rattle.smtp_receive.specs.Dialogue.{bracketed, did_of, is_uncut, mail_fault, rcpt_fault, recipient_answer, sender_answer};
ghost use Rattle.smtp_receive.specs.Judging.{Answers, AsksRecipient, IsFormedSaid, OfRecipient, OfSender};
ghost use Rattle.smtp_receive.specs.Mails.{deed_of};
ghost use Rattle.smtp_receive.specs.inner.Steps as spec;
ghost use Rattle.smtp_receive.specs.inner.Steps.{Does, Uses, after, question_by};

use crate::did::Did;
use crate::judge::{Judge, Verdict};
use crate::path::Path;
use crate::reply::Reply;
use crate::request::{is_uncut, mail_fault, rcpt_fault};
use crate::session::Session;
use crate::steps::judged;
use mail_base::{Config, Draw, JudgeFault, MOST_ROWS, NoMemory, RouteError, Seq};
use std::mem;

// ---- MAIL

impl Session {
    pub(crate) fn mail<J: Judge>(
        &mut self,
        path: &[u8],
        size: Option<u128>,
        eight: bool,
        config: &Config,
        judge: &mut J,
    ) -> Result<Did, JudgeFault>
        requires { IsLine path.now }
        ensures does { IfOk result (Does (J.seen judge.old) (J.answers judge.old) self.old self.new
            config.now (Ok (Mail path.now size eight))) }
        ensures unasked { question_by config.now self.old (Some (Mail path.now size eight)) ≡ None
            → judge.new ≡ judge.old }
        ensures quiet { question_by config.now self.old (Some (Mail path.now size eight)) ≡ None
            → is_calm result ≡ true }
        ensures err { OnErr result (self.new ≡ self.old) }
        ensures uses { Uses (J.seen judge.old) (J.seen judge.new) (J.answers judge.old)
            (J.answers judge.new) result }
        ensures fixed { J.fixed judge.new ≡ J.fixed judge.old }
    {
        let limit = config.options.message_limit();
        match mail_fault(self.sender.is_some(), limit, size) {
            Some(reply) => judged(self.say(reply)),
            None => self.check_sender(path, eight, config, judge),
        }
    }

    // Puts a sender to the judge.
    fn check_sender<J: Judge>(
        &mut self,
        path: &[u8],
        eight: bool,
        config: &Config,
        judge: &mut J,
    ) -> Result<Did, JudgeFault>
        requires { IsLine path.now }
        ensures checks { IfOk result (spec.ChecksSender (J.seen judge.old) (J.answers judge.old)
            self.old self.new config.now path.now eight) }
        ensures err { OnErr result (self.new ≡ self.old) }
        ensures uses { Uses (J.seen judge.old) (J.seen judge.new) (J.answers judge.old)
            (J.answers judge.new) result }
        ensures fixed { J.fixed judge.new ≡ J.fixed judge.old }
    {
        let Ok(sender) = Path::of(self.host.allocator(), path) else {
            return Err(JudgeFault::NoMemory);
        };
        match judge.sender(self.host.allocator(), sender.text(), &self.kept) {
            Ok(refused) => judged(self.take_sender(path, sender, eight, refused, config)),
            Err(fault) => Err(fault),
        }
    }

    fn take_sender(
        &mut self,
        path: &[u8],
        sender: Path,
        eight: bool,
        refused: Option<RouteError>,
        config: &Config,
    ) -> Result<Did, NoMemory>
        requires form { IsFormedSaid (OfSender refused) }
        requires path { sender ≡ bracketed path.now }
        ensures did { IfOk result
            (λ did. deed_of did ≡ did_of self.old.host (message_limit config.now.options)
            (sender_answer refused (is_uncut config.now.options.operator_chars path.now))) }
        ensures ok { IfOk result
            (λ _. self.new ≡ spec.with_sender self.old
            (sender_answer refused (is_uncut config.now.options.operator_chars path.now))
            (bracketed path.now) eight) }
        ensures err { OnErr result (self.new ≡ self.old) }
    {
        match refused {
            Some(error) => self.refuse(&error),
            None => self.open(path, sender, eight, config),
        }
    }

    // Begins a transaction, where the path of its sender can be cut into tokens.
    fn open(
        &mut self,
        path: &[u8],
        sender: Path,
        eight: bool,
        config: &Config,
    ) -> Result<Did, NoMemory>
        requires { sender ≡ bracketed path.now }
        ensures did { IfOk result
            (λ did. deed_of did ≡ did_of self.old.host (message_limit config.now.options)
            (sender_answer None (is_uncut config.now.options.operator_chars path.now))) }
        ensures ok { IfOk result
            (λ _. self.new ≡ spec.with_sender self.old
            (sender_answer None (is_uncut config.now.options.operator_chars path.now))
            (bracketed path.now) eight) }
        ensures err { OnErr result (self.new ≡ self.old) }
    {
        if is_uncut(path, sender.text(), &config.options.operator_chars)? {
            return self.say(Reply::BadAddress);
        }
        let did = self.say(Reply::SenderOk)?;
        self.sender = Some(sender);
        self.eight = eight;
        Ok(did)
    }
}

// ---- RCPT

impl Session {
    pub(crate) fn rcpt<J: Judge>(
        &mut self,
        path: &[u8],
        config: &Config,
        judge: &mut J,
    ) -> Result<Did, JudgeFault>
        requires { IsLine path.now }
        ensures does { IfOk result (Does (J.seen judge.old) (J.answers judge.old) self.old self.new
            config.now (Ok (Rcpt path.now))) }
        ensures unasked { question_by config.now self.old (Some (Rcpt path.now)) ≡ None
            → judge.new ≡ judge.old }
        ensures quiet { question_by config.now self.old (Some (Rcpt path.now)) ≡ None
            → is_calm result ≡ true }
        ensures err { OnErr result (self.new ≡ self.old) }
        ensures uses { Uses (J.seen judge.old) (J.seen judge.new) (J.answers judge.old)
            (J.answers judge.new) result }
        ensures fixed { J.fixed judge.new ≡ J.fixed judge.old }
    {
        let limit = config.options.recipient_limit();
        match rcpt_fault(self.sender.is_some(), limit, self.count, path) {
            Some(reply) => judged(self.say(reply)),
            None => self.check_recipient(path, judge),
        }
    }

    // Puts a recipient to the judge.
    fn check_recipient<J: Judge>(&mut self, path: &[u8], judge: &mut J) -> Result<Did, JudgeFault>
        requires line { IsLine path.now }
        requires given { is_some self.old.sender ≡ true }
        requires count { self.old.count < 2 ^ 64 - 1 }
        ensures checks { (limit : ℕ)
            → IfOk result (spec.ChecksRecipient (J.seen judge.old) (J.answers judge.old) self.old
            self.new limit path.now) }
        ensures err { OnErr result (self.new ≡ self.old) }
        ensures uses { Uses (J.seen judge.old) (J.seen judge.new) (J.answers judge.old)
            (J.answers judge.new) result }
        ensures fixed { J.fixed judge.new ≡ J.fixed judge.old }
    {
        match self.verdict(path, judge) {
            Ok(verdict) => judged(self.take_verdict(verdict)),
            Err(fault) => Err(fault),
        }
    }

    fn verdict<J: Judge>(&self, path: &[u8], judge: &mut J) -> Result<Verdict, JudgeFault>
        requires line { IsLine path.now }
        requires given { is_some self.now.sender ≡ true }
        ensures answers { (sender : List ℕ) → self.now.sender ≡ Some sender
            → IfOk result (λ verdict. Answers (J.seen judge.old) (J.answers judge.old)
            (AsksRecipient (bracketed path.now) sender self.now.kept) (OfRecipient verdict)) }
        ensures form { IfOk result (λ verdict. IsFormedSaid (OfRecipient verdict)) }
        ensures uses { Uses (J.seen judge.old) (J.seen judge.new) (J.answers judge.old)
            (J.answers judge.new) result }
        ensures fixed { J.fixed judge.new ≡ J.fixed judge.old }
    {
        let Ok(recipient) = Path::of(self.host.allocator(), path) else {
            return Err(JudgeFault::NoMemory);
        };
        match &self.sender {
            Some(sender) => {
                judge.recipient(
                    self.host.allocator(),
                    recipient.text(),
                    sender.text(),
                    &self.kept,
                )
            }
            None => unreachable!(),
        }
    }

    fn take_verdict(&mut self, verdict: Verdict) -> Result<Did, NoMemory>
        requires form { IsFormedSaid (OfRecipient verdict) }
        requires count { self.old.count < 2 ^ 64 - 1 }
        ensures did { (limit : ℕ) → IfOk result
            (λ did. deed_of did ≡ did_of self.old.host limit
            (spec.verdict_answer self.old (OfRecipient verdict))) }
        ensures ok { IfOk result
            (λ _. self.new ≡ after self.old (spec.verdict_answer self.old (OfRecipient verdict))
            None (OfRecipient verdict)) }
        ensures err { OnErr result (self.new ≡ self.old) }
    {
        match verdict {
            Verdict::No(error) => self.refuse(&error),
            Verdict::Rows(rows) => self.take_rows(rows),
        }
    }

    fn take_rows(&mut self, rows: Seq<Draw>) -> Result<Did, NoMemory>
        requires { self.old.count < 2 ^ 64 - 1 }
        ensures did { (limit : ℕ) → IfOk result
            (λ did. deed_of did ≡ did_of self.old.host limit (recipient_answer None
            (nat_lt most_rows (length self.old.rows + length rows)))) }
        ensures many { IfOk result
            (λ _. nat_lt most_rows (length self.old.rows + length rows) ≡ true
            → self.new ≡ self.old) }
        ensures ok { IfOk result
            (λ _. nat_lt most_rows (length self.old.rows + length rows) ≡ false
            → self.new ≡ record self.old {
              rows = self.old.rows ++ rows;
              count = self.old.count + 1;
            }) }
        ensures err { OnErr result (self.new ≡ self.old) }
    {
        if are_too_many(self.rows.len(), rows.len()) {
            return self.say(Reply::TooManyRecipients);
        }
        let did = self.say(Reply::RecipientOk)?;
        append(&mut self.rows, rows)?;
        self.count += 1;
        Ok(did)
    }
}

#[tactic(auto, unfolding(mail_base::specs::Limits::most_rows))]
fn are_too_many(rows: usize, more: usize) -> bool
    ensures { result ≡ nat_lt most_rows (rows + more) }
{
    rows.saturating_add(more) > MOST_ROWS
}

// Adds rows at the end. After `NoMemory` they are as before.
fn append(rows: &mut Seq<Draw>, more: Seq<Draw>) -> Result<(), NoMemory>
    ensures ok { OnOk result (rows.new ≡ rows.old ++ more) }
    ensures err { OnErr result (rows.new ≡ rows.old) }
{
    let mut all = mem::replace(rows, Seq::new(rows.allocator())).into_vec();
    let mut more = more.into_vec();
    let done = all.append(&mut more);
    *rows = Seq::from_vec(all);
    Ok(done?)
}
