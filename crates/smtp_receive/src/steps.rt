ghost use Rattle.std.specs.Prelude.{◌≡◌, List, ℕ, Some, None, Ok, true, false, IfOk, OnOk, OnErr};
ghost use Rattle.mail_base.specs.Answering.{is_calm};
ghost use Rattle.mail_base.specs.Limits.{message_limit};
ghost use Rattle.mail_base.specs.Refusals.{IsRefusal};
ghost use Rattle.smtp_lines.specs.Commands.{Ehlo, Helo};
ghost use Rattle.smtp_lines.specs.Reading.{order_of};
ghost use Rattle.smtp_receive.specs.Dialogue.{Exchange, asked, read_in};
ghost use Rattle.smtp_receive.specs.Mails.{Parted, Replied, deed_of};
ghost use Rattle.smtp_receive.specs.Replies.{closing_text, extended_text, hello_text, refusal_text, text_of};
ghost use Rattle.smtp_receive.specs.Sessions.{Keeps, cleared};
ghost use Rattle.smtp_receive.specs.inner.Steps as spec;
ghost use Rattle.smtp_receive.specs.inner.Steps.{Does, Goes, Uses, greeted, is_data, is_text, question_by};

use crate::did::Did;
use crate::judge::Judge;
use crate::reply::{Reply, extended, refusal};
use crate::request::{fault_reply, order};
use crate::session::Session;
use mail_base::{Command, Config, JudgeFault, NoMemory, RouteError, Text};
use smtp_lines::Line;

// ---- lines

impl Session {
    pub(crate) fn answer<J: Judge>(
        &mut self,
        line: &Line,
        config: &Config,
        judge: &mut J,
    ) -> Result<Did, JudgeFault>
        ensures goes { (host peer : List ℕ) (before : List Exchange)
            → Keeps self.old config.now host peer before
            → IfOk result (Goes (J.seen judge.old) (J.answers judge.old) self.new config.now
            host peer before line.now) }
        ensures silent { self.old.message ≡ None → is_data line.now ≡ true
            → result ≡ Ok Did.Taken }
        ensures unasked { question_by config.now self.old (asked line.now) ≡ None
            → judge.new ≡ judge.old }
        ensures quiet { question_by config.now self.old (asked line.now) ≡ None
            → is_calm result ≡ true }
        ensures err { OnErr result (self.new ≡ self.old) }
        ensures uses { Uses (J.seen judge.old) (J.seen judge.new) (J.answers judge.old)
            (J.answers judge.new) result }
        ensures fixed { J.fixed judge.new ≡ J.fixed judge.old }
    {
        match line {
            Line::Data(text) => match self.data(text.bytes(), config) {
                Ok(()) => Ok(Did::Taken),
                Err(_) => Err(JudgeFault::NoMemory),
            },
            Line::Command(_) | Line::TooLong | Line::DataEnd => self.reply_to(line, config, judge),
        }
    }

    // Answers a line that isn't of a message. It is apart from `answer` since its results are large
    // and lines of a message are many: on its way each of them would pay for moving one.
    fn reply_to<J: Judge>(
        &mut self,
        line: &Line,
        config: &Config,
        judge: &mut J,
    ) -> Result<Did, JudgeFault>
        requires told { is_text line.now ≡ false }
        ensures goes { (host peer : List ℕ) (before : List Exchange)
            → Keeps self.old config.now host peer before
            → IfOk result (Goes (J.seen judge.old) (J.answers judge.old) self.new config.now
            host peer before line.now) }
        ensures silent { self.old.message ≡ None → is_data line.now ≡ true
            → result ≡ Ok Did.Taken }
        ensures unasked { question_by config.now self.old (asked line.now) ≡ None
            → judge.new ≡ judge.old }
        ensures quiet { question_by config.now self.old (asked line.now) ≡ None
            → is_calm result ≡ true }
        ensures err { OnErr result (self.new ≡ self.old) }
        ensures uses { Uses (J.seen judge.old) (J.seen judge.new) (J.answers judge.old)
            (J.answers judge.new) result }
        ensures fixed { J.fixed judge.new ≡ J.fixed judge.old }
    {
        match line {
            Line::Command(text) => self.command(text.bytes(), config, judge),
            Line::TooLong => judged(self.say(Reply::LineTooLong)),
            Line::Data(_) => unreachable!(),
            Line::DataEnd => judged(self.data_end(config)),
        }
    }

    fn command<J: Judge>(
        &mut self,
        line: &[u8],
        config: &Config,
        judge: &mut J,
    ) -> Result<Did, JudgeFault>
        ensures does { IfOk result (Does (J.seen judge.old) (J.answers judge.old) self.old self.new
            config.now (order_of line.now)) }
        ensures unasked { question_by config.now self.old (read_in (order_of line.now)) ≡ None
            → judge.new ≡ judge.old }
        ensures quiet { question_by config.now self.old (read_in (order_of line.now)) ≡ None
            → is_calm result ≡ true }
        ensures err { OnErr result (self.new ≡ self.old) }
        ensures uses { Uses (J.seen judge.old) (J.seen judge.new) (J.answers judge.old)
            (J.answers judge.new) result }
        ensures fixed { J.fixed judge.new ≡ J.fixed judge.old }
    {
        match order(line) {
            Ok(Command::Helo(argument)) => judged(self.helo(argument)),
            Ok(Command::Ehlo(argument)) => judged(self.ehlo(argument, config)),
            Ok(Command::Mail { path, size, eight }) => self.mail(path, size, eight, config, judge),
            Ok(Command::Rcpt { path }) => self.rcpt(path, config, judge),
            Ok(Command::Data) => judged(self.begin_data()),
            Ok(Command::Rset) => judged(self.rset()),
            Ok(Command::Noop) => judged(self.say(Reply::Okay)),
            Ok(Command::Quit) => judged(self.quit()),
            Ok(Command::Vrfy) => judged(self.say(Reply::CannotVerify)),
            Ok(Command::Expn) => judged(self.say(Reply::NotAvailable)),
            Ok(Command::Help) => judged(self.say(Reply::SeeStandard)),
            Err(fault) => judged(self.say(fault_reply(self.sender.is_some(), fault))),
        }
    }

    pub(crate) fn say(&self, reply: Reply) -> Result<Did, NoMemory>
        ensures { IfOk result (λ did. deed_of did ≡ Replied (text_of reply)) }
    {
        Ok(Did::Reply(reply.text(self.host.allocator())?))
    }

    pub(crate) fn refuse(&self, error: &RouteError) -> Result<Did, NoMemory>
        requires { IsRefusal error.now }
        ensures { IfOk result (λ did. deed_of did ≡ Replied (refusal_text error.now)) }
    {
        Ok(Did::Reply(refusal(self.host.allocator(), error)?))
    }
}

// What a call that asks no judge has done.
pub(crate) fn judged(done: Result<Did, NoMemory>) -> Result<Did, JudgeFault>
    ensures is { result ≡ spec.judged done }
    ensures calm { is_calm result ≡ true }
{
    match done {
        Ok(did) => Ok(did),
        Err(_) => Err(JudgeFault::NoMemory),
    }
}

// ---- HELO, EHLO, RSET and QUIT

impl Session {
    fn helo(&mut self, argument: &[u8]) -> Result<Did, NoMemory>
        ensures did { IfOk result (λ did. deed_of did ≡ Replied (hello_text self.old.host)) }
        ensures ok { IfOk result
            (λ _. self.new ≡ greeted self.old (Some (Helo argument.now))) }
        ensures err { OnErr result (self.new ≡ self.old) }
    {
        let reply = self.with_host(b"250 ", b" Hello")?;
        self.greet(b"SMTP", argument)?;
        Ok(Did::Reply(reply))
    }

    fn ehlo(&mut self, argument: &[u8], config: &Config) -> Result<Did, NoMemory>
        ensures did { IfOk result (λ did. deed_of did
            ≡ Replied (extended_text self.old.host (message_limit config.now.options))) }
        ensures ok { IfOk result
            (λ _. self.new ≡ greeted self.old (Some (Ehlo argument.now))) }
        ensures err { OnErr result (self.new ≡ self.old) }
    {
        let limit = config.options.message_limit();
        let reply = extended(self.host.allocator(), self.host.bytes(), limit)?;
        self.greet(b"ESMTP", argument)?;
        Ok(Did::Reply(reply))
    }

    fn greet(&mut self, protocol: &[u8], argument: &[u8]) -> Result<(), NoMemory>
        ensures ok { OnOk result (self.new ≡ record (cleared self.old) {
          kept = record self.old.kept { protocol = protocol.now; helo = argument.now };
        }) }
        ensures err { OnErr result (self.new ≡ self.old) }
    {
        let protocol = Text::of(self.host.allocator(), protocol)?;
        let helo = Text::of(self.host.allocator(), argument)?;
        self.kept.protocol = protocol;
        self.kept.helo = helo;
        self.reset();
        Ok(())
    }

    fn rset(&mut self) -> Result<Did, NoMemory>
        ensures did { IfOk result (λ did. deed_of did ≡ Replied (text_of Reply.ResetState)) }
        ensures ok { IfOk result (λ _. self.new ≡ cleared self.old) }
        ensures err { OnErr result (self.new ≡ self.old) }
    {
        let did = self.say(Reply::ResetState)?;
        self.reset();
        Ok(did)
    }

    fn quit(&self) -> Result<Did, NoMemory>
        ensures { IfOk result (λ did. deed_of did ≡ Parted (closing_text self.now.host)) }
    {
        Ok(Did::Bye(self.with_host(b"221 2.0.0 ", b" closing connection")?))
    }
}
