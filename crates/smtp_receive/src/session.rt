ghost use Rattle.std.specs.Prelude.{◌≡◌, ◌∷◌, ◌++◌, [], List, ℕ, Bool, Option, None, Ok, true, false, IfOk, OnErr, codes};
ghost use Rattle.mail_base.specs.Answering.{HasJudgeCause, is_calm};
ghost use Rattle.mail_base.specs.Texts.{crlf};
ghost use Rattle.smtp_receive.specs.Dialogue.{Heard, exchanges, is_dropped};
ghost use Rattle.smtp_receive.specs.Judging.{IsSteady, Said};
ghost use Rattle.smtp_receive.specs.Replies.{greeting_text, stored_text, shown_host};
ghost use Rattle.smtp_receive.specs.Sessions.{Answered, IsBounded, Stands, question_of, cleared};
ghost use Rattle.mail_base.specs.declared.config.Config.{Config as Configuration};

use crate::did::Did;
use crate::judge::Judge;
use crate::path::Path;
use crate::reply::host_text;
use mail_base::{
    Config, Draw, Id, JudgeFault, Kept, Kind, MOST_DOMAIN, NoMemory, Seq, Text, TryCopy,
    first_bytes,
};
use mail_header::Gathering;
use smtp_lines::Line;
use std::alloc::Global;

/// A session with a peer, which is given the lines of its stream in turn.
///
/// Of a message under way it keeps no more bytes than it may have, of which at most 65,536 are of
/// headers, with the ends of their lines, and at most 10,000 rows. It keeps its allocator.
#[derive(Drop)]
pub struct Session {
    /// As replies show it.
    pub(crate) host: Text,
    /// What is kept with a message: the protocol, the argument of the latest HELO or EHLO, and the
    /// peer.
    pub(crate) kept: Kept,
    pub(crate) sender: Option<Path>,
    /// Whether the sender's MAIL declares 8BITMIME.
    pub(crate) eight: bool,
    /// The rows of the recipients.
    pub(crate) rows: Seq<Draw>,
    /// How many recipients were accepted.
    pub(crate) count: u64,
    pub(crate) message: Option<Gathering>,
}

impl Session {
    /// A session of which no line has come. In replies the host is cut at [`MOST_DOMAIN`] bytes.
    pub fn new(alloc: Global, host: &Text, peer: &Text) -> Result<Session, NoMemory>
        ensures { IfOk result (λ session. (config : Configuration)
            → Stands session config host.now peer.now []) }
    {
        Ok(Session {
            host: Text::of(alloc, shown(host.bytes()))?,
            kept: first_kept(alloc, peer)?,
            sender: None,
            eight: false,
            rows: Seq::new(alloc),
            count: 0,
            message: None,
        })
    }

    /// The greeting, 220.
    pub fn greeting(&self) -> Result<Text, NoMemory>
        ensures { (config : Configuration) (host peer : List ℕ) (heard : List Heard)
            → Stands self.now config host peer heard
            → IfOk result (λ text. text ≡ greeting_text (shown_host host)) }
    {
        self.with_host(b"220 ", b" ESMTP ready")
    }

    /// Answers a line of the session's stream, under the configuration that all its lines have. The
    /// judge is asked of the path of a MAIL or an RCPT that has no fault, and of nothing else.
    ///
    /// After an error the session is as before. After `NoMemory` the caller replies 452 4.3.1 and
    /// calls [`Session::reset`]; a line that gets no reply in any case takes no memory. A
    /// `FilesFault` is the judge's, and comes at no line at which it isn't asked.
    pub fn line<J: Judge>(
        &mut self,
        line: &Line,
        config: &Config,
        judge: &mut J,
    ) -> Result<Did, JudgeFault>
        ensures answered { (host peer : List ℕ) (heard : List Heard)
            → Stands self.old config.now host peer heard
            → IfOk result (Answered (J.seen judge.old) (J.answers judge.old) self.new config.now
            host peer heard line.now) }
        ensures silent { (host peer : List ℕ) (heard : List Heard)
            → Stands self.old config.now host peer heard
            → is_dropped (exchanges config.now peer heard) line.now ≡ true
            → result ≡ Ok Did.Taken }
        ensures bounded { (host peer : List ℕ) (heard : List Heard)
            → Stands self.old config.now host peer heard
            → IfOk result (λ _. IsBounded self.new config.now) }
        ensures unasked { (host peer : List ℕ) (heard : List Heard)
            → Stands self.old config.now host peer heard
            → question_of config.now peer heard line.now ≡ None → judge.new ≡ judge.old }
        ensures quiet { (host peer : List ℕ) (heard : List Heard)
            → Stands self.old config.now host peer heard
            → question_of config.now peer heard line.now ≡ None → is_calm result ≡ true }
        ensures err { OnErr result (self.new ≡ self.old) }
        ensures cause { HasJudgeCause (J.seen judge.old).faults (J.seen judge.new).faults result }
        ensures calm { is_calm result ≡ true
            → (J.seen judge.new).faults ≡ (J.seen judge.old).faults }
        ensures steady { IsSteady (J.seen judge.old) (J.seen judge.new) (J.answers judge.old)
            (J.answers judge.new) }
        ensures fixed { J.fixed judge.new ≡ J.fixed judge.old }
    {
        self.answer(line, config, judge)
    }

    /// The final reply, 250, to the message that the last line gave, once it is stored under this
    /// id.
    #[tactic(auto, using(crate::proofs::ReplyLemmas::name_long))]
    pub fn stored(&self, id: &Id) -> Result<Text, NoMemory>
        ensures { IfOk result (λ text. text ≡ stored_text id.now) }
    {
        let name = id.name(Kind::Qf);
        let (_kind, text) = name.bytes().split_at(2);
        let back = b" Message accepted for delivery";
        host_text(self.host.allocator(), b"250 2.0.0 ", text, back)
    }

    /// Ends the transaction, after 452 4.3.1 was replied to a line. It takes no memory. Of a
    /// message under way the rest gets no reply.
    pub fn reset(&mut self)
        ensures stands { (config : Configuration) (host peer : List ℕ) (heard : List Heard)
            (line : Line) (said : Said)
            → Stands self.old config host peer heard
            → is_dropped (exchanges config peer heard) line ≡ false
            → Stands self.new config host peer
            (heard ++ record { line = line; said = said; short = true; id = None } ∷ []) }
        // The same after the end of data whose message was given, also where 452 4.3.1 was replied
        // in place of its 250.
        ensures ended { (config : Configuration) (host peer : List ℕ) (heard : List Heard)
            (said says : Said) (was is : Bool) (earlier later : Option ℕ)
            → Stands self.old config host peer
            (heard ++ record { line = Line.DataEnd; said = said; short = was; id = earlier } ∷ [])
            → Stands self.new config host peer
            (heard ++ record { line = Line.DataEnd; said = says; short = is; id = later } ∷ []) }
        ensures reset { self.new ≡ cleared self.old }
    {
        self.sender = None;
        self.eight = false;
        self.rows = Seq::new(self.host.allocator());
        self.count = 0;
        self.message = None;
    }

    pub(crate) fn with_host(&self, front: &[u8], back: &[u8]) -> Result<Text, NoMemory>
        ensures { IfOk result (λ text. text ≡ front.now ++ self.now.host ++ back.now ++ crlf) }
    {
        host_text(self.host.allocator(), front, self.host.bytes(), back)
    }
}

// What is kept of a session before its first line.
fn first_kept(alloc: Global, peer: &Text) -> Result<Kept, NoMemory>
    ensures { IfOk result
        (λ kept. kept ≡ record { protocol = codes "SMTP"; helo = []; client = peer.now }) }
{
    Ok(Kept {
        protocol: Text::of(alloc, b"SMTP")?,
        helo: Text::new(alloc),
        client: peer.copy()?,
    })
}

/// The host as replies show it.
#[tactic(auto, unfolding(crate::specs::Replies::shown_host, mail_base::specs::Limits::most_domain))]
fn shown(host: &[u8]) -> &[u8]
    ensures { result.now ≡ shown_host host.now }
{
    first_bytes(host, MOST_DOMAIN)
}
