ghost use Rattle.std.specs.Prelude.{◌≡◌, ◌-◌, Ok};
ghost use Rattle.command_line.specs.inner.Words.{Adds, Gives, Takes, asked, judged, nothing, timed, wait_said, with_dashed, with_file, with_lone, with_new, with_option, with_plain, with_wait, with_word};

use crate::fault::WordFault;
use crate::mail::{is_dashed, is_mail, names_someone, no_mail, take_address, take_mail, take_text};
use crate::mode::{DEFAULT_FILE, Job, Mode};
use crate::word::{job_of, wait_of};
use mail_base::{Text, TryCopy};
use mail_submit::SubmitWords;
use std::alloc::Global;

/// The seconds of a `-q`, and the place of its word.
#[derive(Clone, Copy)]
pub(crate) struct Wait {
    pub(crate) seconds: u64,
    pub(crate) place: u32,
}

/// What the next word is, whatever it begins with.
#[derive(Clone, Copy)]
pub(crate) enum Awaited {
    /// The name of a `-C`.
    File,
    /// The text of a `-f`.
    Sender,
}

/// What the words so far say: a mode, a configuration file, a time, what is said of mail, and what
/// the next word is.
#[derive(Drop)]
pub(crate) struct Saying {
    pub(crate) job: Option<Job>,
    pub(crate) file: Option<Text>,
    pub(crate) wait: Option<Wait>,
    pub(crate) mail: SubmitWords,
    pub(crate) awaits: Option<Awaited>,
}

// A job with the time of a `-q`, which a daemon alone has.
fn timed(job: Job, wait: Option<Wait>) -> Result<Job, WordFault>
    ensures { Gives result (timed job wait) }
{
    let Some(wait) = wait else {
        return Ok(job);
    };
    match job {
        Job::Daemon { .. } => Ok(Job::Daemon {
            wait: Some(wait.seconds),
        }),
        _ => Err(WordFault::At(wait.place)),
    }
}

// The job that is said: that of the mode, or mail handed over where it goes to someone.
fn asked(job: Option<Job>, mail: SubmitWords) -> Option<Job>
    ensures { result ≡ asked job mail }
{
    if job.is_some() {
        return job;
    }
    if names_someone(&mail) {
        return Some(Job::Submit(mail));
    }
    None
}

// The place of a `-f`, by that of the word behind it.
fn before(place: u32) -> u32
    ensures { result ≡ place - 1 }
{
    place.saturating_sub(1)
}

impl Saying {
    /// Nothing is said.
    pub(crate) fn new(alloc: Global) -> Saying
        ensures { result ≡ nothing }
    {
        Saying {
            job: None,
            file: None,
            wait: None,
            mail: no_mail(alloc),
            awaits: None,
        }
    }

    /// Takes a word, unless it is no option, can't stand there or is the second of its kind.
    pub(crate) fn take(&mut self, alloc: Global, word: &Text, place: u32) -> Result<(), WordFault>
        ensures { Takes result (with_word self.old word.now place) self.new }
    {
        match self.awaits {
            None => self.take_new(alloc, word.bytes(), place),
            Some(Awaited::File) => {
                self.file = Some(word.copy()?);
                self.awaits = None;
                Ok(())
            }
            Some(Awaited::Sender) => {
                self.awaits = None;
                take_text(&mut self.mail, alloc, word.bytes(), before(place))
            }
        }
    }

    // Takes a word that nothing awaits.
    fn take_new(&mut self, alloc: Global, word: &[u8], place: u32) -> Result<(), WordFault>
        ensures { Adds result (with_new self.old word.now place) self.new place }
    {
        if is_dashed(word) {
            self.take_dashed(alloc, word, place)
        } else {
            self.take_plain(alloc, word, place)
        }
    }

    // Takes a word that begins with `-`.
    fn take_dashed(&mut self, alloc: Global, word: &[u8], place: u32) -> Result<(), WordFault>
        ensures { Adds result (with_dashed self.old word.now place) self.new place }
    {
        if let Some(job) = job_of(alloc, word)? {
            if self.job.is_some() || is_mail(&self.mail) {
                return Err(WordFault::At(place));
            }
            self.job = Some(job);
            return Ok(());
        }
        match word.strip_prefix(b"-C") {
            Some(name) => self.take_file(alloc, name, place),
            None => self.take_wait(alloc, word, place),
        }
    }

    // Takes a word that is an address, unless there is a mode.
    fn take_plain(&mut self, alloc: Global, word: &[u8], place: u32) -> Result<(), WordFault>
        ensures { Adds result (with_plain self.old word.now) self.new place }
    {
        if self.job.is_some() {
            return Err(WordFault::At(place));
        }
        take_address(&mut self.mail, alloc, word, place)
    }

    // Takes a `-C` with what stands behind it in its word.
    fn take_file(&mut self, alloc: Global, name: &[u8], place: u32) -> Result<(), WordFault>
        ensures { Adds result (with_file self.old name.now) self.new place }
    {
        if self.file.is_some() {
            return Err(WordFault::At(place));
        }
        if name.is_empty() {
            self.awaits = Some(Awaited::File);
        } else {
            self.file = Some(Text::of(alloc, name)?);
        }
        Ok(())
    }

    // Takes a `-q` with a time, or else an option of mail.
    fn take_wait(&mut self, alloc: Global, word: &[u8], place: u32) -> Result<(), WordFault>
        ensures { Adds result (with_wait self.old word.now (wait_said word.now) place)
            self.new place }
    {
        let Some(seconds) = wait_of(alloc, word)? else {
            return self.take_option(alloc, word, place);
        };
        if self.wait.is_some() {
            return Err(WordFault::At(place));
        }
        self.wait = Some(Wait { seconds, place });
        Ok(())
    }

    // Takes an option of mail, unless there is a mode.
    fn take_option(&mut self, alloc: Global, word: &[u8], place: u32) -> Result<(), WordFault>
        ensures { Adds result (with_option self.old word.now) self.new place }
    {
        if self.job.is_some() {
            return Err(WordFault::At(place));
        }
        match word {
            b"-f" => self.take_lone(place),
            _ => take_mail(&mut self.mail, alloc, word, place),
        }
    }

    // Takes a `-f` whose text is the next word.
    fn take_lone(&mut self, place: u32) -> Result<(), WordFault>
        ensures { Adds result (with_lone self.old) self.new place }
    {
        if self.mail.sender.is_some() {
            return Err(WordFault::At(place));
        }
        self.awaits = Some(Awaited::Sender);
        Ok(())
    }

    /// The refusals of so many words that are options, in their order: a file that is missing, or
    /// the text of a `-f`; a mode; and a time with another mode than `-bd`.
    pub(crate) fn whole(self, alloc: Global, count: u32) -> Result<Mode, WordFault>
        ensures { Gives result (judged count (Ok self)) }
    {
        let Saying {
            job,
            file,
            wait,
            mail,
            awaits,
        } = self;
        match awaits {
            Some(Awaited::File) => return Err(WordFault::At(count)),
            Some(Awaited::Sender) => return Err(WordFault::At(before(count))),
            None => (),
        }
        let Some(job) = asked(job, mail) else {
            return Err(WordFault::At(count));
        };
        let job = timed(job, wait)?;
        let file = match file {
            Some(file) => file,
            None => Text::of(alloc, DEFAULT_FILE)?,
        };
        Ok(Mode { file, job })
    }
}
