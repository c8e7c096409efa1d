ghost use Rattle.std.specs.Prelude.{◌≡◌, ◌<◌, ◌++◌, MatchOption, List, [], ℕ, length, IfOk, OnOk, OnErr};
ghost use Rattle.std.specs.Str.Lines.{strip_carriage_return};
ghost use Rattle.addr_test.specs.Answers.{Answers};
ghost use Rattle.addr_test.specs.declared.answers.Reply.TheVariants.{Lines};
ghost use Rattle.sendmail_run.specs.inner.Taking.{Keeps, cut_text, most_kept};

use addr_test::{Reply, answer};
use mail_base::{Config, MOST_LINE, NoMemory, Text, without_return};
use map_tables::Maps;
use std::alloc::Global;

/// The most bytes that are kept of a line: its own, and a CR that may stand before its end.
const MOST_KEPT: usize = MOST_LINE + 1;

/// What came of a line of input that isn't ended yet. Of a line that is too long only the front is
/// kept, so it holds at most [`MOST_KEPT`] bytes.
#[derive(Drop)]
pub struct Partial {
    front: Text,
    is_cut: bool,
}

impl Partial {
    /// Nothing of a line. It takes no memory.
    pub fn new(alloc: Global) -> Partial
        ensures { Keeps result [] }
    {
        Partial {
            front: Text::new(alloc),
            is_cut: false,
        }
    }

    /// Takes more of the line. After `NoMemory` it is as before.
    pub fn take(&mut self, bytes: &[u8]) -> Result<(), NoMemory>
        ensures ok { OnOk result
            ((rest : List ℕ) → Keeps self.old rest → Keeps self.new (rest ++ bytes.now)) }
        ensures err { OnErr result (self.new ≡ self.old) }
    {
        let room = MOST_KEPT.saturating_sub(self.front.len());
        if bytes.len() <= room {
            self.front.extend(bytes)
        } else {
            self.front.extend(&bytes[..room])?;
            self.is_cut = true;
            Ok(())
        }
    }

    /// Begins the next line.
    pub fn clear(&mut self)
        ensures { Keeps self.new [] }
    {
        self.front.clear();
        self.is_cut = false;
    }

    /// Answers the line, which is ended now.
    pub fn answer(&self, alloc: Global, config: &mut Config, maps: &Maps) -> Result<Reply, NoMemory>
        ensures { IfOk result
            (λ reply. (rest : List ℕ) → Keeps self.now rest
            → Answers maps.now config.old (strip_carriage_return rest) reply config.new) }
    {
        match self.whole() {
            Some(line) => answer(alloc, without_return(line), config, maps),
            None => answer_cut(alloc, self.front.bytes()),
        }
    }

    /// Answers the last line, which the end of the input ends. An empty one is answered with
    /// nothing.
    pub fn answer_last(
        &self,
        alloc: Global,
        config: &mut Config,
        maps: &Maps,
    ) -> Result<Reply, NoMemory>
        ensures { IfOk result
            (λ reply. (rest : List ℕ) → Keeps self.now rest
            → Answers maps.now config.old rest reply config.new) }
    {
        match self.whole() {
            Some(line) => answer(alloc, line, config, maps),
            None => answer_cut(alloc, self.front.bytes()),
        }
    }

    // What came of the line, unless it is too long.
    fn whole(&self) -> Option<&[u8]>
        ensures { (rest : List ℕ) → Keeps self.now rest
            → MatchOption result (most_kept < length rest) (λ line. line.now ≡ rest) }
    {
        if self.is_cut {
            None
        } else {
            Some(self.front.bytes())
        }
    }
}

// The answer to a line that is too long, of which this is the front.
fn answer_cut(alloc: Global, front: &[u8]) -> Result<Reply, NoMemory>
    ensures { IfOk result (λ reply. reply ≡ Lines (cut_text front.now)) }
{
    if front.first() == Some(&b'#') {
        return Ok(Reply::Lines(Text::new(alloc)));
    }
    let text = Text::of(alloc, b"line too long\n")?;
    Ok(Reply::Lines(text))
}
