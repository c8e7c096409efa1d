ghost use Rattle.std.specs.Prelude.{◌<◌, ◌^◌, length};
ghost use Rattle.command_line.specs.CommandLines.{Gives as Says};
ghost use Rattle.command_line.specs.inner.Words.{Gives, command_line};

use crate::fault::WordFault;
use crate::mode::Mode;
use crate::saying::Saying;
use mail_base::{Seq, Text};
use std::alloc::Global;

/// What a command line says, without the program's name, or the place of the word that is refused.
pub fn words(alloc: Global, words: &Seq<Text>) -> Result<Mode, WordFault>
    requires { length words.now < 2 ^ 32 }
    ensures { Says result words.now }
{
    mode_of(alloc, words)
}

// The same, as it is read word by word.
fn mode_of(alloc: Global, words: &Seq<Text>) -> Result<Mode, WordFault>
    requires { length words.now < 2 ^ 32 }
    ensures { Gives result (command_line words.now) }
{
    let mut said = Saying::new(alloc);
    let mut place: u32 = 0;
    for word in words.items() {
        said.take(alloc, word, place)?;
        place += 1;
    }
    said.whole(alloc, place)
}
