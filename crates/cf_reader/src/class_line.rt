ghost use Rattle.cf_macros.specs.Expansion.{value};
ghost use Rattle.cf_reader.specs.declared.fault.Fault.TheVariants.{BadPattern};
ghost use Rattle.cf_reader.specs.ClassLines.{class_of, fault_of_class, text_in};
ghost use Rattle.addr_tokens.specs.Members.{words_in};
ghost use Rattle.cf_reader.specs.inner.Readings.{Reads, Opens};

use crate::fault::{Fault, LineStop};
use addr_tokens::any_refused;
use cf_macros::{ExpandFault, expand, split_name};
use mail_base::{Macros, Seq, Text};
use std::alloc::Global;

/// The words that a C or F line gives to a class.
#[derive(Drop)]
pub struct ClassLine {
    pub class: Text,
    pub words: Seq<Text>,
}

/// A C line, by what follows the letter. Its text is expanded with the macros so far.
pub(crate) fn class(alloc: Global, text: &[u8], macros: &Macros) -> Result<ClassLine, LineStop>
    ensures { Reads result (fault_of_class text.now macros.now) (class_of text.now macros.now) }
{
    let (name, rest) = split_name(text);
    let words = words_of(alloc, rest, macros)?;
    let class = Text::of(alloc, name)?;
    Ok(ClassLine { class, words })
}

// The words of a text once it is expanded.
fn words_of(alloc: Global, text: &[u8], macros: &Macros) -> Result<Seq<Text>, LineStop>
    ensures { Opens BadPattern result (words_in (value text.now macros.now)) }
{
    let text = Text::of(alloc, text)?;
    let given = expanded(alloc, &text, macros)?;
    let words = mail_base::words_of(alloc, given.bytes())?;
    if any_refused(alloc, words.items())? {
        return Err(LineStop::Refused(Fault::BadPattern));
    }
    Ok(words)
}

fn expanded(alloc: Global, text: &Text, macros: &Macros) -> Result<Text, LineStop>
    ensures { Opens BadPattern result (text_in (value text.now macros.now)) }
{
    match expand(alloc, text, macros) {
        Ok(given) => Ok(given),
        Err(ExpandFault::NoMemory) => Err(LineStop::NoMemory),
        Err(_) => Err(LineStop::Refused(Fault::BadPattern)),
    }
}
