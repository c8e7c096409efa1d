ghost use Rattle.std.specs.Prelude.{◌≡◌, ◌==◌, IfOk, IfSome};
ghost use Rattle.std.specs.List.{before_first};
ghost use Rattle.mail_edge.specs.Seen.{text_of};
ghost use Rattle.cf_reader.specs.declared.fault.Fault.TheVariants.{NoSuchFile};
ghost use Rattle.cf_reader.specs.ClassLines as spec;
ghost use Rattle.mail_edge.specs.Asking.{Asks};
ghost use Rattle.cf_reader.specs.inner.Readings.{Finds, Opens, is_files_fault};
ghost use Rattle.mail_base.specs.Words.{words_of};
ghost use Rattle.cf_reader.specs.inner.Steps.{IsRead, class_in};

use crate::class_line::ClassLine;
use crate::fault::{Fault, LineStop};
use bstr::ByteSlice;
use cf_macros::split_name;
use mail_base::{EdgeFault, NoMemory, Seq, Text, TryCopy, push_words, split_line, words_of};
use mail_edge::Files;
use std::alloc::Global;

// A file, and whether it may be absent.
#[derive(Drop)]
struct Wanted {
    file: Text,
    optional: bool,
}

/// An F line, by what follows the letter. Its words are those of a file, which is read here.
pub(crate) fn file_class<F: Files>(
    alloc: Global,
    text: &[u8],
    files: &mut F,
) -> Result<ClassLine, LineStop>
    ensures told { IfSome (F.seen files.old).map
        (λ map. Finds result (spec.fault_of_file map text.now) (spec.file_class_of map text.now)) }
    ensures asks { Asks (F.seen files.old) (F.seen files.new) (is_files_fault result) }
{
    let (name, rest) = split_name(text);
    let wanted = wanted_in(alloc, rest)?;
    let found = read_file(alloc, &wanted.file, files)?;
    file_words(alloc, name, found, wanted.optional)
}

// The text of a file, or `None` where there is none.
fn read_file<F: Files>(alloc: Global, name: &Text, files: &mut F) -> Result<Option<Text>, LineStop>
    ensures text { IfSome (F.seen files.old).map (λ map. IsRead result (text_of map name.now)) }
    ensures asks { Asks (F.seen files.old) (F.seen files.new) (is_files_fault result) }
{
    match files.read(alloc, name) {
        Ok(text) => Ok(text),
        Err(EdgeFault::Failed) => Err(LineStop::FilesFault),
        Err(EdgeFault::NoMemory) => Err(LineStop::NoMemory),
    }
}

// The class of that name with the words of the text that was found.
fn file_words(
    alloc: Global,
    name: &[u8],
    found: Option<Text>,
    optional: bool,
) -> Result<ClassLine, LineStop>
    ensures { Opens NoSuchFile result (class_in name.now (spec.text_or optional found)) }
{
    match found {
        Some(text) => Ok(words_in(alloc, name, text.bytes())?),
        None if optional => Ok(words_in(alloc, name, &[])?),
        None => Err(LineStop::Refused(Fault::NoSuchFile)),
    }
}

fn words_in(alloc: Global, name: &[u8], text: &[u8]) -> Result<ClassLine, NoMemory>
    ensures { IfOk result
        (λ line. line ≡ record { class = name.now; words = spec.words_of_file text.now }) }
{
    let words = words_of_file(alloc, text)?;
    let class = Text::of(alloc, name)?;
    Ok(ClassLine { class, words })
}

// The file that the text behind the name of a class asks for.
fn wanted_in(alloc: Global, text: &[u8]) -> Result<Wanted, NoMemory>
    ensures { IfOk result (λ wanted. wanted ≡ spec.wanted_by (words_of text.now)) }
{
    let words = words_of(alloc, text)?;
    wanted_by(alloc, words.items())
}

fn wanted_by(alloc: Global, words: &[Text]) -> Result<Wanted, NoMemory>
    ensures { IfOk result (λ wanted. wanted ≡ spec.wanted_by words.now) }
{
    let Some((word, rest)) = words.split_first() else {
        return Ok(Wanted {
            file: Text::new(alloc),
            optional: false,
        });
    };
    let optional = word.bytes() == b"-o".as_slice();
    let file = if optional {
        first_word(alloc, rest)?
    } else {
        word.copy()?
    };
    Ok(Wanted { file, optional })
}

fn first_word(alloc: Global, words: &[Text]) -> Result<Text, NoMemory>
    ensures { IfOk result (λ word. word ≡ spec.first_word words.now) }
{
    match words.first() {
        Some(word) => word.copy(),
        None => Ok(Text::new(alloc)),
    }
}

// The words of a file.
fn words_of_file(alloc: Global, text: &[u8]) -> Result<Seq<Text>, NoMemory>
    ensures { IfOk result (λ words. words ≡ spec.words_of_file text.now) }
{
    let mut words = Seq::new(alloc);
    let mut rest = text;
    while !rest.is_empty() {
        let (line, after) = split_line(rest);
        push_words(alloc, before_sign(line), &mut words)?;
        rest = after;
    }
    Ok(words)
}

// What stands before the first `#`.
fn before_sign(line: &[u8]) -> &[u8]
    ensures { result.now ≡ before_first (λ b. b == 35) line.now }
{
    match line.find_byte(b'#') {
        Some(place) => &line[..place],
        None => line,
    }
}
