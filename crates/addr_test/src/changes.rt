ghost use Rattle.std.specs.Prelude.{◌≡◌, Some, IfOk, OnErr, OnOk};
ghost use Rattle.mail_base.specs.Catalogs.{with_value};
ghost use Rattle.mail_base.specs.Words.{words_of as all_words};
ghost use Rattle.addr_test.specs.Answers.{added, added_text};
ghost use Rattle.addr_tokens.specs.Members.{words_or_none};
ghost use Rattle.addr_test.specs.Words.{class_words};

use crate::printing::line_of;
use addr_tokens::{any_refused, members};
use cf_macros::{ExpandFault, expand};
use mail_base::{Config, Macros, NoMemory, Seq, Text};
use std::alloc::Global;

/// Sets a macro. Its value isn't expanded until it is used. After `NoMemory` the macros are as
/// before.
pub(crate) fn define(
    alloc: Global,
    name: &[u8],
    value: &[u8],
    macros: &mut Macros,
) -> Result<(), NoMemory>
    ensures ok { OnOk result (macros.new ≡ with_value name.now value.now macros.old) }
    ensures err { OnErr result (macros.new ≡ macros.old) }
{
    let name = Text::of(alloc, name)?;
    let value = Text::of(alloc, value)?;
    macros.set(&name, &value)
}

/// Adds the words of a text, once it is expanded, to a class, all of them or none. Where it can't
/// be expanded, or one of the words can't be cut, the line is unknown. After `NoMemory` the
/// configuration is as before.
pub(crate) fn add(
    alloc: Global,
    class: &[u8],
    text: &[u8],
    config: &mut Config,
) -> Result<Text, NoMemory>
    ensures said { IfOk result
        (λ said. said ≡ added_text (class_words text.now config.old.macros)) }
    ensures ok { OnOk result
        (config.new ≡ added class.now config.old (class_words text.now config.old.macros)) }
    ensures err { OnErr result (config.new ≡ config.old) }
{
    match words_of(alloc, text, &config.macros)? {
        Some(words) => add_words(alloc, class, words.items(), config),
        None => line_of(alloc, b"unknown line"),
    }
}

// Adds words to a class.
fn add_words(
    alloc: Global,
    class: &[u8],
    words: &[Text],
    config: &mut Config,
) -> Result<Text, NoMemory>
    ensures said { IfOk result (λ said. said ≡ added_text (Some words.now)) }
    ensures ok { OnOk result (config.new ≡ added class.now config.old (Some words.now)) }
    ensures err { OnErr result (config.new ≡ config.old) }
{
    let class = Text::of(alloc, class)?;
    let members = members(alloc, &config.options.operator_chars, words)?;
    config.classes.extend(&class, members)?;
    Ok(Text::new(alloc))
}

// The words of a text once it is expanded, or `None` where that or one of them is refused.
fn words_of(alloc: Global, text: &[u8], macros: &Macros) -> Result<Option<Seq<Text>>, NoMemory>
    ensures { IfOk result (λ words. words ≡ class_words text.now macros.now) }
{
    let text = Text::of(alloc, text)?;
    match expand(alloc, &text, macros) {
        Ok(given) => taken(alloc, &given),
        Err(ExpandFault::NoMemory) => Err(NoMemory),
        Err(_) => Ok(None),
    }
}

// The words of a text, or `None` where one of them can't be cut.
fn taken(alloc: Global, text: &Text) -> Result<Option<Seq<Text>>, NoMemory>
    ensures { IfOk result (λ words. words ≡ words_or_none (all_words text.now)) }
{
    let words = mail_base::words_of(alloc, text.bytes())?;
    if any_refused(alloc, words.items())? {
        return Ok(None);
    }
    Ok(Some(words))
}
