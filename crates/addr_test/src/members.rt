ghost use Rattle.std.specs.Prelude.{◌≡◌, IfOk};
ghost use Rattle.addr_test.specs.Answers.{ListsMembers};
ghost use Rattle.addr_test.specs.Texts.{lines_text};
ghost use Rattle.addr_test.specs.Words as spec;

use crate::printing::push_line;
use mail_base::{Config, Member, NoMemory, Seq, Text, TryCopy};
use std::alloc::Global;

/// The members of a class in order, each on a line of its own.
pub(crate) fn listed(alloc: Global, class: &[u8], config: &Config) -> Result<Text, NoMemory>
    ensures { IfOk result (ListsMembers config.now class.now) }
{
    let class = Text::of(alloc, class)?;
    let texts = texts_of(alloc, config.classes.members(&class))?;
    let texts = in_order(texts)?;
    lines_of(alloc, texts.items())
}

fn texts_of(alloc: Global, members: &[Member]) -> Result<Vec<Text>, NoMemory>
    ensures { IfOk result (λ texts. texts.items ≡ spec.texts_of members.now) }
{
    let mut texts = Vec::new(alloc);
    for member in members {
        texts.push(member.text.copy()?)?;
    }
    Ok(texts)
}

// Texts sorted by their bytes, each once.
fn in_order(texts: Vec<Text>) -> Result<Seq<Text>, NoMemory>
    ensures { IfOk result (spec.IsListing texts.items) }
{
    let mut texts = texts;
    texts.sort_by(|one, other| one.bytes().cmp(other.bytes()))?;
    texts.dedup();
    Ok(Seq::from_vec(texts))
}

fn lines_of(alloc: Global, texts: &[Text]) -> Result<Text, NoMemory>
    ensures { IfOk result (λ lines. lines ≡ lines_text texts.now) }
{
    let mut lines = Text::new(alloc);
    for text in texts {
        push_line(text.bytes(), &mut lines)?;
    }
    Ok(lines)
}
