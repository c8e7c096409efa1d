ghost use Rattle.std.specs.Prelude.{◌≡◌, map, IfOk};
ghost use Rattle.std.specs.List.{list_any};
ghost use Rattle.addr_tokens.specs.Members as spec;

use crate::ScanFault;
use crate::law::computed;
use crate::scan::{cut, tokens};
use mail_base::{Member, NoMemory, Seq, Text};
use std::alloc::Global;

/// Whether one of the words can't be cut into tokens, under any operators: then no line gives these
/// words to a class.
pub fn any_refused(alloc: Global, words: &[Text]) -> Result<bool, NoMemory>
    ensures { IfOk result (λ refused. refused ≡ list_any spec.cannot_be_cut words.now) }
{
    for word in words {
        if cannot_be_cut(alloc, word)? {
            return Ok(true);
        }
    }
    Ok(false)
}

fn cannot_be_cut(alloc: Global, word: &Text) -> Result<bool, NoMemory>
    ensures { IfOk result (λ cannot. cannot ≡ spec.cannot_be_cut word.now) }
{
    // A law: what a cutting computes is what it means.
    computed();
    match tokens(alloc, word, &Text::new(alloc), false) {
        Ok(_) => Ok(false),
        Err(ScanFault::Long) => Ok(false),
        Err(ScanFault::NoMemory) => Err(NoMemory),
        Err(_) => Ok(true),
    }
}

/// The words as members of a class, each with its tokens under these operators, or with none where
/// it has more than 2,000 or can't be cut.
pub fn members(alloc: Global, operators: &Text, words: &[Text]) -> Result<Seq<Member>, NoMemory>
    ensures { IfOk result (λ members. members ≡ map (spec.member_of operators.now) words.now) }
{
    let mut members = Seq::new(alloc);
    for word in words {
        members.push(member(alloc, operators, word)?)?;
    }
    Ok(members)
}

fn member(alloc: Global, operators: &Text, word: &Text) -> Result<Member, NoMemory>
    ensures { IfOk result (λ member. member ≡ spec.member_of operators.now word.now) }
{
    let tokens = cut(alloc, word, operators, false)?;
    let text = Text::of(alloc, word.bytes())?;
    Ok(Member { text, tokens })
}
