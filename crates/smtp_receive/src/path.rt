ghost use Rattle.std.specs.Prelude.{◌≡◌, IfOk};
ghost use Rattle.mail_base.specs.Texts.{IsBracketed, IsLine};
ghost use Rattle.smtp_receive.specs.Dialogue.{bracketed};

use mail_base::{NoMemory, Text};
use std::alloc::Global;
use std::marker::Model;

/// A path with its angles, on one line.
#[derive(Drop)]
pub(crate) struct Path {
    text: Text,
}

impl Model for Path {
    ghost use Rattle.std.specs.Prelude.{ℕ, List};
    ghost use Rattle.mail_base.specs.Texts.{IsBracketed};

    ghost Value = { List ℕ };

    ghost view = { λ p. p.text };

    ghost invariant = { λ p. IsBracketed p.text };
}

impl Path {
    /// A path of what stands in its angles.
    #[tactic(auto, using(crate::proofs::PathLemmas::brackets_form))]
    pub(crate) fn of(alloc: Global, inside: &[u8]) -> Result<Path, NoMemory>
        requires { IsLine inside.now }
        ensures { IfOk result (λ path. path ≡ bracketed inside.now) }
    {
        let text = angled(alloc, inside)?;
        Ok(Path { text })
    }

    pub(crate) fn text(&self) -> &Text
        ensures text { result.now ≡ self.now }
        ensures form { IsBracketed self.now }
    {
        &self.text
    }

    /// The path as a text. It takes no memory.
    pub(crate) fn into_text(self) -> Text
        ensures { result ≡ self }
    {
        self.text
    }
}

fn angled(alloc: Global, inside: &[u8]) -> Result<Text, NoMemory>
    ensures { IfOk result (λ text. text ≡ bracketed inside.now) }
{
    let mut text = Text::of(alloc, b"<")?;
    text.extend(inside)?;
    text.push(b'>')?;
    Ok(text)
}
