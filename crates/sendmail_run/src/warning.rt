ghost use Rattle.std.specs.Prelude.{◌≡◌, ◌++◌, IfOk, OnOk};
ghost use Rattle.sendmail_run.specs.Printing.{warning_text, warnings_text};

use mail_base::{Config, NoMemory, Text};
use std::alloc::Global;

/// A line for each line of the configuration that is ignored with a warning.
pub fn warnings_of(alloc: Global, config: &Config) -> Result<Text, NoMemory>
    ensures { IfOk result (λ text. text ≡ warnings_text config.now.warnings) }
{
    let mut text = Text::new(alloc);
    for number in config.warnings.items() {
        push_warning(&mut text, *number)?;
    }
    Ok(text)
}

#[tactic(auto, unfolding(crate::specs::Printing::warning_text))]
fn push_warning(text: &mut Text, number: u32) -> Result<(), NoMemory>
    ensures { OnOk result (text.new ≡ text.old ++ warning_text number) }
{
    text.extend(b"warning: line ")?;
    let said = format!(in text.allocator(); "{number}")?;
    text.extend(said.as_bytes())?;
    text.extend(b" ignored\n")
}
