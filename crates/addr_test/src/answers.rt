ghost use Rattle.std.specs.Prelude.{◌≡◌, IfOk, OnErr};
ghost use Rattle.addr_test.specs.Answers.{Answers, Says, config_after};
ghost use Rattle.addr_test.specs.inner.Views.{seen};

use crate::books::{lookup, mailers, rules, value};
use crate::changes::{add, define};
use crate::form::{Form, form_of};
use crate::members::listed;
use crate::printing::line_of;
use crate::routes::{parse, try_mailer};
use crate::runs::runs;
use mail_base::{Config, NoMemory, Text};
use map_tables::Maps;
use std::alloc::Global;

/// What a line of address test mode is answered with.
#[derive(Drop)]
pub enum Reply {
    /// The lines to be printed, each with its LF; perhaps none.
    Lines(Text),
    /// Nothing, and no further line is read.
    Quit,
}

/// Answers a line of address test mode, without its end (Sendmail Installation and Operation Guide,
/// "Address Testing Mode"). `.D` and `.C` change the configuration, and what they change is seen by
/// later lines; a macro that a look-up sets lives as long as its run. A line above 65,536 bytes is
/// too long, whatever it holds, unless it is a comment. After `NoMemory` the configuration is as
/// before.
pub fn answer(
    alloc: Global,
    line: &[u8],
    config: &mut Config,
    maps: &Maps,
) -> Result<Reply, NoMemory>
    ensures ok { IfOk result (λ reply. Answers maps.now config.old line.now reply config.new) }
    ensures err { OnErr result (config.new ≡ config.old) }
{
    if line == b"/quit".as_slice() {
        return Ok(Reply::Quit);
    }
    let form = form_of(line);
    let text = said(alloc, &form, config, maps)?;
    Ok(Reply::Lines(text))
}

fn said(alloc: Global, form: &Form<'_>, config: &mut Config, maps: &Maps) -> Result<Text, NoMemory>
    ensures ok { IfOk result
        (λ text. Says maps.now config.old (seen form.now) text
        × (config.new ≡ config_after config.old (seen form.now))) }
    ensures err { OnErr result (config.new ≡ config.old) }
{
    match form {
        Form::Quiet => Ok(Text::new(alloc)),
        Form::TooLong => line_of(alloc, b"line too long"),
        Form::Runs(sets, address) => runs(alloc, config, maps, sets, address),
        Form::Parse(address) => parse(alloc, address, config, maps),
        Form::Try(mailer, address) => try_mailer(alloc, mailer, address, config, maps),
        Form::Lookup(name, key) => lookup(alloc, name, key, maps),
        Form::Rules(name) => rules(alloc, name, &config.book),
        Form::Mailers => mailers(alloc, &config.mailers),
        Form::Value(name) => value(alloc, name, &config.macros),
        Form::Members(class) => listed(alloc, class, config),
        Form::Defines(name, written) => {
            define(alloc, name, written, &mut config.macros)?;
            Ok(Text::new(alloc))
        }
        Form::Adds(class, words) => add(alloc, class, words, config),
        Form::Unknown => line_of(alloc, b"unknown line"),
    }
}
