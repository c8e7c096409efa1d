// Configurations that are read, and what is asked of them.
use crate::samples::config_of;
use crate::shown::{put_group, put_header, put_mailer, put_numbers, put_paths, put_times};
use mail_base::{Config, NoMemory, Text};
use std::alloc::Global;
use std::test::Fail;

/// A configuration, a question, and its answer. Questions are `O`, `o` and `T`, the options by
/// kind; `H`, all headers; `Mx`, a mailer; `Qx`, a group.
pub(crate) type Row = (&'static [u8], &'static [u8], &'static [u8]);

fn put_mailer_of(out: &mut Text, config: &Config, name: &Text) -> Result<(), NoMemory> {
    match config.mailer(name) {
        Some(mailer) => put_mailer(out, mailer),
        None => out.extend(b"none"),
    }
}

fn put_group_of(out: &mut Text, config: &Config, name: &Text) -> Result<(), NoMemory> {
    match config.groups.get(name) {
        Some(group) => put_group(out, group),
        None => out.extend(b"none"),
    }
}

fn put_headers(out: &mut Text, config: &Config) -> Result<(), NoMemory> {
    for header in config.headers.items() {
        put_header(out, header)?;
    }
    Ok(())
}

// Puts what a configuration answers to a question.
fn put_answer(out: &mut Text, config: &Config, question: &[u8]) -> Result<(), NoMemory> {
    let alloc = out.allocator();
    match question {
        [b'O'] => put_paths(out, &config.options),
        [b'o'] => put_numbers(out, &config.options),
        [b'T'] => put_times(out, &config.options),
        [b'M', name @ ..] => put_mailer_of(out, config, &Text::of(alloc, name)?),
        [b'Q', name @ ..] => put_group_of(out, config, &Text::of(alloc, name)?),
        _ => put_headers(out, config),
    }
}

/// Whether a configuration answers as the row says.
pub(crate) fn is_answered(alloc: Global, row: &Row) -> Result<bool, Fail> {
    let config = config_of(alloc, row.0)?;
    let mut out = Text::new(alloc);
    put_answer(&mut out, &config, row.1)?;
    Ok(out.bytes() == row.2)
}
