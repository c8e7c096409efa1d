ghost use Rattle.std.specs.Prelude.{◌≡◌, IfOk};
ghost use Rattle.addr_route.specs.Forms as spec;

use mail_base::{NoMemory, Text, TryCopy};
use std::alloc::Global;

/// What an address is by its first byte.
#[derive(Drop)]
pub enum Form {
    /// A program's command.
    Program(Text),
    File,
    /// An address that rules read.
    Plain(Text),
}

pub fn form_of(alloc: Global, address: &Text) -> Result<Form, NoMemory>
    ensures { IfOk result (λ form. form ≡ spec.form_of address.now) }
{
    match address.bytes().split_first() {
        Some((first, rest)) => {
            if *first == b'|' {
                return Ok(Form::Program(Text::of(alloc, rest)?));
            }
            if *first == b'/' {
                return Ok(Form::File);
            }
            if *first == b'\\' {
                return Ok(Form::Plain(Text::of(alloc, rest)?));
            }
            Ok(Form::Plain(address.copy()?))
        }
        None => Ok(Form::Plain(Text::new(alloc))),
    }
}
