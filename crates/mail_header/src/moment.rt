ghost use Rattle.std.specs.Prelude.{IfOk};
ghost use Rattle.mail_header.specs.Dated.{IsDated};

use cf_macros::{Form, date};
use mail_base::{Macros, NoMemory};
use std::alloc::Global;

/// The macros with b, d and t set to a moment, in seconds from the beginning of 1970 (Sendmail
/// Installation and Operation Guide, macros). The macro a hangs on the message: [`date_of`] tells
/// it.
///
/// [`date_of`]: crate::date_of
pub fn dated(alloc: Global, macros: Macros, moment: u64) -> Result<Macros, NoMemory>
    ensures { IfOk result (IsDated moment macros) }
{
    let mail = date(alloc, moment, Form::Mail)?;
    let unix = date(alloc, moment, Form::Unix)?;
    let short = date(alloc, moment, Form::Short)?;
    let mut macros = macros;
    macros.define(b"b", &mail)?;
    macros.define(b"d", &unix)?;
    macros.define(b"t", &short)?;
    Ok(macros)
}
