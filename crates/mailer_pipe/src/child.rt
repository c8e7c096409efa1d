ghost use Rattle.std.specs.Prelude.{◌≡◌, true};
ghost use Rattle.mailer_pipe.specs.Arguments as spec;
ghost use Rattle.mailer_pipe.specs.Starts.{Begins, start_of};

use crate::PipeFault;
use crate::arguments::{arguments, words_of};
use mail_base::{Macros, Mailer, Seq, Text};
use spawn_edge::Spawner;
use std::alloc::Global;

/// Starts a program mailer for users, which may be several, and gives the child's number. The
/// program is P; its arguments are the words of A behind the first, expanded, of which the first
/// that holds `$u` stands once for each user; its input is the message (Sendmail Installation and
/// Operation Guide, "M: Define Mailer"). All memory is taken before the spawner is asked.
pub fn begin<S: Spawner>(
    alloc: Global,
    spawner: &mut S,
    mailer: &Mailer,
    macros: &Macros,
    users: &Seq<Text>,
    message: &Text,
) -> Result<u64, PipeFault>
    requires takes { spec.takes_users mailer.now ≡ true }
    requires users { spec.are_arguments users.now ≡ true }
    ensures begins { Begins (start_of mailer.now macros.now users.now message.now)
        (S.seen spawner.old) (S.seen spawner.new) result }
{
    let args = arguments(alloc, words_of(mailer), macros, users.items())?;
    let child = spawner.start(&mailer.path, &args, message)?;
    Ok(child)
}
