ghost use Rattle.std.specs.Prelude.{◌≡◌};
ghost use Rattle.mail_base.specs.States.{is_finished};

use mail_base::Entry;

/// An entry of the store.
#[derive(Drop)]
pub struct Held {
    pub entry: Entry,
    /// Whether its control file has the name of a finished entry's.
    pub finished: bool,
}

impl Held {
    // An entry that an opening found: it is finished where no row is open.
    pub(crate) fn of(entry: Entry) -> Held
        ensures { result ≡ record { entry = entry; finished = is_finished entry.control } }
    {
        let finished = entry.control.is_finished();
        Held { entry, finished }
    }
}
