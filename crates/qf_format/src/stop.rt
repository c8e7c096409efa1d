ghost use Rattle.std.specs.Prelude.{◌≡◌};
ghost use Rattle.qf_format.specs.declared.stop.Stop.TheVariants.{Memory};

use mail_base::NoMemory;

/// Why bytes weren't read.
#[derive(Drop)]
pub(crate) enum Stop {
    // They spell nothing that is read here.
    Outside,
    // There was no memory.
    Memory,
}

impl From<NoMemory> for Stop {
    ghost from_gives = { λ _ e. e ≡ Memory };

    fn from(_error: NoMemory) -> Stop {
        Stop::Memory
    }
}
