// What the devices of one run tell each other, so that none waits while another has work, and none
// tells anybody what isn't on the disk yet.
use crate::joint::Joint;
use crate::unsynced::Unsynced;
use std::alloc::Global;
use std::cell::Cell;

/// Whether something moves in a run. Its devices share it: a floor doesn't wait while runners work,
/// and where children alone run one device waits a little. That is the floor, if there is one that
/// hears its sessions meanwhile, and else the poll of a child. It also has what was changed in the
/// queue and may not have reached the disk: whoever is to tell somebody something settles that first.
#[derive(Drop)]
pub struct Motion {
    /// Whether something was done since a child was last found running.
    moved: Cell<bool>,
    /// Whether a child or a line was asked for something since the floor's last turn.
    worked: Cell<bool>,
    /// Whether a floor waits in place of the polls of children.
    floored: Cell<bool>,
    /// How many milliseconds the floor's next turn may wait while runners work.
    pause: Cell<u32>,
    unsynced: Unsynced,
}

impl Motion {
    /// One of a run in which nothing was done, and whose floor, if it has one, waits by itself. What
    /// is changed in the queue is on the disk before the call answers.
    pub fn new(alloc: Global) -> Motion {
        Motion::over(Unsynced::prompt(alloc))
    }

    /// The same, but what is changed in the queue waits until somebody is to be told something.
    pub fn late(alloc: Global, joint: Joint) -> Motion {
        Motion::over(Unsynced::late(alloc, joint))
    }

    fn over(unsynced: Unsynced) -> Motion {
        Motion {
            moved: Cell::new(false),
            worked: Cell::new(false),
            floored: Cell::new(false),
            pause: Cell::new(0),
            unsynced,
        }
    }

    /// What was changed in the queue and may not have reached the disk.
    pub fn unsynced(&self) -> &Unsynced {
        &self.unsynced
    }

    /// From now on a floor waits in place of the polls of children.
    pub fn note_floor(&self) {
        self.floored.set(true);
    }

    /// Whether a floor waits in place of the polls of children.
    pub fn has_floor(&self) -> bool {
        self.floored.get()
    }

    /// Something was done.
    pub fn note_move(&self) {
        self.moved.set(true);
    }

    /// A child or a line was asked for something.
    pub fn note_work(&self) {
        self.worked.set(true);
    }

    /// The floor's next turn may wait so many milliseconds.
    pub fn note_pause(&self, millis: u32) {
        self.pause.set(millis);
    }

    /// Whether something was done since this was last asked.
    pub fn take_move(&self) -> bool {
        self.moved.replace(false)
    }

    /// How many milliseconds the floor's next turn may wait, where a child or a line was asked for
    /// something since this was last asked.
    pub fn take_work(&self) -> Option<u32> {
        let pause = self.pause.replace(0);
        if self.worked.replace(false) {
            Some(pause)
        } else {
            None
        }
    }
}
