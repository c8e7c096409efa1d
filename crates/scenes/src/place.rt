//! How far the steps of a floor are.

use link_edge::Step;
use mail_base::Seq;

/// How many steps began, and how many bytes of the last one are still to come.
#[derive(Clone, Copy)]
pub(crate) struct Place {
    pub step: usize,
    left: usize,
}

impl Place {
    /// Nothing began.
    pub(crate) fn first() -> Place {
        Place { step: 0, left: 0 }
    }

    /// The place behind a turn, which brought so many bytes of a piece or something else.
    pub(crate) fn behind(self, steps: &Seq<Step>, brought: Option<usize>) -> Place {
        let Some(count) = brought else {
            return self.over();
        };
        let place = if self.left == 0 {
            self.begun(steps)
        } else {
            self
        };
        Place {
            step: place.step,
            left: place.left.saturating_sub(count),
        }
    }

    // A step that brings nothing, or the end of one that brought something.
    fn over(self) -> Place {
        if self.left > 0 {
            return Place {
                step: self.step,
                left: 0,
            };
        }
        Place {
            step: self.step.saturating_add(1),
            left: 0,
        }
    }

    // The next step, of which nothing came yet.
    fn begun(self, steps: &Seq<Step>) -> Place {
        let left = match steps.get(self.step) {
            Some(Step::Say(_session, bytes)) => bytes.len(),
            _ => 0,
        };
        Place {
            step: self.step.saturating_add(1),
            left,
        }
    }
}
