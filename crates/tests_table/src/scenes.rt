//! Scenes: commands after each other, from a spool without files on.

use crate::commands::{Command, Results};
use crate::mails::{Mail, Sent};

/// How many scenes there are.
pub(crate) const SCENES: usize = 8;

static NINE: &[Command] = &[Command::Accept(Mail::Nine)];

static PARTS: &[Command] = &[Command::Accept(Mail::Parts)];

static DEFERRED: &[Command] = &[
    Command::Accept(Mail::Hello),
    Command::Record(0, Results::Deferred, 1_767_225_610),
];

static WARNED: &[Command] = &[
    Command::Accept(Mail::Hello),
    Command::Record(0, Results::Deferred, 1_767_240_000),
    Command::Warn(0, 1_767_240_000),
];

static RETURNED: &[Command] = &[
    Command::Accept(Mail::Three),
    Command::Record(0, Results::Each, 1_767_225_610),
    Command::Return(0, Sent::Bounce, 1_767_225_610),
];

static DEAD: &[Command] = &[
    Command::Accept(Mail::Null),
    Command::Record(0, Results::Failed, 1_767_225_610),
    Command::Return(0, Sent::Double, 1_767_225_610),
    Command::Record(1, Results::Failed, 1_767_225_620),
    Command::Bury(1, 1_767_225_620),
];

// Timeout.queuereturn is five days, which have passed at the last try and not at the one before.
static AGED: &[Command] = &[
    Command::Accept(Mail::Hello),
    Command::Record(0, Results::Deferred, 1_767_225_610),
    Command::Record(0, Results::Deferred, 1_767_657_599),
    Command::Record(0, Results::Deferred, 1_767_657_600),
];

static SENT: &[Command] = &[
    Command::Accept(Mail::Hello),
    Command::Record(0, Results::Sent, 1_767_225_610),
];

/// The commands of a scene.
pub(crate) fn scene(number: usize) -> &'static [Command] {
    match number {
        0 => NINE,
        1 => PARTS,
        2 => DEFERRED,
        3 => WARNED,
        4 => RETURNED,
        5 => DEAD,
        6 => AGED,
        _ => SENT,
    }
}
