ghost use Rattle.std.specs.Prelude.{◌≡◌, [], ◌∷◌, ◌++◌, ◌<◌, ◌≤◌, ◌^◌, Err, Result, IfOk, IfSome, OnOk, IfErr, length, reverse};
ghost use Rattle.mail_edge.specs.Asking.{Asks};
ghost use Rattle.alias_expand.specs.declared.reading.Reading.{Reading as TheReading};
ghost use Rattle.alias_expand.specs.declared.refusal.ExpandRefusal.{ExpandRefusal as TheRefusal};
ghost use Rattle.alias_expand.specs.Rows.{IsTellable, Reads, is_files_fault, most_reads};
ghost use Rattle.alias_expand.specs.inner.Costs.{Falls, Fits, deepest};
ghost use Rattle.alias_expand.specs.inner.Steps.{Completes, ReadsTo, StopsWith, advanced, frame_of, frames_of};

use crate::ExpandRefusal;
use crate::frame::{Frame, Opened};
use crate::member::member;
use crate::reading::Reading;
use crate::site::Site;
use mail_base::NoMemory;
use mail_edge::Files;
use std::alloc::Global;

/// Reads members in order, each with all that it opens into before the next one.
pub(crate) fn read_members<F: Files>(
    site: &Site,
    files: &mut F,
    opened: Opened,
    reading: &mut Reading,
) -> Result<(), ExpandRefusal>
    requires { length reading.old.files ≤ most_reads }
    ensures reads { ReadsTo result reading.new (Reads site.now (F.seen files.old).map
        opened.stand opened.members reading.old) }
    ensures tellable { IfErr result IsTellable }
    ensures asks { Asks (F.seen files.old) (F.seen files.new) (is_files_fault result) }
{
    let mut stack = stack_of(site.alloc, opened)?;
    'frames: while let Some(frame) = stack.pop() {
        step(site, files, frame, &mut stack, reading)?;
    }
    Ok(())
}

// The stack at first: the members of which none was read.
fn stack_of(alloc: Global, opened: Opened) -> Result<Vec<Frame>, NoMemory>
    ensures { IfOk result (λ stack. stack.items ≡ frame_of opened ∷ []) }
{
    let mut stack = Vec::new(alloc);
    stack.push(Frame {
        stand: opened.stand,
        members: opened.members,
        next: 0,
    })?;
    Ok(stack)
}

// Reads the next member of a frame, which is on top of the stack.
fn step<F: Files>(
    site: &Site,
    files: &mut F,
    frame: Frame,
    stack: &mut Vec<Frame>,
    reading: &mut Reading,
) -> Result<(), ExpandRefusal>
    ensures ok { OnOk result ((end : Result TheReading TheRefusal)
        → Completes site.now (F.seen files.old).map (reverse stack.new.items) reading.new end
        → Completes site.now (F.seen files.old).map (frame ∷ reverse stack.old.items) reading.old
        end) }
    ensures refused { IfErr result (λ refusal. StopsWith refusal
        (λ told. Completes site.now (F.seen files.old).map (frame ∷ reverse stack.old.items)
        reading.old (Err told))) }
    ensures falls { OnOk result (Fits (frame ∷ reverse stack.old.items) reading.old
        → Falls (deepest site.now) (frame ∷ reverse stack.old.items) (reverse stack.new.items)
        reading.new) }
    ensures tellable { IfErr result IsTellable }
    ensures asks { Asks (F.seen files.old) (F.seen files.new) (is_files_fault result) }
{
    // Only its range is used: a place behind a member fits in a number.
    let _bound = frame.members.len();
    let Some(next) = frame.members.get(frame.next) else {
        return Ok(());
    };
    let opened = member(site, files, &frame.stand, next, reading)?;
    go_on(frame, opened, stack)?;
    Ok(())
}

// The rest of a frame, and on top of it what its member opens into.
fn go_on(frame: Frame, opened: Option<Opened>, stack: &mut Vec<Frame>) -> Result<(), NoMemory>
    requires { frame.next < length frame.members }
    ensures stack { OnOk result (reverse stack.new.items
        ≡ frames_of opened ++ advanced frame ∷ reverse stack.old.items) }
    ensures short { OnOk result (IfSome opened (λ inner. length inner.members < 2 ^ 64)) }
{
    // Only its range is used: a place behind a member fits in a number.
    let _bound = frame.members.len();
    stack.push(Frame {
        next: frame.next + 1,
        ..frame
    })?;
    match opened {
        Some(inner) => {
            // Only its range is used: so the depth of those below can be told.
            let _bound = inner.members.len();
            stack.push(Frame {
                stand: inner.stand,
                members: inner.members,
                next: 0,
            })?;
            Ok(())
        }
        None => Ok(()),
    }
}
