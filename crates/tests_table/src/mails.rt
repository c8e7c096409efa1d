//! What is accepted and what is sent for it, of control texts, and the configuration with two
//! groups.

ghost use Rattle.std.specs.Prelude.{IfOk};
ghost use Rattle.table_samples.specs.Samples.{AreSampleCuts, IsSampleMessage};
ghost use Rattle.tests_table.specs.Samples.{AreBacks, IsSampleBack};

use crate::samples::{BODY, BOUNCE, BULK, DOUBLE, HELLO, NULL, THREE, WARNING};
use mail_base::{Back, Catalog, Config, Cut, Group, Message, NoMemory, Seq, StoreFault, Text};
use std::alloc::Global;
use table_samples::{add_cut, message_of, one_cut};

/// What is accepted.
#[derive(Clone, Copy, PartialEq, Eq)]
pub(crate) enum Mail {
    /// To one recipient.
    Hello,
    /// To three.
    Three,
    /// To one, without a sender.
    Null,
    /// In three parts of a row each.
    Nine,
    /// In parts of 100, 100, 50 and one rows.
    Parts,
}

/// What is sent for an entry.
#[derive(Clone, Copy, PartialEq, Eq)]
pub(crate) enum Sent {
    Warning,
    Bounce,
    Double,
}

fn three_cuts(alloc: Global) -> Result<Seq<Cut>, StoreFault>
    ensures { IfOk result AreSampleCuts }
{
    let mut cuts = Seq::new(alloc);
    add_cut(alloc, &mut cuts, HELLO, 1)?;
    add_cut(alloc, &mut cuts, HELLO, 1)?;
    add_cut(alloc, &mut cuts, HELLO, 1)?;
    Ok(cuts)
}

fn many_cuts(alloc: Global) -> Result<Seq<Cut>, StoreFault>
    ensures { IfOk result AreSampleCuts }
{
    let mut cuts = Seq::new(alloc);
    add_cut(alloc, &mut cuts, BULK, 100)?;
    add_cut(alloc, &mut cuts, BULK, 100)?;
    add_cut(alloc, &mut cuts, BULK, 50)?;
    add_cut(alloc, &mut cuts, HELLO, 1)?;
    Ok(cuts)
}

/// The cuts of what is accepted.
pub(crate) fn cuts_of(alloc: Global, mail: Mail) -> Result<Seq<Cut>, StoreFault>
    ensures { IfOk result AreSampleCuts }
{
    match mail {
        Mail::Hello => one_cut(alloc, HELLO),
        Mail::Three => one_cut(alloc, THREE),
        Mail::Null => one_cut(alloc, NULL),
        Mail::Nine => three_cuts(alloc),
        Mail::Parts => many_cuts(alloc),
    }
}

// The control text that has a message's headers.
fn text_of(mail: Mail) -> &'static [u8] {
    match mail {
        Mail::Hello | Mail::Nine => HELLO,
        Mail::Three => THREE,
        Mail::Null => NULL,
        Mail::Parts => BULK,
    }
}

/// The message of what is accepted.
pub(crate) fn message_for(alloc: Global, mail: Mail) -> Result<Message, StoreFault>
    ensures { IfOk result IsSampleMessage }
{
    message_of(alloc, text_of(mail), BODY, 22)
}

fn sent_text(sent: Sent) -> &'static [u8] {
    match sent {
        Sent::Warning => WARNING,
        Sent::Bounce => BOUNCE,
        Sent::Double => DOUBLE,
    }
}

// What is sent for an entry. A text without the mark of a bounce is told as a fault of the spool.
fn back_of(alloc: Global, sent: Sent) -> Result<Back, StoreFault>
    ensures { IfOk result IsSampleBack }
{
    let text = sent_text(sent);
    let cuts = one_cut(alloc, text)?;
    let message = message_of(alloc, text, BODY, 100)?;
    if !message.marks.bounce {
        return Err(StoreFault::SpoolFault);
    }
    Ok(Back { message, cuts })
}

/// The same, alone in a list.
pub(crate) fn backs_of(alloc: Global, sent: Sent) -> Result<Seq<Back>, StoreFault>
    ensures { IfOk result AreBacks }
{
    let back = back_of(alloc, sent)?;
    let mut backs = Seq::new(alloc);
    backs.push(back)?;
    Ok(backs)
}

fn group_in(alloc: Global, name: &[u8], path: &[u8]) -> Result<Group, NoMemory> {
    Ok(Group {
        name: Text::of(alloc, name)?,
        path: Text::of(alloc, path)?,
        recipients: 0,
        runners: 1,
        interval: None,
        jobs: 0,
    })
}

fn add_group(groups: &mut Catalog<Group>, name: &[u8], path: &[u8]) -> Result<(), NoMemory> {
    let alloc = groups.allocator();
    let group = group_in(alloc, name, path)?;
    groups.set(Text::of(alloc, name)?, group)
}

/// A configuration with the groups `mqueue` in `/q` and `bulk` in `/q/bulk`.
pub(crate) fn config(alloc: Global) -> Result<Config, NoMemory> {
    let mut config = Config::new(alloc)?;
    add_group(&mut config.groups, b"mqueue", b"/q")?;
    add_group(&mut config.groups, b"bulk", b"/q/bulk")?;
    Ok(config)
}
