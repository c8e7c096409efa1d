//! A scene with each call of each device failing once.

use crate::came::{id_of, said_to};
use crate::judging::status_text;
use crate::keeping::{delivers, first_lost};
use crate::party::Party;
use crate::playing::{Base, are_same, is_among, numbered, ran_over};
use crate::report::{Report, Spot};
use crate::running::{Ran, Way};
use mail_base::{NoMemory, Seq, Text};
use scene_text::{Bad, Device, Run, Scene};
use spool_disk::File;
use std::alloc::Global;

const DEVICES: [Device; 8] = [
    Device::Files,
    Device::Spool,
    Device::Turns,
    Device::Sends,
    Device::Reads,
    Device::Writes,
    Device::Children,
    Device::Peers,
];

/// The status of a run that a fault of a device ends. That of a send ends its session alone, and
/// those of children and peers end none.
fn status_of(device: Device) -> u8 {
    match device {
        Device::Files => 72,
        Device::Spool => 75,
        Device::Turns => 69,
        Device::Reads => 74,
        Device::Writes => 73,
        Device::Sends | Device::Children | Device::Peers => 0,
    }
}

pub(crate) fn play_failing(
    alloc: Global,
    spot: Spot,
    scene: &Scene,
    bases: &[Base],
    report: &mut Report,
) -> Result<(), Bad> {
    for (run, base) in scene.runs.iter().zip(bases.iter()) {
        for device in DEVICES.as_slice() {
            fail_device(alloc, spot, scene.line, run, base, *device, report)?;
        }
    }
    Ok(())
}

fn fail_device(
    alloc: Global,
    spot: Spot,
    line: u32,
    run: &Run,
    base: &Base,
    device: Device,
    report: &mut Report,
) -> Result<(), Bad> {
    for call in 0..base.ran.calls.of(device) {
        let way = Way {
            fails: Some((device, call)),
            ..Way::as_said()
        };
        let (ran, left) = ran_over(alloc, run, &base.plot, way, &base.start)?;
        let mut play = numbered(alloc, b"failing call ", call)?;
        play.extend(b" of ")?;
        play.extend(device.name().as_bytes())?;
        let spot = Spot {
            play: play.bytes(),
            ..spot
        };
        compare(alloc, spot, line, base, device, &ran, &left, report)?;
    }
    Ok(())
}

// Whether a run with a call that fails ends as that device's fault, or as the run does else.
fn compare(
    alloc: Global,
    spot: Spot,
    line: u32,
    base: &Base,
    device: Device,
    ran: &Ran,
    left: &Seq<File>,
    report: &mut Report,
) -> Result<(), NoMemory> {
    compare_replies(alloc, spot, line, base, device, ran, report)?;
    compare_kept(spot, line, base, ran, left, report)?;
    if ran.status == status_of(device) {
        return Ok(());
    }
    if ran.status != base.ran.status {
        let wanted = status_text(alloc, u64::from(status_of(device)), b"")?;
        let came = status_text(alloc, u64::from(ran.status), ran.told.bytes())?;
        return report.fail(spot, line, wanted.bytes(), came.bytes());
    }
    if !are_same(&base.left, left) {
        return report.fail(spot, line, b"the same files", b"others");
    }
    Ok(())
}

// What comes back is what comes else, up to some place. Behind a fault that doesn't end the run
// other programs and peers may be begun than else.
fn compare_replies(
    alloc: Global,
    spot: Spot,
    line: u32,
    base: &Base,
    device: Device,
    ran: &Ran,
    report: &mut Report,
) -> Result<(), NoMemory> {
    let goes_on = status_of(device) == 0;
    for party in base.plot.counts.parties(alloc)?.items() {
        if goes_on && !matches!(party, Party::Standard | Party::Session(_)) {
            continue;
        }
        let wanted = said_to(alloc, &base.ran.came, *party)?;
        let came = said_to(alloc, &ran.came, *party)?;
        if !wanted.bytes().starts_with(came.bytes()) {
            report.fail(spot, line, wanted.bytes(), came.bytes())?;
        }
    }
    Ok(())
}

// Each message that was acknowledged is there as it is else; in a run that delivers each entry is
// kept.
fn compare_kept(
    spot: Spot,
    line: u32,
    base: &Base,
    ran: &Ran,
    left: &Seq<File>,
    report: &mut Report,
) -> Result<(), NoMemory> {
    if delivers(&base.ran) || delivers(ran) {
        return match first_lost(base, &ran.came, left) {
            Some(id) => report.fail(spot, line, b"each entry kept", id),
            None => Ok(()),
        };
    }
    for came in ran.came.items() {
        if let Some(id) = id_of(came) {
            if !is_kept(base, id, left) {
                report.fail(spot, line, came.text.bytes(), b"not its files")?;
            }
        }
    }
    Ok(())
}

// Whether the files of an id are those of the run as it stands, and there are some.
fn is_kept(base: &Base, id: &[u8], left: &Seq<File>) -> bool {
    let has_one = base
        .left
        .items()
        .iter()
        .any(|file| file.name.bytes().ends_with(id));
    has_one
        && base.left.items().iter().all(|file| !file.name.bytes().ends_with(id)
            || is_among(left, file))
}

/// A name of a play with a number.
pub(crate) fn play_name(alloc: Global, number: u64) -> Result<Text, NoMemory> {
    numbered(alloc, b"stopped after ", number)
}
