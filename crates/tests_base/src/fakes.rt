use crate::Itself;
use mail_base::{Draws, JudgeFault, NoMemory, Script, Seq, Text, TryCopy};
use std::alloc::Global;

/// Scripts, by which calls are listed, which of four calls then fail, and how many those are.
static SCRIPTS: [(&[u64], [bool; 4], u64); 4] = [
    (&[], [false, false, false, false], 0),
    (&[1], [false, true, false, false], 1),
    (&[3, 0, 0], [true, false, false, true], 2),
    (&[4], [false, false, false, false], 0),
];

/// Whether the calls of a script, so many, fail as they are to.
fn fails_so(script: &mut Script, calls: &[bool]) -> bool {
    for fails in calls {
        if script.call().is_err() != *fails {
            return false;
        }
    }
    true
}

/// Whether a script fails so, and counts its calls and its faults, and one fault more.
fn is_followed(
    alloc: Global,
    failing: &[u64],
    calls: &[bool],
    faults: u64,
) -> Result<bool, NoMemory> {
    let mut script = Script::new(Seq::from_vec(Vec::from_slice(alloc, failing)?));
    let follows = fails_so(&mut script, calls) && script.calls == 4 && script.faults == faults;
    script.fail();
    Ok(follows && script.faults > faults)
}

fn is_drawn(alloc: Global) -> Result<bool, JudgeFault> {
    let address = Text::of(alloc, b"postmaster")?;
    let rows = Itself.draw(alloc, &address)?;
    Ok(rows.copy()?.len() == 1)
}

#[test]
fn listed_calls_fail_and_a_receiver_is_drawn(rt: HostRuntime) {
    for (at, (failing, calls, faults)) in SCRIPTS.iter().enumerate() {
        let is_followed = is_followed(rt.alloc(), failing, calls, *faults);
        assert!(rt; is_followed == Ok(true), "row {at}");
    }
    assert!(rt; is_drawn(rt.alloc()) == Ok(true));
}
