//! Each call of each device failing once: in a run of three rows of a program, in a delivery to a
//! peer, and in the reading for a receiver.

use crate::entries::{Letter, from_bob};
use crate::runs::{Case, Device, Failing, is_told};
use std::alloc::Global;
use std::test::Fail;

// Three rows of which the last is returned (3), a delivery (d), or a receiver whose rows are read from
// a file (r).
fn case_of(letter: u8) -> Case {
    let (sender, rows, lives, says) = match letter {
        b'3' => ("<bob@c.example>", "ann bob cid", "0 75 67", ""),
        b'd' => (
            "<bob@c.example>",
            "<ann@far.example>",
            "",
            "220 hi\r\n|250 hi\r\n|250 ok\r\n|250 ok\r\n|354 go\r\n|250 ok\r\n",
        ),
        _ => ("<olga@mx.example>", "cid", "67", ""),
    };
    Case {
        lines: "",
        letter: Letter {
            sender,
            ..from_bob(rows)
        },
        moment: 1_767_225_610,
        ids: "1",
        lives,
        says,
    }
}

/// The case, the device, the number of the call, and what happens.
type Row = (u8, Device, u64, &'static str);

static ROWS: [Row; 44] = [
    // The directories of both groups are listed, and the control text is read.
    (b'3', Device::Spool, 0, "not opened = 1.1 Q Q Q;"),
    (b'3', Device::Spool, 1, "not opened = 1.1 Q Q Q;"),
    (b'3', Device::Spool, 2, "not opened = 1.1 Q Q Q;"),
    // For each row the body is read, and the record is written and renamed.
    (b'3', Device::Spool, 3, "!spool = 1.1 Q Q Q;"),
    (b'3', Device::Spool, 4, "began !spool = 1.1 Q Q Q;"),
    (b'3', Device::Spool, 5, "began !spool = 1.1 Q Q Q;"),
    (b'3', Device::Spool, 6, "began recorded !spool = 1.2 S Q Q;"),
    (
        b'3',
        Device::Spool,
        7,
        "began recorded began !spool = 1.2 S Q Q;",
    ),
    (
        b'3',
        Device::Spool,
        8,
        "began recorded began !spool = 1.2 S Q Q;",
    ),
    (
        b'3',
        Device::Spool,
        9,
        "began recorded began recorded !spool = 1.3 S Q(exit 75) Q;",
    ),
    (
        b'3',
        Device::Spool,
        10,
        "began recorded began recorded began !spool = 1.3 S Q(exit 75) Q;",
    ),
    (
        b'3',
        Device::Spool,
        11,
        "began recorded began recorded began !spool = 1.3 S Q(exit 75) Q;",
    ),
    // For the bounce the body is read, three calls make its entry, and two change that of the rows.
    (
        b'3',
        Device::Spool,
        12,
        "began recorded began recorded began recorded !spool \
         = 1.4 S Q(exit 75) F(5.1.1 exit 67);",
    ),
    (
        b'3',
        Device::Spool,
        13,
        "began recorded began recorded began recorded !spool \
         = 1.4 S Q(exit 75) F(5.1.1 exit 67);",
    ),
    (
        b'3',
        Device::Spool,
        14,
        "began recorded began recorded began recorded !spool \
         = 1.4 S Q(exit 75) F(5.1.1 exit 67);",
    ),
    (
        b'3',
        Device::Spool,
        15,
        "began recorded began recorded began recorded !spool \
         = 1.4 S Q(exit 75) F(5.1.1 exit 67);",
    ),
    (
        b'3',
        Device::Spool,
        16,
        "began recorded began recorded began recorded !spool \
         = 1.4 S Q(exit 75) F(5.1.1 exit 67);",
    ),
    (
        b'3',
        Device::Spool,
        17,
        "began recorded began recorded began recorded !spool \
         = 1.4 S Q(exit 75) F(5.1.1 exit 67);",
    ),
    (
        b'3',
        Device::Spool,
        18,
        "began recorded began recorded began recorded gave free \
         = 1.5 S Q(exit 75) R2; 2.1b Q;",
    ),
    // A start that fails takes no status.
    (
        b'3',
        Device::Spawner,
        0,
        "!start recorded began recorded began recorded free \
         = 1.4 Q(device fault) S Q(exit 75);",
    ),
    (
        b'3',
        Device::Spawner,
        1,
        "began !poll recorded began recorded began recorded gave free \
         = 1.5 Q(device fault) Q(exit 75) R2; 2.1b Q;",
    ),
    (
        b'3',
        Device::Spawner,
        2,
        "began recorded !start recorded began recorded free \
         = 1.4 S Q(device fault) Q(exit 75);",
    ),
    (
        b'3',
        Device::Spawner,
        3,
        "began recorded began !poll recorded began recorded gave free \
         = 1.5 S Q(device fault) R2; 2.1b Q;",
    ),
    (
        b'3',
        Device::Spawner,
        4,
        "began recorded began recorded !start recorded free \
         = 1.4 S Q(exit 75) Q(device fault);",
    ),
    (
        b'3',
        Device::Spawner,
        5,
        "began recorded began recorded began !poll recorded free \
         = 1.4 S Q(exit 75) Q(device fault);",
    ),
    // The body is read before the dial, and what was delivered isn't known of behind a fault.
    (b'd', Device::Spool, 3, "!spool = 1.1 Q;"),
    (b'd', Device::Spool, 4, "!spool = 1.1 Q;"),
    (b'd', Device::Spool, 5, "!spool = 1.1 Q;"),
    // The entry is finished: its control is renamed, and its body goes.
    (b'd', Device::Spool, 6, "recorded !spool = 1.2 S;"),
    (b'd', Device::Spool, 7, "recorded !spool = 1.2 S;"),
    (b'd', Device::Spool, 8, "recorded free = 1.2 S;"),
    // A greeting, a reply to each of five texts, and at last QUIT, which decides nothing.
    (
        b'd',
        Device::Dialer,
        0,
        "!dial recorded free = 1.2 Q(device fault);",
    ),
    (
        b'd',
        Device::Dialer,
        1,
        "!read recorded free = 1.2 Q(device fault);",
    ),
    (
        b'd',
        Device::Dialer,
        2,
        "!write recorded free = 1.2 Q(device fault);",
    ),
    (
        b'd',
        Device::Dialer,
        3,
        "!read recorded free = 1.2 Q(device fault);",
    ),
    (
        b'd',
        Device::Dialer,
        4,
        "!write recorded free = 1.2 Q(device fault);",
    ),
    (
        b'd',
        Device::Dialer,
        5,
        "!read recorded free = 1.2 Q(device fault);",
    ),
    (
        b'd',
        Device::Dialer,
        6,
        "!write recorded free = 1.2 Q(device fault);",
    ),
    (
        b'd',
        Device::Dialer,
        7,
        "!read recorded free = 1.2 Q(device fault);",
    ),
    (
        b'd',
        Device::Dialer,
        9,
        "!read recorded free = 1.2 Q(device fault);",
    ),
    (
        b'd',
        Device::Dialer,
        10,
        "!write recorded free = 1.2 Q(device fault);",
    ),
    (
        b'd',
        Device::Dialer,
        11,
        "!read recorded free = 1.2 Q(device fault);",
    ),
    (b'd', Device::Dialer, 12, "!write recorded free = 1.2 S;"),
    (
        b'r',
        Device::Files,
        0,
        "began recorded !files = 1.2 F(5.1.1 exit 67);",
    ),
];

fn goes(alloc: Global, row: &Row) -> Result<bool, Fail> {
    let failing = Failing {
        device: row.1,
        call: row.2,
    };
    is_told(alloc, &case_of(row.0), failing, false, row.3)
}

#[test]
fn nothing_is_lost_where_a_call_fails(rt: HostRuntime) -> Result<(), Fail> {
    for (at, row) in ROWS.iter().enumerate() {
        assert!(rt; goes(rt.alloc(), row)?, "row {at}");
    }
    Ok(())
}
