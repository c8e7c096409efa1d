//! Ways of a step once all rows were tried: returns, dead rows, warnings, and ends.

use crate::entries::{Letter, from_bob};
use crate::runs::{Case, NOTHING, is_told};
use std::alloc::Global;
use std::test::Fail;

/// What a row shows; lines of the configuration; marks; class, sender and recipients; the moment of
/// the first claim; the entries that are claimed; how programs end; and what happens.
type Row = (
    &'static str,
    &'static str,
    &'static str,
    &'static str,
    &'static str,
    &'static str,
    u64,
    &'static str,
    &'static str,
    &'static str,
);

// Four hours after a message came, and five days.
const FOUR_HOURS: u64 = 1_767_240_000;

const FIVE_DAYS: u64 = 1_767_657_600;

static ROWS: [Row; 20] = [
    (
        "double bounce",
        "",
        "",
        "0",
        "<>",
        "cid",
        1_767_225_610,
        "1 2",
        "67 67",
        "/bin/mail<-d><cid> began recorded: F(5.1.1 exit 67); gave: R2; free \
         /bin/mail<-d><postmaster> began recorded: F(5.1.1 exit 67); \
         gave: D(5.1.1 exit 67); free = 1.3 R2; 2.3bd D(5.1.1 exit 67);",
    ),
    (
        "who gets double bounces",
        "O DoubleBounceAddress=root\n",
        "",
        "0",
        "<>",
        "cid",
        1_767_225_610,
        "1 2",
        "67 0",
        "/bin/mail<-d><cid> began recorded: F(5.1.1 exit 67); gave: R2; free \
         /bin/mail<-d><root> began recorded: S; free = 1.3 R2; 2.2bd S;",
    ),
    (
        "some rows of a double bounce",
        "",
        "Fbd\n",
        "0",
        "<>",
        "ann bob cid",
        1_767_225_610,
        "1",
        "67 75 0",
        "/bin/mail<-d><ann> began recorded: F(5.1.1 exit 67) Q Q; \
         /bin/mail<-d><bob> began recorded: F(5.1.1 exit 67) Q(exit 75) Q; \
         /bin/mail<-d><cid> began recorded: F(5.1.1 exit 67) Q(exit 75) S; \
         gave: D(5.1.1 exit 67) Q(exit 75) S; free = 1.5bd D(5.1.1 exit 67) Q(exit 75) S;",
    ),
    (
        "a bounce that fails",
        "",
        "Fb\n",
        "0",
        "<>",
        "ann",
        1_767_225_610,
        "1",
        "67",
        "/bin/mail<-d><ann> began recorded: F(5.1.1 exit 67); gave: R2; free \
         = 1.3b R2; 2.1bd Q;",
    ),
    (
        "rows of a receiver",
        "",
        "",
        "0",
        "<olga@mx.example>",
        "cid",
        1_767_225_610,
        "1 2",
        "67 0",
        "/bin/mail<-d><cid> began recorded: F(5.1.1 exit 67); gave: R2; free \
         /bin/mail<-d><eve> began recorded: S; free = 1.3 R2; 2.2b S;",
    ),
    (
        "warning",
        "O Timeout.queuewarn=4h\n",
        "",
        "0",
        "<bob@c.example>",
        "ann",
        FOUR_HOURS,
        "1",
        "75",
        "/bin/mail<-d><ann> began recorded: Q(exit 75); gave: Q(exit 75); free \
         = 1.3w Q(exit 75); 2.1b Q;",
    ),
    (
        "not late enough for a warning",
        "O Timeout.queuewarn=4h\n",
        "",
        "0",
        "<bob@c.example>",
        "ann",
        1_767_239_999,
        "1 1",
        "75 75",
        "/bin/mail<-d><ann> began recorded: Q(exit 75); free \
         /bin/mail<-d><ann> began recorded: Q(exit 75); gave: Q(exit 75); free \
         = 1.4w Q(exit 75); 2.1b Q;",
    ),
    (
        "warned before",
        "O Timeout.queuewarn=4h\n",
        "Fw\n",
        "0",
        "<bob@c.example>",
        "ann",
        FOUR_HOURS,
        "1",
        "75",
        "/bin/mail<-d><ann> began recorded: Q(exit 75); free = 1.2w Q(exit 75);",
    ),
    (
        "no warning for the null sender",
        "O Timeout.queuewarn=4h\n",
        "",
        "0",
        "<>",
        "ann",
        FOUR_HOURS,
        "1",
        "75",
        "/bin/mail<-d><ann> began recorded: Q(exit 75); free = 1.2 Q(exit 75);",
    ),
    (
        "no warning for a class below 0",
        "O Timeout.queuewarn=4h\n",
        "",
        "-1",
        "<bob@c.example>",
        "ann",
        FOUR_HOURS,
        "1",
        "75",
        "/bin/mail<-d><ann> began recorded: Q(exit 75); free = 1.2 Q(exit 75);",
    ),
    (
        "no warnings at all",
        "",
        "",
        "0",
        "<bob@c.example>",
        "ann",
        FOUR_HOURS,
        "1",
        "75",
        "/bin/mail<-d><ann> began recorded: Q(exit 75); free = 1.2 Q(exit 75);",
    ),
    (
        "no row is late",
        "O Timeout.queuewarn=4h\n",
        "",
        "0",
        "<bob@c.example>",
        "ann",
        FOUR_HOURS,
        "1",
        "0",
        "/bin/mail<-d><ann> began recorded: S; free = 1.2 S;",
    ),
    (
        "a bounce and a warning",
        "O Timeout.queuewarn=4h\n",
        "",
        "0",
        "<bob@c.example>",
        "ann bob",
        FOUR_HOURS,
        "1",
        "75 67",
        "/bin/mail<-d><ann> began recorded: Q(exit 75) Q; \
         /bin/mail<-d><bob> began recorded: Q(exit 75) F(5.1.1 exit 67); \
         gave: Q(exit 75) R2; gave: Q(exit 75) R2; free = 1.5w Q(exit 75) R2; 2.1b Q; 3.1b Q;",
    ),
    (
        "too old",
        "O Timeout.queuewarn=4h\n",
        "",
        "0",
        "<bob@c.example>",
        "ann bob",
        FIVE_DAYS,
        "1",
        "75 0",
        "/bin/mail<-d><ann> began recorded: F(4.4.7 exit 75) Q; \
         /bin/mail<-d><bob> began recorded: F(4.4.7 exit 75) S; \
         gave: R2 S; free = 1.4 R2 S; 2.1b Q;",
    ),
    (
        "not too old yet",
        "",
        "",
        "0",
        "<bob@c.example>",
        "ann",
        1_767_657_599,
        "1 1",
        "75 75",
        "/bin/mail<-d><ann> began recorded: Q(exit 75); free \
         /bin/mail<-d><ann> began recorded: F(4.4.7 exit 75); gave: R2; free \
         = 1.4 R2; 2.1b Q;",
    ),
    (
        "an age of its own",
        "O Timeout.queuereturn=10s\n",
        "",
        "0",
        "<bob@c.example>",
        "ann",
        1_767_225_610,
        "1",
        "75",
        "/bin/mail<-d><ann> began recorded: F(4.4.7 exit 75); gave: R2; free = 1.3 R2; 2.1b Q;",
    ),
    (
        "a clock that went back",
        "O Timeout.queuewarn=4h\n",
        "",
        "0",
        "<bob@c.example>",
        "ann",
        1_000,
        "1",
        "75",
        "/bin/mail<-d><ann> began recorded: Q(exit 75); free = 1.2 Q(exit 75);",
    ),
    (
        "a class below 0 is returned",
        "",
        "",
        "-1",
        "<bob@c.example>",
        "ann",
        1_767_225_610,
        "1",
        "67",
        "/bin/mail<-d><ann> began recorded: F(5.1.1 exit 67); gave: R2; free = 1.3 R2; 2.1b Q;",
    ),
    (
        "a bounce is a message like others",
        "O Timeout.queuewarn=4h\n",
        "",
        "0",
        "<ann@mx.example>",
        "cid",
        1_767_225_610,
        "1 2",
        "67 75",
        "/bin/mail<-d><cid> began recorded: F(5.1.1 exit 67); gave: R2; free \
         /bin/mail<-d><ann> began recorded: Q(exit 75); free = 1.3 R2; 2.2b Q(exit 75);",
    ),
    (
        "tried twice",
        "",
        "",
        "0",
        "<bob@c.example>",
        "ann bob",
        1_767_225_610,
        "1 1",
        "0 75 0",
        "/bin/mail<-d><ann> began recorded: S Q; \
         /bin/mail<-d><bob> began recorded: S Q(exit 75); free \
         /bin/mail<-d><bob> began recorded: S S; free = 1.4 S S;",
    ),
];

fn goes(alloc: Global, row: &Row) -> Result<bool, Fail> {
    let letter = Letter {
        marks: row.2,
        class: row.3,
        sender: row.4,
        ..from_bob(row.5)
    };
    let case = Case {
        lines: row.1,
        letter,
        moment: row.6,
        ids: row.7,
        lives: row.8,
        says: "",
    };
    is_told(alloc, &case, NOTHING, true, row.9)
}

#[test]
fn entries_come_to_their_ends(rt: HostRuntime) -> Result<(), Fail> {
    for row in &ROWS {
        assert!(rt; goes(rt.alloc(), row)?, "{}", row.0);
    }
    Ok(())
}
