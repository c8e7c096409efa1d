//! Ways of a step with programs, and with rows that aren't tried, ten seconds after a message from
//! bob came.

use crate::entries::from_bob;
use crate::runs::{Case, NOTHING, is_told};
use std::alloc::Global;
use std::test::Fail;

/// What a row shows; lines of the configuration; recipients; how programs end; and what happens.
type Row = (
    &'static str,
    &'static str,
    &'static str,
    &'static str,
    &'static str,
);

static ROWS: [Row; 20] = [
    (
        "three fates",
        "",
        "ann bob cid",
        "0 75 67",
        "/bin/mail<-d><ann> began recorded: S Q Q; \
         /bin/mail<-d><bob> began recorded: S Q(exit 75) Q; \
         /bin/mail<-d><cid> began recorded: S Q(exit 75) F(5.1.1 exit 67); \
         gave: S Q(exit 75) R2; free = 1.5 S Q(exit 75) R2; 2.1b Q;",
    ),
    (
        "a child that runs",
        "",
        "ann",
        "~0",
        "/bin/mail<-d><ann> began waits recorded: S; free = 1.2 S;",
    ),
    (
        "rows that are done stay",
        "",
        "ann=S bob",
        "0",
        "/bin/mail<-d><bob> began recorded: S S; free = 1.2 S S;",
    ),
    (
        "a row is tried again",
        "",
        "ann=Q",
        "71",
        "/bin/mail<-d><ann> began recorded: Q(exit 71); free = 1.2 Q(exit 71);",
    ),
    (
        "a row that awaits its return",
        "",
        "ann=F",
        "",
        "gave: R2; free = 1.2 R2; 2.1b Q;",
    ),
    ("all rows are done", "", "ann=S", "", "free = 1.1 S;"),
    (
        "batches of two",
        "Mlocal, P=/bin/mail, F=mn, r=2, A=mail -d $u\n",
        "ann bob cid",
        "0 75",
        "/bin/mail<-d><ann><bob> began recorded: S S Q; \
         /bin/mail<-d><cid> began recorded: S S Q(exit 75); free = 1.3 S S Q(exit 75);",
    ),
    (
        "two mailers",
        "Mlocal, P=/bin/mail, F=mn, A=mail -d $u\n\
         Mother, P=/bin/other, F=mn, A=other $u $h\n\
         S0\nRbob < @ $+ >\t$#other $@ $1 $: bob\n",
        "ann bob cid",
        "0 69",
        "/bin/mail<-d><ann><cid> began recorded: S Q S; \
         /bin/other<bob><mx.example> began recorded: S F(5.3.0 exit 69) S; \
         gave: S R2 S; free = 1.4 S R2 S; 2.1b Q;",
    ),
    (
        "two hosts",
        "Mlocal, P=/bin/mail, F=mn, A=mail $h $u\n\
         S0\nR$- < @ $- . $* >\t$#local $@ $2 $: $1\n",
        "<ann@a.x> <bob@b.x> <cid@a.x>",
        "0 0",
        "/bin/mail<a><ann><cid> began recorded: S Q S; \
         /bin/mail<b><bob> began recorded: S S S; free = 1.3 S S S;",
    ),
    (
        "no user in arguments",
        "Mlocal, P=/bin/mail, F=mn, A=mail -d\n",
        "ann bob",
        "",
        "recorded: Q(no user in arguments) Q(no user in arguments); \
         free = 1.2 Q(no user in arguments) Q(no user in arguments);",
    ),
    (
        "a user with a NUL",
        "Mprog, P=/bin/sh, F=mn, A=sh -c $u\n",
        "|x |a\0b |y",
        "0",
        "/bin/sh<-c><x><y> began recorded: S Q S; recorded: S F(5.1.3 NUL in user) S; \
         gave: S R2 S; free = 1.4 S R2 S; 2.1b Q;",
    ),
    (
        "a text of as many bytes as the mailer takes",
        "Mlocal, P=/bin/mail, F=n, M=118, A=mail -d $u\n",
        "ann",
        "0",
        "/bin/mail<-d><ann> began recorded: S; free = 1.2 S;",
    ),
    (
        "a text of one more",
        "Mlocal, P=/bin/mail, F=n, M=117, A=mail -d $u\n",
        "ann",
        "",
        "recorded: F(5.3.4 message too large); gave: R2; free = 1.3 R2; 2.1b Q;",
    ),
    (
        "a route that is refused for now",
        "S0\nRno < @ $+ >\t$#error $@ 4.2.1 $: \"450 not now\"\n",
        "no",
        "",
        "recorded: Q(not now); free = 1.2 Q(not now);",
    ),
    (
        "a route that is refused",
        "S0\nRno < @ $+ >\t$#error $@ 5.2.1 $: \"550 gone\"\n",
        "no ann",
        "0",
        "recorded: F(5.2.1 gone) Q; /bin/mail<-d><ann> began recorded: F(5.2.1 gone) S; \
         gave: R2 S; free = 1.4 R2 S; 2.1b Q;",
    ),
    (
        "refused rows aren't together",
        "S0\nR$+ < @ mx.example >\t$#error $@ 4.2.1 $: \"450 not now\"\n",
        "ann bob",
        "",
        "recorded: Q(not now) Q; recorded: Q(not now) Q(not now); \
         free = 1.3 Q(not now) Q(not now);",
    ),
    (
        "no route",
        "S0\nRno < @ $+ >\t$@ nowhere\n",
        "no",
        "",
        "recorded: F(5.3.5 Address does not resolve); gave: R2; free = 1.3 R2; 2.1b Q;",
    ),
    (
        "a mailer that isn't there",
        "S0\nRno < @ $+ >\t$#nil $: $1\n",
        "no",
        "",
        "recorded: F(5.3.5 Unknown mailer nil); gave: R2; free = 1.3 R2; 2.1b Q;",
    ),
    (
        "a mailer into files",
        "Mfile, P=[FILE], F=n, A=FILE $u\nS0\nRno < @ $+ >\t$#file $: $1\n",
        "no",
        "",
        "recorded: F(5.2.4 File delivery not supported); gave: R2; free = 1.3 R2; 2.1b Q;",
    ),
    (
        "aliases are not asked again",
        "",
        "olga",
        "0",
        "/bin/mail<-d><olga> began recorded: S; free = 1.2 S;",
    ),
];

fn goes(alloc: Global, row: &Row) -> Result<bool, Fail> {
    let case = Case {
        lines: row.1,
        letter: from_bob(row.2),
        moment: 1_767_225_610,
        ids: "1",
        lives: row.3,
        says: "",
    };
    is_told(alloc, &case, NOTHING, true, row.4)
}

#[test]
fn programs_are_started_for_rows(rt: HostRuntime) -> Result<(), Fail> {
    for row in &ROWS {
        assert!(rt; goes(rt.alloc(), row)?, "{}", row.0);
    }
    Ok(())
}
