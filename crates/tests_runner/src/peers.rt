//! Ways of a step with peers.

use crate::entries::{Letter, from_bob};
use crate::runs::{Case, NOTHING, is_told};
use std::alloc::Global;
use std::test::Fail;

/// What a row shows; lines of the configuration; how the message was declared; recipients; what
/// peers say; and what happens.
type Row = (
    &'static str,
    &'static str,
    &'static str,
    &'static str,
    &'static str,
    &'static str,
);

static ROWS: [Row; 16] = [
    (
        "SMTP delivery",
        "",
        "",
        "<ann@far.example>",
        "220 hi\r\n|250 hi\r\n|250 ok\r\n|250 ok\r\n|354 go\r\n|250 ok\r\n",
        "127.0.0.1:25 EHLO mx.example|MAIL FROM:<bob@c.example>|RCPT TO:<ann@far.example>|DATA|\
         ..|QUIT|closed recorded: S; free = 1.2 S;",
    ),
    (
        "later",
        "",
        "",
        "<ann@far.example>",
        "220 hi\r\n|250 hi\r\n|250 ok\r\n|451 later\r\n",
        "127.0.0.1:25 EHLO mx.example|MAIL FROM:<bob@c.example>|RCPT TO:<ann@far.example>|\
         QUIT|closed recorded: Q(451 later); free = 1.2 Q(451 later);",
    ),
    (
        "8 bits",
        "",
        "B8BITMIME\n",
        "<ann@far.example>",
        "220 hi\r\n|250-hi\r\n250 8BITMIME\r\n|550 no\r\n",
        "127.0.0.1:25 EHLO mx.example|MAIL FROM:<bob@c.example> BODY=8BITMIME|QUIT|closed \
         recorded: F(5.0.0 550 no); gave: R2; free = 1.3 R2; 2.1b Q;",
    ),
    (
        "rows of one host are together",
        "",
        "",
        "<ann@far.example> <bob@c.example> <cid@far.example>",
        "220 hi\r\n|250 hi\r\n|250 ok\r\n|250 ok\r\n|550 no\r\n|354 go\r\n|250 ok\r\n|\
         220 hi\r\n|250 hi\r\n|250 ok\r\n|250 ok\r\n|354 go\r\n|452 full\r\n",
        "127.0.0.1:25 EHLO mx.example|MAIL FROM:<bob@c.example>|RCPT TO:<ann@far.example>|\
         RCPT TO:<cid@far.example>|DATA|..|QUIT|closed recorded: S Q F(5.0.0 550 no); \
         127.0.0.1:25 EHLO mx.example|MAIL FROM:<bob@c.example>|RCPT TO:<bob@c.example>|DATA|\
         ..|QUIT|closed recorded: S Q(452 full) F(5.0.0 550 no); gave: S Q(452 full) R2; \
         free = 1.4 S Q(452 full) R2; 2.1b Q;",
    ),
    (
        "rows of a batch of one",
        "Msmtp, P=[IPC], F=mu, r=1, A=TCP $h\n",
        "",
        "<ann@far.example> <cid@far.example>",
        "421 no\r\n|421 off\r\n",
        "127.0.0.1:25 QUIT|closed recorded: Q(421 no) Q; \
         127.0.0.1:25 QUIT|closed recorded: Q(421 no) Q(421 off); \
         free = 1.3 Q(421 no) Q(421 off);",
    ),
    (
        "rows of a mailer without m",
        "Msmtp, P=[IPC], F=u, A=TCP $h\n",
        "",
        "<ann@far.example> <cid@far.example>",
        "554 no\r\n|421 off\r\n",
        "127.0.0.1:25 QUIT|closed recorded: F(5.0.0 554 no) Q; \
         127.0.0.1:25 QUIT|closed recorded: F(5.0.0 554 no) Q(421 off); \
         gave: R2 Q(421 off); free = 1.4 R2 Q(421 off); 2.1b Q;",
    ),
    (
        "a reply each",
        "Mlm, P=[IPC], F=mz, A=FILE /run/lmtp\n\
         S0\nR$+ < @ lm.example >\t$#lm $@ lm $: $1\n",
        "",
        "<a@lm.example> <b@lm.example> <c@lm.example>",
        "220 hi\r\n|250 hi\r\n|250 ok\r\n|250 ok\r\n|550 no\r\n|250 ok\r\n|354 go\r\n|\
         250 ok\r\n452 later\r\n",
        "/run/lmtp LHLO mx.example|MAIL FROM:<bob@c.example>|RCPT TO:<a>|RCPT TO:<b>|RCPT TO:<c>|\
         DATA|..|QUIT|closed recorded: S F(5.0.0 550 no) Q(452 later); \
         gave: S R2 Q(452 later); free = 1.3 S R2 Q(452 later); 2.1b Q;",
    ),
    (
        "closed after one reply",
        "Mlm, P=[IPC], F=mz, A=FILE /run/lmtp\n\
         S0\nR$+ < @ lm.example >\t$#lm $@ lm $: $1\n",
        "",
        "<a@lm.example> <b@lm.example> <c@lm.example>",
        "220 hi\r\n|250 hi\r\n|250 ok\r\n|250 ok\r\n|550 no\r\n|250 ok\r\n|354 go\r\n|\
         250 ok\r\n||",
        "/run/lmtp LHLO mx.example|MAIL FROM:<bob@c.example>|RCPT TO:<a>|RCPT TO:<b>|RCPT TO:<c>|\
         DATA|..|closed recorded: S F(5.0.0 550 no) Q(connection lost); \
         gave: S R2 Q(connection lost); free = 1.3 S R2 Q(connection lost); 2.1b Q;",
    ),
    (
        "a host that isn't known",
        "",
        "",
        "<ann@nil.example> <bob@nil.example>",
        "",
        "recorded: F(5.1.2 no host known) F(5.1.2 no host known); gave: R2 R2; \
         free = 1.3 R2 R2; 2.1b Q;",
    ),
    (
        "second host",
        "S0\nR$+ < @ two.example >\t$#smtp $@ nil:far.example $: $1 < @ two.example >\n",
        "",
        "<ann@two.example>",
        "220 hi\r\n|250 hi\r\n|250 ok\r\n|550 no\r\n",
        "127.0.0.1:25 EHLO mx.example|MAIL FROM:<bob@c.example>|RCPT TO:<ann@two.example>|\
         QUIT|closed recorded: F(5.0.0 550 no); gave: R2; free = 1.3 R2; 2.1b Q;",
    ),
    (
        "the first host answers 4xx",
        "S0\nR$+ < @ two.example >\t$#smtp $@ [192.0.2.7]:far $: $1 < @ two.example >\n",
        "",
        "<ann@two.example>",
        "450 no\r\n|220 hi\r\n|250 hi\r\n|250 ok\r\n|550 no\r\n",
        "192.0.2.7:25 QUIT|closed \
         127.0.0.1:25 EHLO mx.example|MAIL FROM:<bob@c.example>|RCPT TO:<ann@two.example>|\
         QUIT|closed recorded: F(5.0.0 550 no); gave: R2; free = 1.3 R2; 2.1b Q;",
    ),
    (
        "an address",
        "",
        "",
        "<ann@[192.0.2.7]>",
        "",
        "192.0.2.7:25 closed recorded: Q(connection lost); free = 1.2 Q(connection lost);",
    ),
    (
        "a port",
        "Msmtp, P=[TCP], F=mu, A=TCP $h 2525\n",
        "",
        "<ann@far.example>",
        "",
        "127.0.0.1:2525 closed recorded: Q(connection lost); free = 1.2 Q(connection lost);",
    ),
    (
        "a text of as many bytes as the mailer takes",
        "Msmtp, P=[IPC], F=mu, M=122, A=TCP $h\n",
        "",
        "<ann@far.example>",
        "",
        "127.0.0.1:25 closed recorded: Q(connection lost); free = 1.2 Q(connection lost);",
    ),
    (
        "a text of one more",
        "Msmtp, P=[IPC], F=mu, M=121, A=TCP $h\n",
        "",
        "<ann@far.example>",
        "",
        "recorded: F(5.3.4 message too large); gave: R2; free = 1.3 R2; 2.1b Q;",
    ),
    (
        "programs and peers",
        "Mlocal, P=/bin/mail, F=mnz, A=mail -d $u\n",
        "",
        "ann <bob@far.example> cid",
        "421 no\r\n",
        "/bin/mail<-d><ann><cid> began recorded: S Q S; \
         127.0.0.1:25 QUIT|closed recorded: S Q(421 no) S; free = 1.3 S Q(421 no) S;",
    ),
];

fn goes(alloc: Global, row: &Row) -> Result<bool, Fail> {
    let letter = Letter {
        marks: row.2,
        ..from_bob(row.3)
    };
    let case = Case {
        lines: row.1,
        letter,
        moment: 1_767_225_610,
        ids: "1",
        lives: "",
        says: row.4,
    };
    is_told(alloc, &case, NOTHING, true, row.5)
}

#[test]
fn rows_are_delivered_to_peers(rt: HostRuntime) -> Result<(), Fail> {
    for row in &ROWS {
        assert!(rt; goes(rt.alloc(), row)?, "{}", row.0);
    }
    Ok(())
}
