use crate::receive::{LIMITED_SESSIONS, SESSIONS};
use crate::talk::{Limits, NO_LIMITS, Row, Talk};
use mail_base::NoMemory;
use std::alloc::Global;

/// Each case of the table of replies in its order and, where two cases beside each other in a
/// command's order apply to a line, the line to which both do: the first is replied.
static CASES: [Row; 70] = [
    // A bad byte, before an unknown verb and before an argument that lacks.
    (b"", b"NOOP \x01\r\n", b"500 5.5.2 Bad byte in line\r\n"),
    (b"", b"NOOP \tx\r\n", b"250 2.0.0 OK\r\n"),
    (b"", b"QUITE \x7f\r\n", b"500 5.5.2 Bad byte in line\r\n"),
    (b"", b"HELO\x01\r\n", b"500 5.5.2 Bad byte in line\r\n"),
    // A line without a command, before an argument that lacks.
    (b"", b"\n", b"500 5.5.1 Command unrecognized\r\n"),
    (b"", b" NOOP\r\n", b"500 5.5.1 Command unrecognized\r\n"),
    (b"", b"HELOX\r\n", b"500 5.5.1 Command unrecognized\r\n"),
    (b"", b"DATAX x\r\n", b"500 5.5.1 Command unrecognized\r\n"),
    // Arguments that lack, and that may not be, also where DATA has no recipient.
    (b"", b"helo\r\n", b"501 5.5.4 Argument needed\r\n"),
    (b"", b"EHLO \t \r\n", b"501 5.5.4 Argument needed\r\n"),
    (b"", b"VRFY\r\n", b"501 5.5.4 Argument needed\r\n"),
    (b"", b"DATA x\r\n", b"501 5.5.4 No argument allowed\r\n"),
    (b"", b"RSET x\r\n", b"501 5.5.4 No argument allowed\r\n"),
    (b"", b"QUIT x\r\n", b"501 5.5.4 No argument allowed\r\n"),
    // HELO and EHLO.
    (b"", b"hElO c.example\r\n", b"250 localhost Hello\r\n"),
    (
        b"",
        b"EHLO c.example\r\n",
        b"250-localhost Hello\r\n250-PIPELINING\r\n250-SIZE 16777216\r\n250 8BITMIME\r\n",
    ),
    // MAIL in a transaction, before each fault that a MAIL may have.
    (
        b"MAIL FROM:<a>\r\n",
        b"MAIL FROM:<b>\r\n",
        b"503 5.5.1 Sender already given\r\n",
    ),
    (
        b"MAIL FROM:<a>\r\n",
        b"MAIL FROM <b>\r\n",
        b"503 5.5.1 Sender already given\r\n",
    ),
    (
        b"MAIL FROM:<a>\r\n",
        b"MAIL FROM:<xxxxxxxxxxxxxxxxxxxxxxxxxxxxxxxxxxxxxxxxxxxxxxxxxxxxxxxxxxxxxxxxx@a>\r\n",
        b"503 5.5.1 Sender already given\r\n",
    ),
    (
        b"MAIL FROM:<a>\r\n",
        b"MAIL FROM:<b> A=B\r\n",
        b"503 5.5.1 Sender already given\r\n",
    ),
    (
        b"MAIL FROM:<a>\r\n",
        b"MAIL FROM:<b> SIZE=16777217\r\n",
        b"503 5.5.1 Sender already given\r\n",
    ),
    (
        b"MAIL FROM:<a>\r\n",
        b"MAIL FROM:<no>\r\n",
        b"503 5.5.1 Sender already given\r\n",
    ),
    (
        b"MAIL FROM:<a>\r\n",
        b"MAIL FROM:<(>\r\n",
        b"503 5.5.1 Sender already given\r\n",
    ),
    // RCPT without MAIL, before each fault that an RCPT may have.
    (b"", b"RCPT TO:<a>\r\n", b"503 5.5.1 Need MAIL first\r\n"),
    (b"", b"RCPT <a>\r\n", b"503 5.5.1 Need MAIL first\r\n"),
    (
        b"",
        b"RCPT TO:<xxxxxxxxxxxxxxxxxxxxxxxxxxxxxxxxxxxxxxxxxxxxxxxxxxxxxxxxxxxxxxxxx@a>\r\n",
        b"503 5.5.1 Need MAIL first\r\n",
    ),
    (
        b"",
        b"RCPT TO:<a> A=B\r\n",
        b"503 5.5.1 Need MAIL first\r\n",
    ),
    (b"", b"RCPT TO:<>\r\n", b"503 5.5.1 Need MAIL first\r\n"),
    (b"", b"RCPT TO:<no>\r\n", b"503 5.5.1 Need MAIL first\r\n"),
    // DATA without a recipient that was accepted.
    (b"", b"DATA\r\n", b"503 5.5.1 Need RCPT first\r\n"),
    (
        b"MAIL FROM:<a>\r\nRCPT TO:<no>\r\n",
        b"DATA\r\n",
        b"503 5.5.1 Need RCPT first\r\n",
    ),
    // A path outside the grammar, before one that is too long; that, before a parameter.
    (
        b"",
        b"MAIL FROM <a>\r\n",
        b"501 5.5.2 Syntax error in path\r\n",
    ),
    (
        b"",
        b"MAIL FROM:<xxxxxxxxxxxxxxxxxxxxxxxxxxxxxxxxxxxxxxxxxxxxxxxxxxxxxxxxxxxxxxxxx@a>b\r\n",
        b"501 5.5.2 Syntax error in path\r\n",
    ),
    (
        b"MAIL FROM:<a>\r\n",
        b"RCPT FROM:<a>\r\n",
        b"501 5.5.2 Syntax error in path\r\n",
    ),
    (
        b"MAIL FROM:<a>\r\n",
        b"RCPT TO:<xxxxxxxxxxxxxxxxxxxxxxxxxxxxxxxxxxxxxxxxxxxxxxxxxxxxxxxxxxxxxxxxx@a>b\r\n",
        b"501 5.5.2 Syntax error in path\r\n",
    ),
    (
        b"",
        b"MAIL FROM:<xxxxxxxxxxxxxxxxxxxxxxxxxxxxxxxxxxxxxxxxxxxxxxxxxxxxxxxxxxxxxxxxx@a> A=B\r\n",
        b"501 5.1.3 Path too long\r\n",
    ),
    (
        b"MAIL FROM:<a>\r\n",
        b"RCPT TO:<xxxxxxxxxxxxxxxxxxxxxxxxxxxxxxxxxxxxxxxxxxxxxxxxxxxxxxxxxxxxxxxxx@a> A=B\r\n",
        b"501 5.1.3 Path too long\r\n",
    ),
    (
        b"MAIL FROM:<a>\r\n",
        b"RCPT TO:<@b,@c:xxxxxxxxxxxxxxxxxxxxxxxxxxxxxxxxxxxxxxxxxxxxxxxxxxxxxxxxxxxxxxxx@a>\r\n",
        b"250 2.1.5 Recipient ok\r\n",
    ),
    // A parameter, before a size and a path without a user.
    (
        b"",
        b"MAIL FROM:<a> SIZE=16777217 BODY=9BIT\r\n",
        b"555 5.5.4 Parameter not known\r\n",
    ),
    (
        b"",
        b"MAIL FROM:<a> SIZE=\r\n",
        b"555 5.5.4 Parameter not known\r\n",
    ),
    (
        b"",
        b"MAIL FROM:<a> SIZE=000000000000000000001\r\n",
        b"555 5.5.4 Parameter not known\r\n",
    ),
    (
        b"",
        b"MAIL FROM:<a> SIZE=1 SIZE=\r\n",
        b"555 5.5.4 Parameter not known\r\n",
    ),
    (
        b"MAIL FROM:<a>\r\n",
        b"RCPT TO:<> SIZE=1\r\n",
        b"555 5.5.4 Parameter not known\r\n",
    ),
    // Of two sizes the last counts.
    (
        b"",
        b"MAIL FROM:<a> SIZE=16777217 SIZE=1\r\n",
        b"250 2.1.0 Sender ok\r\n",
    ),
    (
        b"",
        b"MAIL FROM:<a> SIZE=1 SIZE=16777217\r\n",
        b"552 5.3.4 Message too large\r\n",
    ),
    // A size at and above the limit, and before a refusal.
    (
        b"",
        b"MAIL FROM:<a> SIZE=16777216\r\n",
        b"250 2.1.0 Sender ok\r\n",
    ),
    (
        b"",
        b"MAIL FROM:<a> BODY=7BIT SIZE=16777217\r\n",
        b"552 5.3.4 Message too large\r\n",
    ),
    (
        b"",
        b"MAIL FROM:<a> size=99999999999999999999\r\n",
        b"552 5.3.4 Message too large\r\n",
    ),
    (
        b"",
        b"MAIL FROM:<no> SIZE=16777217\r\n",
        b"552 5.3.4 Message too large\r\n",
    ),
    // A recipient without a user.
    (
        b"MAIL FROM:<a>\r\n",
        b"RCPT TO:<>\r\n",
        b"553 5.1.3 User address required\r\n",
    ),
    // Refusals: of a sender, also of one that can't be cut into tokens, and of a recipient.
    (b"", b"MAIL FROM:<no>\r\n", b"550 5.7.1 Refused\r\n"),
    (b"", b"MAIL FROM:<no(>\r\n", b"550 5.7.1 Refused\r\n"),
    (
        b"MAIL FROM:<a>\r\n",
        b"RCPT TO:<no@c>\r\n",
        b"550 5.7.1 Refused\r\n",
    ),
    (
        b"MAIL FROM:<no>\r\n",
        b"RCPT TO:<a>\r\n",
        b"503 5.5.1 Need MAIL first\r\n",
    ),
    // A sender that can't be cut.
    (b"", b"MAIL FROM:<a(>\r\n", b"553 5.1.3 Bad address\r\n"),
    (
        b"MAIL FROM:<a(>\r\n",
        b"RCPT TO:<a>\r\n",
        b"503 5.5.1 Need MAIL first\r\n",
    ),
    // What is accepted.
    (b"", b"mail from: \t<a@b>\r\n", b"250 2.1.0 Sender ok\r\n"),
    (b"", b"MAIL FROM:<>\r\n", b"250 2.1.0 Sender ok\r\n"),
    (
        b"MAIL FROM:<a>\r\n",
        b"rcpt to:b\r\n",
        b"250 2.1.5 Recipient ok\r\n",
    ),
    (
        b"MAIL FROM:<a>\r\nRCPT TO:<b>\r\n",
        b"data\r\n",
        b"354 Enter mail, end with \".\" on a line by itself\r\n",
    ),
    (b"", b"RSET\r\n", b"250 2.0.0 Reset state\r\n"),
    (b"", b"NOOP x\r\n", b"250 2.0.0 OK\r\n"),
    (b"", b"VRFY ann\r\n", b"252 2.5.2 Cannot verify\r\n"),
    (b"", b"EXPN\r\n", b"502 5.7.0 Not available\r\n"),
    (b"", b"EXPN staff\r\n", b"502 5.7.0 Not available\r\n"),
    (b"", b"HELP\r\n", b"214 2.0.0 See RFC 5321\r\n"),
    (
        b"",
        b"QUIT \r\n",
        b"221 2.0.0 localhost closing connection\r\n",
    ),
    // What ends a transaction: RSET, EHLO and HELO, and no other.
    (
        b"MAIL FROM:<a>\r\nRCPT TO:<b>\r\n",
        b"RSET\r\nRCPT TO:<c>\r\nDATA\r\nMAIL FROM:<d>\r\n",
        b"250 2.0.0 Reset state\r\n503 5.5.1 Need MAIL first\r\n503 5.5.1 Need RCPT first\r\n\
            250 2.1.0 Sender ok\r\n",
    ),
    (
        b"MAIL FROM:<a>\r\nRCPT TO:<b>\r\n",
        b"EHLO c\r\nRCPT TO:<c>\r\nMAIL FROM:<d>\r\n",
        b"250-localhost Hello\r\n250-PIPELINING\r\n250-SIZE 16777216\r\n250 8BITMIME\r\n\
            503 5.5.1 Need MAIL first\r\n250 2.1.0 Sender ok\r\n",
    ),
    (
        b"MAIL FROM:<a>\r\n",
        b"NOOP\r\nVRFY b\r\nEXPN b\r\nHELP\r\nHELO\r\nRSET x\r\nMAIL FROM:<c>\r\n",
        b"250 2.0.0 OK\r\n252 2.5.2 Cannot verify\r\n502 5.7.0 Not available\r\n\
            214 2.0.0 See RFC 5321\r\n501 5.5.4 Argument needed\r\n\
            501 5.5.4 No argument allowed\r\n\
            503 5.5.1 Sender already given\r\n",
    ),
];

static SMALL: Limits = Limits {
    size: 20,
    recipients: 2,
    hops: 2,
};

/// The same where a message may have 20 bytes, two recipients and two hops.
static SMALL_CASES: [Row; 16] = [
    (
        b"",
        b"EHLO a\r\n",
        b"250-localhost Hello\r\n250-PIPELINING\r\n250-SIZE 20\r\n250 8BITMIME\r\n",
    ),
    (
        b"",
        b"MAIL FROM:<a> SIZE=20\r\n",
        b"250 2.1.0 Sender ok\r\n",
    ),
    (
        b"",
        b"MAIL FROM:<a> SIZE=21\r\n",
        b"552 5.3.4 Message too large\r\n",
    ),
    // A refused recipient doesn't count, and counts as refused only where there is room for it.
    (
        b"MAIL FROM:<a>\r\nRCPT TO:<b>\r\nRCPT TO:<no>\r\n",
        b"RCPT TO:<c>\r\nRCPT TO:<d>\r\nRCPT TO:<no>\r\nRCPT TO:<>\r\nRCPT TO:<> A=B\r\n",
        b"250 2.1.5 Recipient ok\r\n452 4.5.3 Too many recipients\r\n\
            452 4.5.3 Too many recipients\r\n553 5.1.3 User address required\r\n\
            555 5.5.4 Parameter not known\r\n",
    ),
    // 20 bytes, and 21, in one line and in two.
    (
        b"MAIL FROM:<a>\r\nRCPT TO:<b>\r\nDATA\r\n012345678901234567\r\n",
        b".\r\n",
        b"<a><b>[012345678901234567\r\n] SMTP  10.0.0.1\r\n\
            250 2.0.0 w000000000001 Message accepted for delivery\r\n",
    ),
    (
        b"MAIL FROM:<a>\r\nRCPT TO:<b>\r\nDATA\r\n0123456789012345678\r\n",
        b".\r\nRCPT TO:<b>\r\n",
        b"552 5.3.4 Message too large\r\n503 5.5.1 Need MAIL first\r\n",
    ),
    (
        b"MAIL FROM:<a>\r\nRCPT TO:<b>\r\nDATA\r\n0123456789\r\n01234567\r\n",
        b".\r\n",
        b"552 5.3.4 Message too large\r\n",
    ),
    // A hop in 20 bytes; three hops in a message that is too large.
    (
        b"MAIL FROM:<a>\r\nRCPT TO:<b>\r\nDATA\r\nreceived:\r\n c\r\n\r\nd\r\n",
        b".\r\n",
        b"<a><b>{received:\r\n c}[d\r\n] SMTP  10.0.0.1\r\n\
            250 2.0.0 w000000000001 Message accepted for delivery\r\n",
    ),
    (
        b"MAIL FROM:<a>\r\nRCPT TO:<b>\r\nDATA\r\nReceived:\r\nReceived:\r\nReceived:\r\n",
        b".\r\n",
        b"552 5.3.4 Message too large\r\n",
    ),
    // A stream's end of data ends the transaction, and a new one has its own recipients.
    (
        b"MAIL FROM:<a> BODY=8BITMIME\r\nRCPT TO:<b>\r\nRCPT TO:<c>\r\nDATA\r\nx\r\n.\r\n",
        b"RCPT TO:<d>\r\nMAIL FROM:<e>\r\nRCPT TO:<two>\r\nDATA\r\n.\r\n",
        b"503 5.5.1 Need MAIL first\r\n250 2.1.0 Sender ok\r\n250 2.1.5 Recipient ok\r\n\
            354 Enter mail, end with \".\" on a line by itself\r\n\
            <e><two>[] SMTP  10.0.0.1\r\n\
            250 2.0.0 w000000000001 Message accepted for delivery\r\n",
    ),
    // A refused recipient among good ones isn't kept.
    (
        b"MAIL FROM:<>\r\nRCPT TO:<b>\r\nRCPT TO:<no>\r\nRCPT TO:<two>\r\nDATA\r\n",
        b".\r\n",
        b"<><b><two>[] SMTP  10.0.0.1\r\n\
            250 2.0.0 w000000000001 Message accepted for delivery\r\n",
    ),
    // Lines end at CR LF alone in data, and at LF before it; a first dot goes.
    (
        b"HELO \t c d \nMAIL FROM:<a>\nRCPT TO:<b>\nDATA\n.\n..\r\n...\r\n",
        b".\n.\r\n..\r\n.\r\n",
        b"++<a><b>[\n..\r\n..\r\n\n.\r\n.\r\n] SMTP c d 10.0.0.1\r\n\
            250 2.0.0 w000000000001 Message accepted for delivery\r\n",
    ),
    // 8BITMIME is kept, until the transaction ends.
    (
        b"EHLO c\r\nMAIL FROM:<a> BODY=8bitmime SIZE=1\r\nRCPT TO:<b>\r\nDATA\r\n",
        b".\r\n",
        b"<a><b>[] ESMTP c 10.0.0.1 8BITMIME\r\n\
            250 2.0.0 w000000000001 Message accepted for delivery\r\n",
    ),
    (
        b"MAIL FROM:<a> BODY=8BITMIME\r\nRSET\r\nMAIL FROM:<a>\r\nRCPT TO:<b>\r\nDATA\r\n",
        b".\r\n",
        b"<a><b>[] SMTP  10.0.0.1\r\n\
            250 2.0.0 w000000000001 Message accepted for delivery\r\n",
    ),
    (
        b"MAIL FROM:<a(>\r\nMAIL FROM:<no>\r\nMAIL FROM:<a>\r\n",
        b"RCPT TO:<no>\r\nDATA\r\nRCPT TO:<b>\r\n",
        b"550 5.7.1 Refused\r\n503 5.5.1 Need RCPT first\r\n250 2.1.5 Recipient ok\r\n",
    ),
    (
        b"MAIL FROM:<a>\r\nRCPT TO:<b>\r\nDATA\r\nA: b\r\n",
        b".\r\nDATA\r\n",
        b"<a><b>{A: b}[] SMTP  10.0.0.1\r\n\
            250 2.0.0 w000000000001 Message accepted for delivery\r\n\
            503 5.5.1 Need RCPT first\r\n",
    ),
];

pub(crate) static HOPS: Limits = Limits {
    size: 99_999_999,
    recipients: 20_000,
    hops: 2,
};

/// The same where no number of the configuration is in the way but that of two hops.
static HOP_CASES: [Row; 6] = [
    (
        b"",
        b"EHLO a\r\n",
        b"250-localhost Hello\r\n250-PIPELINING\r\n250-SIZE 16777216\r\n250 8BITMIME\r\n",
    ),
    (
        b"MAIL FROM:<a>\r\nRCPT TO:<b>\r\nDATA\r\nreceived: c\r\nX: y\r\nReceived:\r\n d\r\n",
        b".\r\n",
        b"<a><b>{received: c}{X: y}{Received:\r\n d}[] SMTP  10.0.0.1\r\n\
            250 2.0.0 w000000000001 Message accepted for delivery\r\n",
    ),
    (
        b"MAIL FROM:<a>\r\nRCPT TO:<b>\r\nDATA\r\nReceived:\r\nRECEIVED:\r\nReceived: x\r\n",
        b".\r\nRCPT TO:<b>\r\n",
        b"554 5.4.6 Too many hops\r\n503 5.5.1 Need MAIL first\r\n",
    ),
    (
        b"MAIL FROM:<a>\r\nRCPT TO:<b>\r\nDATA\r\n",
        b"Precedence: bulk\r\n.\r\n",
        b"+<a><b>{Precedence: bulk}[] SMTP  10.0.0.1 bulk\r\n\
            250 2.0.0 w000000000001 Message accepted for delivery\r\n",
    ),
    (
        b"MAIL FROM:<a> BODY=8BITMIME\r\nRCPT TO:<b>\r\nDATA\r\n",
        b"precedence: x\r\nPrecedence:\tBulk \r\nPrecedence: special-delivery\r\n.\r\n",
        b"+++<a><b>{precedence: x}{Precedence:\tBulk }{Precedence: special-delivery}[] \
            SMTP  10.0.0.1 8BITMIME bulk\r\n\
            250 2.0.0 w000000000001 Message accepted for delivery\r\n",
    ),
    (
        b"MAIL FROM:<a>\r\nRCPT TO:<b>\r\nDATA\r\n",
        b"\r\nPrecedence: bulk\r\n.\r\n",
        b"++<a><b>[Precedence: bulk\r\n] SMTP  10.0.0.1\r\n\
            250 2.0.0 w000000000001 Message accepted for delivery\r\n",
    ),
];

static LIMITED: Limits = Limits {
    size: 60,
    recipients: 2,
    hops: 1,
};

// The tables by number, each with its configuration.
fn table(number: usize) -> (&'static Limits, &'static [Row]) {
    match number {
        0 => (&NO_LIMITS, &CASES),
        1 => (&SMALL, &SMALL_CASES),
        2 => (&HOPS, &HOP_CASES),
        3 => (&NO_LIMITS, &SESSIONS),
        _ => (&LIMITED, &LIMITED_SESSIONS),
    }
}

fn is_replied(alloc: Global, limits: &Limits, row: &Row) -> Result<bool, NoMemory> {
    let mut talk = Talk::new(alloc, limits)?;
    talk.take(row.0)?;
    talk.said.clear();
    talk.take(row.1)?;
    Ok(talk.said.bytes() == row.2)
}

#[test]
fn lines_get_their_replies_in_their_order_and_messages_are_split(rt: HostRuntime) {
    for number in 0..5 {
        let (limits, rows) = table(number);
        for (at, row) in rows.iter().enumerate() {
            let is_replied = is_replied(rt.alloc(), limits, row);
            assert!(rt; is_replied == Ok(true), "table {number}, row {at}");
        }
    }
}
