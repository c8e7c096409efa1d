// Whole dialogues, as rows; and what no line is answered by.
use crate::talk::{NO_LIMITS, Row, Talk};
use mail_base::{NoMemory, Text};
use smtp_receive::{out_of_memory, too_many_sessions};

/// A stream, and what is said to it: the cases of a command in their order, and of neighbours the
/// first.
pub(crate) static SESSIONS: [Row; 74] = [
    (
        b"",
        b"HELO c.example\r\nMAIL FROM:<bob@c.example>\r\nRCPT TO:<ann@mx.example>\r\nDATA\r\n\
            Subject: hi\r\n\r\nhello\r\n.\r\nQUIT\r\n",
        b"250 localhost Hello\r\n250 2.1.0 Sender ok\r\n250 2.1.5 Recipient ok\r\n\
            354 Enter mail, end with \".\" on a line by itself\r\n\
            +++<bob@c.example><ann@mx.example>{Subject: hi}[hello\r\n] SMTP c.example 10.0.0.1\r\n\
            250 2.0.0 w000000000001 Message accepted for delivery\r\n\
            221 2.0.0 localhost closing connection\r\n",
    ),
    (
        b"",
        b"EHLO c.example\r\nMAIL FROM:<bob@c.example> BODY=8BITMIME SIZE=16777216\r\n\
            RCPT TO:<a>\r\nRCPT TO:<no>\r\nRCPT TO:<b>\r\nDATA\r\nhello\r\n.\r\nDATA\r\n",
        b"250-localhost Hello\r\n250-PIPELINING\r\n250-SIZE 16777216\r\n250 8BITMIME\r\n\
            250 2.1.0 Sender ok\r\n250 2.1.5 Recipient ok\r\n550 5.7.1 Refused\r\n\
            250 2.1.5 Recipient ok\r\n354 Enter mail, end with \".\" on a line by itself\r\n\
            +<bob@c.example><a><b>[hello\r\n] ESMTP c.example 10.0.0.1 8BITMIME\r\n\
            250 2.0.0 w000000000001 Message accepted for delivery\r\n\
            503 5.5.1 Need RCPT first\r\n",
    ),
    (b"", b"EXPN \x7f\r\n", b"500 5.5.2 Bad byte in line\r\n"),
    (b"", b"\x7f\r\n", b"500 5.5.2 Bad byte in line\r\n"),
    (b"", b"HELO \x7f\r\n", b"500 5.5.2 Bad byte in line\r\n"),
    (b"", b"\r\n", b"500 5.5.1 Command unrecognized\r\n"),
    (b"", b"QUITE\r\n", b"500 5.5.1 Command unrecognized\r\n"),
    (b"", b"HELO \t\r\n", b"501 5.5.4 Argument needed\r\n"),
    (b"", b"EHLO\r\n", b"501 5.5.4 Argument needed\r\n"),
    (b"", b"vrfy \r\n", b"501 5.5.4 Argument needed\r\n"),
    (b"", b"DATA x\r\n", b"501 5.5.4 No argument allowed\r\n"),
    (b"", b"RSET now\r\n", b"501 5.5.4 No argument allowed\r\n"),
    (b"", b"quit now\r\n", b"501 5.5.4 No argument allowed\r\n"),
    (
        b"",
        b"ehlo a\r\n",
        b"250-localhost Hello\r\n250-PIPELINING\r\n250-SIZE 16777216\r\n250 8BITMIME\r\n",
    ),
    (
        b"",
        b"MAIL FROM:<>\r\nMAIL\r\n",
        b"250 2.1.0 Sender ok\r\n503 5.5.1 Sender already given\r\n",
    ),
    (b"", b"RCPT\r\n", b"503 5.5.1 Need MAIL first\r\n"),
    (b"", b"DATA\r\n", b"503 5.5.1 Need RCPT first\r\n"),
    (
        b"",
        b"MAIL FROM:<a>\r\nDATA\r\n",
        b"250 2.1.0 Sender ok\r\n503 5.5.1 Need RCPT first\r\n",
    ),
    (
        b"",
        b"MAIL FROM:<\">\r\n",
        b"501 5.5.2 Syntax error in path\r\n",
    ),
    (
        b"",
        b"MAIL FROM:<\"a>\r\n",
        b"501 5.5.2 Syntax error in path\r\n",
    ),
    (
        b"",
        b"MAIL FROM:<\"a\\\">\r\n",
        b"501 5.5.2 Syntax error in path\r\n",
    ),
    (
        b"",
        b"MAIL FROM:<a\\>b>\r\n",
        b"501 5.5.2 Syntax error in path\r\n",
    ),
    (
        b"",
        b"MAIL FROM:<a>b\r\n",
        b"501 5.5.2 Syntax error in path\r\n",
    ),
    (
        b"",
        b"MAIL FROM:\r\n",
        b"501 5.5.2 Syntax error in path\r\n",
    ),
    (
        b"",
        b"MAIL FROM:<a> SIZE=99999999 X=1\r\n",
        b"555 5.5.4 Parameter not known\r\n",
    ),
    (
        b"",
        b"MAIL FROM:<a> SIZE=1 SIZE=16777217\r\n",
        b"552 5.3.4 Message too large\r\n",
    ),
    (
        b"",
        b"MAIL FROM:<a> BODY=9BIT\r\n",
        b"555 5.5.4 Parameter not known\r\n",
    ),
    (
        b"",
        b"MAIL FROM:<a>\r\nRCPT TO:<> SIZE=1\r\n",
        b"250 2.1.0 Sender ok\r\n555 5.5.4 Parameter not known\r\n",
    ),
    (
        b"",
        b"MAIL FROM:<no> SIZE=16777217\r\n",
        b"552 5.3.4 Message too large\r\n",
    ),
    (
        b"",
        b"MAIL FROM:<a> SIZE=99999999999999999999\r\n",
        b"552 5.3.4 Message too large\r\n",
    ),
    (
        b"",
        b"MAIL FROM:<no> SIZE=16777216\r\n",
        b"550 5.7.1 Refused\r\n",
    ),
    (
        b"",
        b"MAIL FROM:<no>\r\nRCPT TO:<a>\r\n",
        b"550 5.7.1 Refused\r\n503 5.5.1 Need MAIL first\r\n",
    ),
    (b"", b"MAIL FROM:<no(>\r\n", b"550 5.7.1 Refused\r\n"),
    (
        b"",
        b"MAIL FROM:<a(>\r\nMAIL FROM:<a>\r\n",
        b"553 5.1.3 Bad address\r\n250 2.1.0 Sender ok\r\n",
    ),
    (b"", b"MAIL FROM:<a<b>\r\n", b"553 5.1.3 Bad address\r\n"),
    (b"", b"MAIL FROM:<a\\>\r\n", b"553 5.1.3 Bad address\r\n"),
    (b"", b"MAIL FROM:<>\r\n", b"250 2.1.0 Sender ok\r\n"),
    (b"", b"MAIL FROM:<a> \t\r\n", b"250 2.1.0 Sender ok\r\n"),
    (
        b"",
        b"MAIL FROM:<a> body=7bit\r\n",
        b"250 2.1.0 Sender ok\r\n",
    ),
    (b"", b"MAIL FROM:<a> SIZE=1\r\n", b"250 2.1.0 Sender ok\r\n"),
    (
        b"",
        b"MAIL FROM:<>\r\nRCPT TO:<@a:>\r\nRCPT TO:b\r\n",
        b"250 2.1.0 Sender ok\r\n553 5.1.3 User address required\r\n\
            250 2.1.5 Recipient ok\r\n",
    ),
    (
        b"",
        b"MAIL FROM:<a>\r\nRCPT TO:<no>\r\nDATA\r\n",
        b"250 2.1.0 Sender ok\r\n550 5.7.1 Refused\r\n503 5.5.1 Need RCPT first\r\n",
    ),
    (
        b"",
        b"MAIL FROM:<a>\r\nRCPT TO:<twin>\r\nRCPT TO:<no>\r\nRCPT TO:<b>\r\n",
        b"250 2.1.0 Sender ok\r\n250 2.1.5 Recipient ok\r\n550 5.7.1 Refused\r\n\
            250 2.1.5 Recipient ok\r\n",
    ),
    (
        b"",
        b"MAIL FROM:<fault>\r\nMAIL FROM:<a>\r\nRCPT TO:<fault>\r\nDATA\r\n",
        b"!250 2.1.0 Sender ok\r\n!503 5.5.1 Need RCPT first\r\n",
    ),
    (
        b"",
        b"MAIL FROM:<a>\r\nHELO b\r\nRCPT TO:<c>\r\n",
        b"250 2.1.0 Sender ok\r\n250 localhost Hello\r\n503 5.5.1 Need MAIL first\r\n",
    ),
    (
        b"",
        b"MAIL FROM:<a>\r\nEHLO\r\nRCPT TO:<c>\r\n",
        b"250 2.1.0 Sender ok\r\n501 5.5.4 Argument needed\r\n250 2.1.5 Recipient ok\r\n",
    ),
    (
        b"",
        b"MAIL FROM:<a>\r\nEHLO b\r\nRCPT TO:<c>\r\n",
        b"250 2.1.0 Sender ok\r\n250-localhost Hello\r\n250-PIPELINING\r\n\
            250-SIZE 16777216\r\n250 8BITMIME\r\n503 5.5.1 Need MAIL first\r\n",
    ),
    (
        b"",
        b"MAIL FROM:<a>\r\nRCPT TO:<b>\r\nRSET\r\nMAIL FROM:<c>\r\nDATA\r\n",
        b"250 2.1.0 Sender ok\r\n250 2.1.5 Recipient ok\r\n250 2.0.0 Reset state\r\n\
            250 2.1.0 Sender ok\r\n503 5.5.1 Need RCPT first\r\n",
    ),
    (
        b"",
        b"MAIL FROM:<a> BODY=8BITMIME\r\nRSET\r\nMAIL FROM:<b>\r\nRCPT TO:<c>\r\nDATA\r\n.\r\n",
        b"250 2.1.0 Sender ok\r\n250 2.0.0 Reset state\r\n250 2.1.0 Sender ok\r\n\
            250 2.1.5 Recipient ok\r\n354 Enter mail, end with \".\" on a line by itself\r\n\
            <b><c>[] SMTP  10.0.0.1\r\n250 2.0.0 w000000000001 Message accepted for delivery\r\n",
    ),
    (b"", b"NOOP\r\n", b"250 2.0.0 OK\r\n"),
    (b"", b"noop x\r\n", b"250 2.0.0 OK\r\n"),
    (
        b"",
        b"MAIL FROM:<a>\r\nNOOP\r\nRCPT TO:<b>\r\n",
        b"250 2.1.0 Sender ok\r\n250 2.0.0 OK\r\n250 2.1.5 Recipient ok\r\n",
    ),
    (b"", b"VRFY ann\r\n", b"252 2.5.2 Cannot verify\r\n"),
    (b"", b"EXPN ann\r\n", b"502 5.7.0 Not available\r\n"),
    (b"", b"Expn\r\n", b"502 5.7.0 Not available\r\n"),
    (b"", b"Help\r\n", b"214 2.0.0 See RFC 5321\r\n"),
    (b"", b"HELP x\r\n", b"214 2.0.0 See RFC 5321\r\n"),
    (
        b"",
        b"QUIT\r\n",
        b"221 2.0.0 localhost closing connection\r\n",
    ),
    (
        b"",
        b"EHLO a\r\nHELO b\r\nMAIL FROM:<c>\r\nRCPT TO:<d>\r\nDATA\r\n.\r\n",
        b"250-localhost Hello\r\n250-PIPELINING\r\n250-SIZE 16777216\r\n250 8BITMIME\r\n\
            250 localhost Hello\r\n250 2.1.0 Sender ok\r\n250 2.1.5 Recipient ok\r\n\
            354 Enter mail, end with \".\" on a line by itself\r\n<c><d>[] SMTP b 10.0.0.1\r\n\
            250 2.0.0 w000000000001 Message accepted for delivery\r\n",
    ),
    // Messages are split into headers and body.
    (
        b"MAIL FROM:<b>\r\nRCPT TO:<a>\r\nDATA\r\n",
        b"\r\n..x\r\na\n.\nb\r\n.\r\n",
        b"+++<b><a>[.x\r\na\n.\nb\r\n] SMTP  10.0.0.1\r\n\
            250 2.0.0 w000000000001 Message accepted for delivery\r\n",
    ),
    (
        b"MAIL FROM:<b>\r\nRCPT TO:<a>\r\nDATA\r\n",
        b".\r\n",
        b"<b><a>[] SMTP  10.0.0.1\r\n\
            250 2.0.0 w000000000001 Message accepted for delivery\r\n",
    ),
    (
        b"MAIL FROM:<b>\r\nRCPT TO:<a>\r\nDATA\r\n",
        b"A: b\r\n c\r\n\td\r\nE:f\r\n\r\n\r\ng\r\n.\r\n",
        b"+++++++<b><a>{A: b\r\n c\r\n\td}{E:f}[\r\ng\r\n] SMTP  10.0.0.1\r\n\
            250 2.0.0 w000000000001 Message accepted for delivery\r\n",
    ),
    (
        b"MAIL FROM:<b>\r\nRCPT TO:<a>\r\nDATA\r\n",
        b" c\r\nA: b\r\n.\r\n",
        b"++<b><a>[ c\r\nA: b\r\n] SMTP  10.0.0.1\r\n\
            250 2.0.0 w000000000001 Message accepted for delivery\r\n",
    ),
    (
        b"MAIL FROM:<b>\r\nRCPT TO:<a>\r\nDATA\r\n",
        b": b\r\n\r\n.\r\n",
        b"++<b><a>[: b\r\n\r\n] SMTP  10.0.0.1\r\n\
            250 2.0.0 w000000000001 Message accepted for delivery\r\n",
    ),
    // A path as a MAIL line has it, and as it is taken.
    (
        b"MAIL FROM:<bob@c.example>\r\nRCPT TO:<r>\r\nDATA\r\n",
        b".\r\n",
        b"<bob@c.example><r>[] SMTP  10.0.0.1\r\n\
            250 2.0.0 w000000000001 Message accepted for delivery\r\n",
    ),
    (
        b"MAIL FROM: \t<@a,@b.example:bob@c>\r\nRCPT TO:<r>\r\nDATA\r\n",
        b".\r\n",
        b"<bob@c><r>[] SMTP  10.0.0.1\r\n\
            250 2.0.0 w000000000001 Message accepted for delivery\r\n",
    ),
    (
        b"MAIL FROM:<\"a>b\"@c>\r\nRCPT TO:<r>\r\nDATA\r\n",
        b".\r\n",
        b"<\"a>b\"@c><r>[] SMTP  10.0.0.1\r\n\
            250 2.0.0 w000000000001 Message accepted for delivery\r\n",
    ),
    (
        b"MAIL FROM:<\"a\\\">b\"@c>\r\nRCPT TO:<r>\r\nDATA\r\n",
        b".\r\n",
        b"<\"a\\\">b\"@c><r>[] SMTP  10.0.0.1\r\n\
            250 2.0.0 w000000000001 Message accepted for delivery\r\n",
    ),
    (
        b"MAIL FROM:<\"a\\\"b>\"@c>\r\nRCPT TO:<r>\r\nDATA\r\n",
        b".\r\n",
        b"<\"a\\\"b>\"@c><r>[] SMTP  10.0.0.1\r\n\
            250 2.0.0 w000000000001 Message accepted for delivery\r\n",
    ),
    (
        b"MAIL FROM:<\"a>\\\\\"@c>\r\nRCPT TO:<r>\r\nDATA\r\n",
        b".\r\n",
        b"<\"a>\\\\\"@c><r>[] SMTP  10.0.0.1\r\n\
            250 2.0.0 w000000000001 Message accepted for delivery\r\n",
    ),
    (
        b"MAIL FROM:<\">\"a\">\"@c>\r\nRCPT TO:<r>\r\nDATA\r\n",
        b".\r\n",
        b"<\">\"a\">\"@c><r>[] SMTP  10.0.0.1\r\n\
            250 2.0.0 w000000000001 Message accepted for delivery\r\n",
    ),
    (
        b"MAIL FROM:<a\\b>\r\nRCPT TO:<r>\r\nDATA\r\n",
        b".\r\n",
        b"<a\\b><r>[] SMTP  10.0.0.1\r\n\
            250 2.0.0 w000000000001 Message accepted for delivery\r\n",
    ),
    (
        b"MAIL FROM:bob@c\r\nRCPT TO:<r>\r\nDATA\r\n",
        b".\r\n",
        b"<bob@c><r>[] SMTP  10.0.0.1\r\n\
            250 2.0.0 w000000000001 Message accepted for delivery\r\n",
    ),
    (
        b"MAIL FROM:<@a>\r\nRCPT TO:<r>\r\nDATA\r\n",
        b".\r\n",
        b"<@a><r>[] SMTP  10.0.0.1\r\n\
            250 2.0.0 w000000000001 Message accepted for delivery\r\n",
    ),
];

/// The same where a message may have 60 bytes, two recipients and one hop.
pub(crate) static LIMITED_SESSIONS: [Row; 8] = [
    (
        b"",
        b"EHLO a\r\n",
        b"250-localhost Hello\r\n250-PIPELINING\r\n250-SIZE 60\r\n250 8BITMIME\r\n",
    ),
    (
        b"",
        b"MAIL FROM:<a> SIZE=61\r\nMAIL FROM:<a> SIZE=60\r\n",
        b"552 5.3.4 Message too large\r\n250 2.1.0 Sender ok\r\n",
    ),
    (
        b"",
        b"MAIL FROM:<a>\r\nRCPT TO:<b>\r\nRCPT TO:<no>\r\nRCPT TO:<c>\r\nRCPT TO:<>\r\n\
            RCPT TO:<no>\r\nRCPT TO:<d>\r\n",
        b"250 2.1.0 Sender ok\r\n250 2.1.5 Recipient ok\r\n550 5.7.1 Refused\r\n\
            250 2.1.5 Recipient ok\r\n553 5.1.3 User address required\r\n\
            452 4.5.3 Too many recipients\r\n452 4.5.3 Too many recipients\r\n",
    ),
    (
        b"",
        b"MAIL FROM:<a>\r\nRCPT TO:<b>\r\nDATA\r\n\
            123456789012345678901234567890123456789012345678901234567\r\n.\r\nRCPT TO:<b>\r\n",
        b"250 2.1.0 Sender ok\r\n250 2.1.5 Recipient ok\r\n\
            354 Enter mail, end with \".\" on a line by itself\r\n\
            +<a><b>[123456789012345678901234567890123456789012345678901234567\r\n] \
            SMTP  10.0.0.1\r\n\
            250 2.0.0 w000000000001 Message accepted for delivery\r\n503 5.5.1 Need MAIL first\r\n",
    ),
    (
        b"",
        b"MAIL FROM:<a>\r\nRCPT TO:<b>\r\nDATA\r\nReceived: 1\r\nReceived: 2\r\n\r\n\
            123456789012345678901234567890123456789012345678901234567890\r\n.\r\nRCPT TO:<b>\r\n",
        b"250 2.1.0 Sender ok\r\n250 2.1.5 Recipient ok\r\n\
            354 Enter mail, end with \".\" on a line by itself\r\n\
            ++++552 5.3.4 Message too large\r\n503 5.5.1 Need MAIL first\r\n",
    ),
    (
        b"",
        b"MAIL FROM:<a>\r\nRCPT TO:<b>\r\nDATA\r\nReceived: 1\r\nreceived: 2\r\n.\r\n\
            RCPT TO:<b>\r\n",
        b"250 2.1.0 Sender ok\r\n250 2.1.5 Recipient ok\r\n\
            354 Enter mail, end with \".\" on a line by itself\r\n\
            ++554 5.4.6 Too many hops\r\n503 5.5.1 Need MAIL first\r\n",
    ),
    (
        b"",
        b"MAIL FROM:<a>\r\nRCPT TO:<b>\r\nDATA\r\nReceived: 1\r\n\r\nReceived: 2\r\n.\r\n",
        b"250 2.1.0 Sender ok\r\n250 2.1.5 Recipient ok\r\n\
            354 Enter mail, end with \".\" on a line by itself\r\n\
            +++<a><b>{Received: 1}[Received: 2\r\n] SMTP  10.0.0.1\r\n\
            250 2.0.0 w000000000001 Message accepted for delivery\r\n",
    ),
    (
        b"",
        b"MAIL FROM:<a>\r\nRCPT TO:<b>\r\nDATA\r\nprecedence: BULK \r\n.\r\n",
        b"250 2.1.0 Sender ok\r\n250 2.1.5 Recipient ok\r\n\
            354 Enter mail, end with \".\" on a line by itself\r\n\
            +<a><b>{precedence: BULK }[] SMTP  10.0.0.1 bulk\r\n\
            250 2.0.0 w000000000001 Message accepted for delivery\r\n",
    ),
];

static UNASKED: &[u8] =
    b"220 localhost ESMTP ready\r\n452 4.3.1 Out of memory\r\n421 4.3.2 Too many sessions\r\n";

/// The greeting, and the replies where there is no room.
fn say_unasked(talk: &mut Talk) -> Result<(), NoMemory> {
    let alloc = talk.said.allocator();
    talk.greet()?;
    say(&mut talk.said, out_of_memory(alloc)?)?;
    say(&mut talk.said, too_many_sessions(alloc)?)
}

fn say(said: &mut Text, text: Text) -> Result<(), NoMemory> {
    said.extend(text.bytes())
}

static AFTER_RESET: &[u8] = b"++503 5.5.1 Need RCPT first\r\n250 2.1.0 Sender ok\r\n";

/// What is said to the lines behind one for which there was no memory in mid-data.
fn say_after_reset(talk: &mut Talk) -> Result<(), NoMemory> {
    talk.take(b"MAIL FROM:<a>\r\nRCPT TO:<b>\r\nDATA\r\na\r\n")?;
    talk.reset();
    talk.said.clear();
    talk.take(b"b\r\n.\r\nDATA\r\nMAIL FROM:<c>\r\n")
}

// Some replies no command gets; after want of memory the rest of a message gets no reply.
#[test]
fn replies_that_no_command_gets(rt: HostRuntime) -> Result<(), NoMemory> {
    let mut talk = Talk::new(rt.alloc(), &NO_LIMITS)?;
    say_unasked(&mut talk)?;
    assert!(rt; talk.said.bytes() == UNASKED);
    say_after_reset(&mut talk)?;
    assert!(rt; talk.said.bytes() == AFTER_RESET);
    Ok(())
}
