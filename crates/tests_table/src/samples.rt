//! Control texts: of entries that were accepted, of what is sent for them, and of what they become.

/// The body of each entry.
pub(crate) static BODY: &[u8] = b"hello\r\n";

/// An entry as it is accepted.
pub(crate) static HELLO: &[u8] =
    b"V1\nv1\ngmqueue\nT1767225600\nK0\nN0\nP30022\nc0\nS<bob@c.example>\n$rESMTP\n\
        $sc.example\n${client_addr}\nRPFD:<ann@mx.example>\neQ\nHReceived: from c.example by \
        mx.example with ESMTP id w000000000001; Thu, 1 Jan 2026 00:00:00 +0000\nHSubject: hi\n.\n";

/// The same after a try ten seconds later, and after one as late as a warning is due.
pub(crate) static DEFERRED: &[u8] =
    b"V1\nv2\ngmqueue\nT1767225600\nK1767225610\nN1\nP120022\nc0\nS<bob@c.example>\n$rESMTP\n\
        $sc.example\n${client_addr}\nRPFD:<ann@mx.example>\neQ exit 75\nHReceived: from c.example \
        by mx.example with ESMTP id w000000000001; Thu, 1 Jan 2026 00:00:00 +0000\nHSubject: hi\n\
        .\n";

pub(crate) static LATE: &[u8] =
    b"V1\nv2\ngmqueue\nT1767225600\nK1767240000\nN1\nP120022\nc0\nS<bob@c.example>\n$rESMTP\n\
        $sc.example\n${client_addr}\nRPFD:<ann@mx.example>\neQ exit 75\nHReceived: from c.example \
        by mx.example with ESMTP id w000000000001; Thu, 1 Jan 2026 00:00:00 +0000\nHSubject: hi\n\
        .\n";

/// And after the warning.
pub(crate) static WARNED: &[u8] =
    b"V1\nv3\ngmqueue\nT1767225600\nK1767240000\nN1\nP120022\nc0\nFw\nS<bob@c.example>\n$rESMTP\n\
        $sc.example\n${client_addr}\nRPFD:<ann@mx.example>\neQ exit 75\nHReceived: from c.example \
        by mx.example with ESMTP id w000000000001; Thu, 1 Jan 2026 00:00:00 +0000\nHSubject: hi\n\
        .\n";

/// The warning.
pub(crate) static WARNING: &[u8] =
    b"V1\nv1\npw000000000001 3\ngbulk\nT1767240000\nK0\nN0\nP30100\nc0\nFb\nS<>\n$r\n$s\n\
        ${client_addr}\nRPFD:<bob@c.example>\neQ\nHSubject: Warning: message still undelivered\n\
        .\n";

/// The same entry a second before it is too old, and as it is too old: both after a try of before.
pub(crate) static YOUNG: &[u8] =
    b"V1\nv3\ngmqueue\nT1767225600\nK1767657599\nN2\nP210022\nc0\nS<bob@c.example>\n$rESMTP\n\
        $sc.example\n${client_addr}\nRPFD:<ann@mx.example>\neQ exit 75\nHReceived: from c.example \
        by mx.example with ESMTP id w000000000001; Thu, 1 Jan 2026 00:00:00 +0000\nHSubject: hi\n\
        .\n";

pub(crate) static OLD: &[u8] =
    b"V1\nv4\ngmqueue\nT1767225600\nK1767657600\nN3\nP300022\nc0\nS<bob@c.example>\n$rESMTP\n\
        $sc.example\n${client_addr}\nRPFD:<ann@mx.example>\neF 4.4.7 exit 75\nHReceived: from \
        c.example by mx.example with ESMTP id w000000000001; Thu, 1 Jan 2026 00:00:00 +0000\n\
        HSubject: hi\n.\n";

/// An entry with three rows, after a try that had another result for each, and after its bounce.
pub(crate) static THREE: &[u8] =
    b"V1\nv1\ngmqueue\nT1767225600\nK0\nN0\nP90022\nc0\nS<bob@c.example>\n$rESMTP\n$sc.example\n\
        ${client_addr}\nRPFD:<ann@mx.example>\neQ\nRPFD:<bob@mx.example>\neQ\n\
        RPFD:<cid@mx.example>\neQ\nHSubject: hi\n.\n";

pub(crate) static THREE_TRIED: &[u8] =
    b"V1\nv2\ngmqueue\nT1767225600\nK1767225610\nN1\nP180022\nc0\nS<bob@c.example>\n$rESMTP\n\
        $sc.example\n${client_addr}\nRPFD:<ann@mx.example>\neS\nRPFD:<bob@mx.example>\neQ exit 75\n\
        RPFD:<cid@mx.example>\neF 5.1.1 exit 67\nHSubject: hi\n.\n";

pub(crate) static THREE_RETURNED: &[u8] =
    b"V1\nv3\ngmqueue\nT1767225600\nK1767225610\nN1\nP180022\nc0\nS<bob@c.example>\n$rESMTP\n\
        $sc.example\n${client_addr}\nRPFD:<ann@mx.example>\neS\nRPFD:<bob@mx.example>\neQ exit 75\n\
        RPFD:<cid@mx.example>\neR w000000000002\nHSubject: hi\n.\n";

/// The bounce.
pub(crate) static BOUNCE: &[u8] =
    b"V1\nv1\npw000000000001 3\ngbulk\nT1767225610\nK0\nN0\nP30100\nc0\nFb\nS<>\n$r\n$s\n\
        ${client_addr}\nRPFD:<bob@c.example>\neQ\nHSubject: Returned mail: see transcript for \
        details\n.\n";

/// An entry without a sender, and as its row is returned.
pub(crate) static NULL: &[u8] =
    b"V1\nv1\ngmqueue\nT1767225600\nK0\nN0\nP30022\nc0\nS<>\n$rESMTP\n$sc.example\n\
        ${client_addr}\nRPFD:<cid@mx.example>\neQ\nHSubject: hi\n.\n";

pub(crate) static NULL_RETURNED: &[u8] =
    b"V1\nv3\ngmqueue\nT1767225600\nK1767225610\nN1\nP120022\nc0\nS<>\n$rESMTP\n$sc.example\n\
        ${client_addr}\nRPFD:<cid@mx.example>\neR w000000000002\nHSubject: hi\n.\n";

/// Its double bounce, and as its row is dead.
pub(crate) static DOUBLE: &[u8] =
    b"V1\nv1\npw000000000001 3\ngmqueue\nT1767225610\nK0\nN0\nP30100\nc0\nFbd\nS<>\n$r\n$s\n\
        ${client_addr}\nRPFD:postmaster\neQ\nHSubject: Returned mail: see transcript for details\n\
        .\n";

pub(crate) static DEAD: &[u8] =
    b"V1\nv3\npw000000000001 3\ngmqueue\nT1767225610\nK1767225620\nN1\nP120100\nc0\nFbd\nS<>\n$r\n\
        $s\n${client_addr}\nRPFD:postmaster\neD 5.1.1 exit 67\nHSubject: Returned mail: see \
        transcript for details\n.\n";

/// An entry of one row that was sent.
pub(crate) static SENT: &[u8] =
    b"V1\nv2\ngmqueue\nT1767225600\nK1767225610\nN1\nP120022\nc0\nS<bob@c.example>\n$rESMTP\n\
        $sc.example\n${client_addr}\nRPFD:<ann@mx.example>\neS\nHReceived: from c.example by \
        mx.example with ESMTP id w000000000001; Thu, 1 Jan 2026 00:00:00 +0000\nHSubject: hi\n.\n";

/// A part of a message to many, in the group of many.
pub(crate) static BULK: &[u8] =
    b"V1\nv1\ngbulk\nT1767225600\nK0\nN0\nP30022\nc0\nS<bob@c.example>\n$rESMTP\n$sc.example\n\
        ${client_addr}\nRPFD:<u1@far.example>\neQ\nHSubject: hi\n.\n";
