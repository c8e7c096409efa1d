// Headers with their rewritten forms: those of RFC 5322, appendix A, and what else may stand in one.
use crate::samples::Row;

/// Mailers whose rulesets for headers give a sender another host and a recipient without a host
/// one; a mailer that names no rulesets, and one that names some that aren't there. The rulesets
/// for the envelope would show.
pub(crate) static CONFIG: &str = "O OperatorChars=.:%@!^/[]+
Mhub, P=[IPC], F=mu, S=envs/hide, R=envr/show, A=TCP $h
Mplain, P=[IPC], F=mu, A=TCP $h
Mlost, P=[IPC], F=mu, S=hide/none, R=show/none, A=TCP $h
Scanonify=3
R$* < $+ > $*\t$2
R$+ @ $+\t$: $1 < @ $2 >
Senvs
R$*\t$: sender
Senvr
R$*\t$: recipient
Shide
Rgone\t$:
Rloop\tloop
R$+ < @ $+ >\t$: $1 < @ hub.example >
R$-\t$: $1 < @ hub.example >
Sshow
R$-\t$: $1 < @ here.example >
Sfinal=4
R$+ < @ $+ >\t$1 @ $2
";

/// Which headers are rewritten, by their names.
pub(crate) static NAMES: [Row; 20] = [
    ("hub", "From: bob", "From: bob@hub.example"),
    ("hub", "FROM:bob@c", "FROM:bob@hub.example"),
    ("hub", "Sender: bob@c", "Sender: bob@hub.example"),
    ("hub", "reply-to: bob@c", "reply-to: bob@hub.example"),
    ("hub", "Errors-To: bob", "Errors-To: bob@hub.example"),
    ("hub", "Resent-From: bob", "Resent-From: bob@hub.example"),
    (
        "hub",
        "Resent-Sender: bob",
        "Resent-Sender: bob@hub.example",
    ),
    (
        "hub",
        "Resent-Reply-To: bob",
        "Resent-Reply-To: bob@hub.example",
    ),
    ("hub", "To: ann", "To: ann@here.example"),
    ("hub", "cc: ann", "cc: ann@here.example"),
    ("hub", "Bcc: ann, eve@x", "Bcc: ann@here.example, eve@x"),
    ("hub", "Resent-To: ann", "Resent-To: ann@here.example"),
    ("hub", "Resent-Cc: ann", "Resent-Cc: ann@here.example"),
    ("hub", "Resent-Bcc: ann", "Resent-Bcc: ann@here.example"),
    ("hub", "Subject: <a@b>", "Subject: <a@b>"),
    ("hub", "Return-Path: <bob@c>", "Return-Path: <bob@c>"),
    (
        "hub",
        "Received: from <a@b> by c",
        "Received: from <a@b> by c",
    ),
    ("hub", "X-From: bob", "X-From: bob"),
    ("hub", "From : bob", "From : bob"),
    ("hub", "From", "From"),
];

/// The forms of RFC 5322, appendix A, some in a header of senders so that each address would show.
pub(crate) static APPENDIX: [Row; 16] = [
    (
        "hub",
        "From: John Doe <jdoe@machine.example>",
        "From: John Doe <jdoe@hub.example>",
    ),
    (
        "hub",
        "Sender: Michael Jones <mjones@machine.example>",
        "Sender: Michael Jones <mjones@hub.example>",
    ),
    (
        "hub",
        "From: \"Joe Q. Public\" <john.q.public@example.com>",
        "From: \"Joe Q. Public\" <john.q.public@hub.example>",
    ),
    (
        "hub",
        "To: Mary Smith <mary@x.test>, jdoe@example.org, Who? <one@y.test>",
        "To: Mary Smith <mary@x.test>, jdoe@example.org, Who? <one@y.test>",
    ),
    (
        "hub",
        "Reply-To: Mary Smith <mary@x.test>, jdoe@example.org, Who? <one@y.test>",
        "Reply-To: Mary Smith <mary@hub.example>, jdoe@hub.example, Who? <one@hub.example>",
    ),
    (
        "hub",
        "Reply-To: <boss@nil.test>, \"Giant; \\\"Big\\\" Box\" <sysservices@example.net>",
        "Reply-To: <boss@hub.example>, \"Giant; \\\"Big\\\" Box\" <sysservices@hub.example>",
    ),
    (
        "hub",
        "To: A Group:Ed Jones <c>,joe@where.test,John <jdoe>;",
        "To: A Group:Ed Jones <c>,joe@where.test,John <jdoe>;",
    ),
    (
        "hub",
        "Cc: Undisclosed recipients:;",
        "Cc: Undisclosed recipients:;",
    ),
    (
        "hub",
        "From: Pete(A nice \\) chap) <pete(his account)@silly.test(his host)>",
        "From: Pete(A nice \\) chap) <pete@hub.example>",
    ),
    (
        "hub",
        "To:A Group(Some people)\r\n     :Chris Jones <c@(Chris's host.)public.example>,\r\n         joe,\r\n  John <jdoe> (my dear friend); (the end of the group)",
        "To:A Group(Some people)\r\n     :Chris Jones <c@(Chris's host.)public.example>,\r\n         joe,\r\n  John <jdoe> (my dear friend); (the end of the group)",
    ),
    (
        "hub",
        "Cc:(Empty list)(start)Hidden recipients  :(nobody(that I know))  ;",
        "Cc:(Empty list)(start)Hidden recipients  :(nobody(that I know))  ;",
    ),
    (
        "hub",
        "From: Joe Q. Public <john.q.public@example.com>",
        "From: Joe Q. Public <john.q.public@hub.example>",
    ),
    (
        "hub",
        "To: Mary Smith <@node.test:mary@example.net>, , jdoe@test  . example",
        "To: Mary Smith <@node.test:mary@example.net>, , jdoe@test.example",
    ),
    (
        "hub",
        "Reply-To: Mary Smith <@node.test:mary@example.net>, , jdoe@test  . example",
        "Reply-To: Mary Smith <@node.test:mary@hub.example>, , jdoe@hub.example",
    ),
    (
        "hub",
        "From: John Doe <jdoe@machine(comment).  example>",
        "From: John Doe <jdoe@hub.example>",
    ),
    (
        "hub",
        "To: Mary Smith\r\n          \r\n          <mary>",
        "To: Mary Smith\r\n          \r\n          <mary@here.example>",
    ),
];

/// Folds, comments, quotes and angles, and what leaves a header as it is.
pub(crate) static OTHERS: [Row; 39] = [
    ("hub", "From:", "From:"),
    ("hub", "From: ", "From: "),
    (
        "hub",
        "From: bob@c,\r\n\teve@d",
        "From: bob@hub.example,\r\n\teve@hub.example",
    ),
    ("hub", "From: bob@\r\n c", "From: bob@hub.example"),
    ("hub", "From: <bob@\r\n c>", "From: <bob@hub.example>"),
    (
        "hub",
        "From:\r\n bob@c\r\n (home)",
        "From:\r\n bob@hub.example\r\n (home)",
    ),
    (
        "hub",
        "From: \"c, d\" <bob@c>",
        "From: \"c, d\" <bob@hub.example>",
    ),
    (
        "hub",
        "From: \"a@b\" <bob@c>",
        "From: \"a@b\" <bob@hub.example>",
    ),
    ("hub", "From: a@b <bob@c>", "From: a@b <bob@hub.example>"),
    ("hub", "From: <bob@c> a@b", "From: <bob@hub.example> a@b"),
    (
        "hub",
        "From: J\u{fc}rgen <bob@c>",
        "From: J\u{fc}rgen <bob@hub.example>",
    ),
    (
        "hub",
        "From: (a@b) bob@c (c@d)",
        "From: (a@b) bob@hub.example (c@d)",
    ),
    (
        "hub",
        "From: (a, b) bob, (c (d)) eve",
        "From: (a, b) bob@hub.example, (c (d)) eve@hub.example",
    ),
    ("hub", "From: bob (x) @c", "From: bob (x) @c"),
    ("hub", "From: (bob)", "From: (bob)"),
    (
        "hub",
        "From: <bob@c> <eve@d>, joe@e",
        "From: <bob@c> <eve@d>, joe@hub.example",
    ),
    ("hub", "From: <<bob@c>>", "From: <<bob@c>>"),
    ("hub", "From: <a,b@c>", "From: <a,b@hub.example>"),
    ("hub", "From: <>", "From: <>"),
    ("hub", "From: < (x) >", "From: < (x) >"),
    ("hub", "From: <bob@c, eve@d", "From: <bob@c, eve@d"),
    ("hub", "From: bob@c>, eve@d", "From: bob@c>, eve@d"),
    ("hub", "From: bob@c, \"eve", "From: bob@c, \"eve"),
    ("hub", "From: bob@c, (eve", "From: bob@c, (eve"),
    ("hub", "From: bob@c\\", "From: bob@c\\"),
    ("hub", "From: bob\\,eve", "From: bob\\,eve@hub.example"),
    (
        "hub",
        "From: <bob\\\r\n x@c>, eve",
        "From: <bob\\\r\n x@c>, eve@hub.example",
    ),
    ("plain", "To: <ann\\\n x@c>", "To: <ann\\\n x@c>"),
    (
        "hub",
        "From: \"bob\r\n smith\"@c",
        "From: \"bob\r\n smith\"@c",
    ),
    (
        "hub",
        "From: \"bob smith\"@c",
        "From: \"bob smith\"@hub.example",
    ),
    ("hub", "From: bob smith", "From: bobsmith"),
    (
        "hub",
        "From: bob@c, loop, eve@d",
        "From: bob@hub.example, loop, eve@hub.example",
    ),
    ("hub", "From: gone, bob", "From: gone, bob@hub.example"),
    ("hub", "From: a@[IPv6:1::2]", "From: a@[IPv6:1::2]"),
    ("hub", "From: <a@[IPv6:1::2]>", "From: <a@hub.example>"),
    ("hub", "From: bob@c; eve@d", "From: bob@c; eve@d"),
    (
        "plain",
        "From: ,,bob @ c,, \"a\" <eve@d> ,",
        "From: ,,bob@c,, \"a\" <eve@d> ,",
    ),
    (
        "plain",
        "To: ann,\r\n Bob . B <bob@c> (x)",
        "To: ann,\r\n Bob . B <bob@c> (x)",
    ),
    ("lost", "From: bob @ c", "From: bob @ c"),
];
