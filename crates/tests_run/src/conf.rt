// What a configuration says and no mode shows yet: what stands where no line says it, and what
// options, fields and header lines change.
use crate::asking::{Row, is_answered};
use std::test::Fail;

static ROWS: [Row; 52] = [
    // What no line says.
    (
        b"",
        b"O",
        b" /var/spool/mqueue /etc/hosts - .:@[] postmaster",
    ),
    (b"", b"o", b" 0 25 10 0 0 30000 1800 90000"),
    (b"", b"T", b" 25 - 432000 - 0"),
    (b"", b"Qmqueue", b" mqueue /var/spool/mqueue 0 1 - 0"),
    (b"", b"H", b""),
    (b"Mx, P=/x, A=x", b"Mx", b" x /x  - - - - \n 0 - 100 x"),
    (b"Qx", b"Qx", b" x /var/spool/mqueue 0 1 - 0"),
    // Options, and their times and ports.
    (
        b"O DoubleBounceAddress=root",
        b"O",
        b" /var/spool/mqueue /etc/hosts - .:@[] root",
    ),
    (
        b"O DaemonPortOptions=Name=x, Port=submission, Addr=::1",
        b"T",
        b" 587 ::1 432000 - 0",
    ),
    (
        b"O DaemonPortOptions=Port=65535",
        b"T",
        b" 65535 - 432000 - 0",
    ),
    (
        b"O DaemonPortOptions=Port=smtp\nO DaemonPortOptions=Port=26",
        b"T",
        b" 25 - 432000 - 0",
    ),
    (b"O Timeout.queuereturn=1", b"T", b" 25 - 86400 - 0"),
    (b"O timeout.QueueWarn=4h30m", b"T", b" 25 - 432000 16200 0"),
    (b"O Timeout.queuewarn=2", b"T", b" 25 - 432000 7200 0"),
    (b"O MinQueueAge=27", b"T", b" 25 - 432000 - 1620"),
    (
        b"O MaxDaemonSessions=7\nO MaxHopCount=026",
        b"o",
        b" 7 26 10 0 0 30000 1800 90000",
    ),
    (
        b"O ClassFactor=2\nO RetryFactor=3",
        b"o",
        b" 0 25 10 0 0 30000 2 3",
    ),
    (
        b"O RetryFactor=999999999",
        b"o",
        b" 0 25 10 0 0 30000 1800 999999999",
    ),
    (b"O Timeout.queuereturn=1d12h", b"T", b" 25 - 129600 - 0"),
    (
        b"O MinQueueAge=1152921504606846976s",
        b"T",
        b" 25 - 432000 - 1152921504606846976",
    ),
    (
        b"O DaemonPortOptions=Family=inet, Name=MTA-v4, Port=2525, Addr=127.0.0.1",
        b"T",
        b" 2525 127.0.0.1 432000 - 0",
    ),
    (
        b"O DaemonPortOptions=Name=NoMTA, Addr=127.0.0.1, M=E",
        b"T",
        b" 25 127.0.0.1 432000 - 0",
    ),
    (
        b"O DaemonPortOptions=Port=1, Port=2, Addr=a, Addr=",
        b"T",
        b" 2 - 432000 - 0",
    ),
    (b"O DaemonPortOptions=Port=0", b"T", b" 0 - 432000 - 0"),
    (b"O DaemonPortOptions=", b"T", b" 25 - 432000 - 0"),
    (
        b"O DaemonPortOptions=Port=26\nO daemonportoptions=Port=smtp, Addr=x",
        b"T",
        b" 26 - 432000 - 0",
    ),
    // Fields of groups.
    (
        b"Qa, Path=/a, recipients=7, Runners=0, Interval=2, Jobs=3, Flags=f",
        b"Qa",
        b" a /a 7 1 120 3",
    ),
    (
        b"Qa, P=/a, r=7, R=2, I=2h, J=3, N=10",
        b"Qa",
        b" a /a 7 2 7200 3",
    ),
    (
        b"Qa, r=1, r=2, J=1, J=9",
        b"Qa",
        b" a /var/spool/mqueue 2 1 - 9",
    ),
    (b"Qa, I=1d1", b"Qa", b" a /var/spool/mqueue 0 1 86460 0"),
    // Fields of mailers.
    (
        b"Mx, P=/a, P=/b, A=x, A=y z",
        b"Mx",
        b" x /b  - - - - \n 0 - 100 y z",
    ),
    (
        b"Mx, P=/a, A=x, C=1, D=2, N=3, T=4, U=5, W=6, m=7, /=8, L=y",
        b"Mx",
        b" x /a  - - - - \n 0 - 100 x",
    ),
    (b"Mx,,P=/a,,A=x,", b"Mx", b" x /a  - - - - \n 0 - 100 x"),
    (
        b"Mx, Path=/a, Argv=x, Flags= m D\tF",
        b"Mx",
        b" x /a mDF - - - - \n 0 - 100 x",
    ),
    (
        b"Mx,P=/a,A=x,S=a,R=b/",
        b"Mx",
        b" x /a  a a b - \n 0 - 100 x",
    ),
    (
        b"Mx,P=/a,A=x,S= a / b/c ,R=/d",
        b"Mx",
        b" x /a  a b/c - d \n 0 - 100 x",
    ),
    (
        b"Mx,P=/a,A=a\\,b \"c,d\" e",
        b"Mx",
        b" x /a  - - - - \n 0 - 100 a,b c,d e",
    ),
    (b"Mx,P=/a,A=x,E=\\n", b"Mx", b" x /a  - - - - \n 0 - 100 x"),
    (b"Mx,P=/a,A=x,E=", b"Mx", b" x /a  - - - - \n 0 - 100 x"),
    (
        b"Mx,P=/a,A=x,E=\\r\\n",
        b"Mx",
        b" x /a  - - - - \r\n 0 - 100 x",
    ),
    (
        b"Mx,P=/a,A=x,E=\\\\\\f\\b!",
        b"Mx",
        b" x /a  - - - - \\\x0c\x08! 0 - 100 x",
    ),
    (
        b"Mx, P=/a, A=x, M=0, r=250, Q=",
        b"Mx",
        b" x /a  - - - - \n 0 - 250 x",
    ),
    (
        b"Mx, P=/a, A=x, M=2147483648, Q=bulk",
        b"Mx",
        b" x /a  - - - - \n 2147483648 bulk 100 x",
    ),
    (
        b"Mlocal,\t\tP=/usr/sbin/sensible-mda, F=lsDFMAw5:/|@qPn9S, S=EnvFromL/HdrFromL, R=EnvToL/HdrToL,\n\t\tT=DNS/RFC822/X-Unix,\n\t\tA=sensible-mda $g $u $h ${client_addr}",
        b"Mlocal",
        b" local /usr/sbin/sensible-mda lsDFMAw5:/|@qPn9S EnvFromL HdrFromL EnvToL HdrToL \n 0 - 100 sensible-mda $g $u $h ${client_addr}",
    ),
    (
        b"Msmtp,\t\tP=[IPC], F=mDFMuX, S=EnvFromSMTP/HdrFromSMTP, R=EnvToSMTP, E=\\r\\n, L=990,\n\t\tT=DNS/RFC822/SMTP,\n\t\tA=TCP $h",
        b"Msmtp",
        b" smtp [IPC] mDFMuX EnvFromSMTP HdrFromSMTP EnvToSMTP EnvToSMTP \r\n 0 - 100 TCP $h",
    ),
    (
        b"M x ,P = [IPC] , A=TCP $h, F=m D X, S=1/2, R=3, E=\\r\\n, M=10, Q=bulk, r=0, L=9",
        b"Mx",
        b" x [IPC] mDX 1 2 3 3 \r\n 10 bulk 1 TCP $h",
    ),
    // Header lines.
    (b"H?P?Return-Path: <$g>", b"H", b"?P?Return-Path:<$g>;"),
    (b"H? P D ?X :  a b # c", b"H", b"?PD?X:a b;"),
    (
        b"HReceived: from $s\n\tby $j",
        b"H",
        b"??Received:from $s\n\tby $j;",
    ),
    (b"HA:\n\tx\nHB:", b"H", b"??A:\n\tx;??B:;"),
    (b"HA: x\n # y\n z", b"H", b"??A:x;"),
    (b"HSubject: $>Check\nHTo: x", b"H", b"??To:x;"),
];

#[test]
fn lines_say_what_they_mean_and_else_defaults_stand(rt: HostRuntime) -> Result<(), Fail> {
    for (at, row) in ROWS.iter().enumerate() {
        assert!(rt; is_answered(rt.alloc(), row)?, "row {at}");
    }
    Ok(())
}
