// A mailer that hides a host in the headers of senders, and not in the envelope.
use crate::samples::{Row, config_of, is_so, no_maps};
use addr_route::sender_for;
use mail_base::{Config, NoMemory, Text};
use std::alloc::Global;
use std::test::Fail;

static CONFIG: &str = "Cwmx.example
Djmx.example
O OperatorChars=.:%@!^/[]+
Msmtp, P=[IPC], F=mDFMuX, S=envs/hide, A=TCP $h
Scanonify=3
R$* < $+ > $*\t$2
R$+ @ $+\t$: $1 < @ $2 >
Sfinal=4
R$+ < @ $+ >\t$1 @ $2
Senvs
Shide
R$+ < @ $+ >\t$: $1 < @ hub.example >
";

static ROWS: [Row; 4] = [
    (
        "smtp",
        "From: \"Bob B.\" <bob@c.example> (office)",
        "From: \"Bob B.\" <bob@hub.example> (office)",
    ),
    (
        "smtp",
        "To: ann@far.example, Friends: x@y, z@w;",
        "To: ann@far.example, Friends: x@y, z@w;",
    ),
    ("smtp", "To: ann@far.example", "To: ann@far.example"),
    ("smtp", "Subject: <a@b>", "Subject: <a@b>"),
];

fn keeps_the_envelope(alloc: Global, config: &Config) -> Result<bool, NoMemory> {
    let name = Text::of(alloc, b"smtp")?;
    let Some(mailer) = config.mailer(&name) else {
        return Ok(false);
    };
    let maps = no_maps(alloc, config)?;
    let sender = Text::of(alloc, b"bob@c.example")?;
    let given = sender_for(alloc, config, &maps, &config.macros, mailer, &sender)?;
    Ok(given.bytes() == b"bob@c.example".as_slice())
}

#[test]
fn a_host_is_hidden_in_headers_alone(rt: HostRuntime) -> Result<(), Fail> {
    let config = config_of(rt.alloc(), CONFIG)?;
    for (at, row) in ROWS.iter().enumerate() {
        assert!(rt; is_so(rt.alloc(), &config, row)?, "row {at}");
    }
    assert!(rt; keeps_the_envelope(rt.alloc(), &config)?);
    Ok(())
}
