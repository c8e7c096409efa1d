use crate::notice::tell;
use mail_base::{Cause, RouteError, Status, Text};
use sendmail_run::{Fault, Outcome};
use std::test::Fail;

// Whether an outcome has this status and this line on standard error.
fn is_told(rt: &HostRuntime, outcome: &Outcome, status: u8, wanted: &[u8]) -> bool {
    let mut line = Vec::new(rt.alloc());
    outcome.status() == status && tell(&mut line, outcome, 9).is_ok() && line.as_slice() == wanted
}

#[test]
fn an_outcome_of_any_mode_has_a_status_and_a_line(rt: HostRuntime) -> Result<(), Fail> {
    let refused = Outcome::ConfigLine(4, Fault::NoTab);
    assert!(rt; is_told(&rt, &Outcome::Done, 0, b""));
    assert!(rt; is_told(&rt, &Outcome::Usage(3), 64, b"sendmail: bad word 3\n"));
    assert!(rt;
        is_told(
            &rt,
            &Outcome::Usage(9),
            64,
            b"sendmail: bad word 9: a word is missing\n"
        )
    );
    assert!(rt; is_told(&rt, &Outcome::NoMemory, 71, b"sendmail: no memory\n"));
    assert!(rt; is_told(&rt, &Outcome::FilesFault, 72, b"sendmail: files fault\n"));
    assert!(rt;
        is_told(
            &rt,
            &refused,
            78,
            b"sendmail: configuration line 4: NoTab\n"
        )
    );
    let no_file = Outcome::NoFile(Text::of(rt.alloc(), b"row1.cf")?);
    assert!(rt; is_told(&rt, &no_file, 66, b"sendmail: no file row1.cf\n"));
    Ok(())
}

#[test]
fn an_outcome_of_one_mode_has_a_status_and_a_line(rt: HostRuntime) -> Result<(), Fail> {
    let alias = Outcome::AliasLine(Text::of(rt.alloc(), b"/aliases")?, 7);
    let turns = Outcome::TurnsSpent(1 << 60);
    assert!(rt;
        is_told(
            &rt,
            &alias,
            65,
            b"sendmail: /aliases, line 7: alias refused\n"
        )
    );
    assert!(rt; is_told(&rt, &Outcome::WriteFault, 73, b"sendmail: write fault\n"));
    assert!(rt; is_told(&rt, &Outcome::ReadFault, 74, b"sendmail: read fault\n"));
    assert!(rt;
        is_told(
            &rt,
            &Outcome::InputLarge,
            76,
            b"sendmail: input too large\n"
        )
    );
    assert!(rt; is_told(&rt, &Outcome::FloorFault, 69, b"sendmail: floor fault\n"));
    assert!(rt; is_told(&rt, &turns, 70, b"sendmail: turns spent\n"));
    assert!(rt; is_told(&rt, &Outcome::SpoolFault, 75, b"sendmail: spool fault\n"));
    assert!(rt; is_told(&rt, &Outcome::IdsSpent, 77, b"sendmail: ids spent\n"));
    Ok(())
}

#[test]
fn a_message_that_is_refused_has_a_status_and_a_line(rt: HostRuntime) -> Result<(), Fail> {
    let error = RouteError {
        code: 550,
        status: Status::of(b"5.1.1").expect(&rt, "a status"),
        text: Text::of(rt.alloc(), b"no such user")?,
        cause: Cause::NotResolved,
    };
    let refused = Outcome::BadRecipient(2, error);
    let large = Outcome::MessageRefused(552);
    assert!(rt;
        is_told(
            &rt,
            &refused,
            67,
            b"sendmail: recipient 2 refused: 550 5.1.1 no such user\n"
        )
    );
    assert!(rt; is_told(&rt, &large, 80, b"sendmail: message refused: 552\n"));
    assert!(rt; is_told(&rt, &Outcome::NoRecipient, 79, b"sendmail: no recipient\n"));
    Ok(())
}
