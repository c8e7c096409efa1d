//! Hands a message over to peers as standard input asks for it, and prints what became of each of
//! its recipients. It is for scripts that look at `mailer_smtp` from outside.
#![tactic(auto)]

mod order;

use crate::order::Order;
use anyhow::Result;
use delivery_devices::{Patience, SystemDialer};
use mail_base::{Outcomes, Result1, Seq};
use mailer_smtp::deliver;
use shared_devices::Motion;
use std::io::{Read, Write};

fn main(rt: HostRuntime) -> Result<()> {
    let mut input = Vec::new(rt.alloc());
    let _bytes = rt.stdin().read_to_end(&mut input)?;
    let order = Order::read(rt.alloc(), &input)?;
    let mut outcomes = Outcomes {
        results: Seq::new(rt.alloc()),
    };
    hand_over(rt, &order, &mut outcomes)?;
    for row in outcomes.results.items() {
        print(&rt, row)?;
    }
    Ok(())
}

fn hand_over(rt: HostRuntime, order: &Order, outcomes: &mut Outcomes) -> Result<()> {
    let motion = Motion::new(rt.alloc());
    let mut dialer = SystemDialer::new(rt, &motion, Patience::of_environment());
    deliver(
        rt.alloc(),
        &mut dialer,
        &order.peers,
        order.speech,
        &order.letter,
        outcomes,
    )?;
    Ok(())
}

// Prints the line of a recipient.
fn print(rt: &HostRuntime, row: &Result1) -> Result<()> {
    let mut out = rt.stdout();
    match row {
        Result1::Sent => out.write_all(b"sent")?,
        Result1::Deferred(note) => {
            out.write_all(b"deferred ")?;
            out.write_all(note.bytes())?;
        }
        Result1::Failed(status, note) => {
            out.write_all(b"failed ")?;
            out.write_all(status.bytes())?;
            out.write_all(b" ")?;
            out.write_all(note.bytes())?;
        }
    }
    out.write_all(b"\n")?;
    Ok(())
}
