//! A message and its cuts, of control texts.

ghost use Rattle.std.specs.Prelude.{◌<◌, ◌≤◌, All, IfOk, IsTrue, OnOk, length};
ghost use Rattle.mail_base.specs.Limits.{most_rows};
ghost use Rattle.qf_format.specs.Valid.{IsRow, IsValid};
ghost use Rattle.table_samples.specs.Samples.{AreSampleCuts, HasAddress, IsSampleCut};
ghost use Rattle.table_samples.specs.Samples.{IsSampleMessage};

use mail_base::{
    Control, Cut, Draw, MOST_ROWS, Message, NoMemory, Resolved, Row, Seq, StoreFault, Text, Triple,
    TryCopy,
};
use qf_format::parse;
use std::alloc::Global;

// A text that can't be read is told as a fault of the spool.
fn parsed(alloc: Global, text: &[u8]) -> Result<Control, StoreFault>
    ensures { IfOk result IsValid }
{
    let text = Text::of(alloc, text)?;
    match parse(&text)? {
        Some(control) => Ok(control),
        None => Err(StoreFault::SpoolFault),
    }
}

fn route(alloc: Global) -> Result<Resolved, NoMemory> {
    Ok(Resolved::Goes(Triple {
        mailer: Text::of(alloc, b"local")?,
        host: Text::new(alloc),
        user: Text::of(alloc, b"ann")?,
    }))
}

fn draw_of(row: &Row, sender: &Text) -> Result<Draw, NoMemory>
    requires { IsRow row.now }
    ensures { IfOk result HasAddress }
{
    Ok(Draw {
        address: row.address.copy()?,
        sender: sender.copy()?,
        primary: row.primary,
        resolved: route(row.address.allocator())?,
    })
}

fn add_draw(draws: &mut Seq<Draw>, row: &Row, sender: &Text) -> Result<(), NoMemory>
    requires row { IsRow row.now }
    requires draws { All HasAddress draws.old }
    ensures { OnOk result (All HasAddress draws.new) }
{
    let draw = draw_of(row, sender)?;
    draws.push(draw)
}

// Adds each of these rows once.
fn add_draws(draws: &mut Seq<Draw>, rows: &[Row], sender: &Text) -> Result<(), NoMemory>
    requires rows { All IsRow rows.now }
    requires draws { All HasAddress draws.old }
    ensures { OnOk result (All HasAddress draws.new) }
{
    for row in rows {
        add_draw(draws, row, sender)?;
    }
    Ok(())
}

// The rows of a control, so many times.
fn draws_of(control: &Control, copies: u32) -> Result<Seq<Draw>, NoMemory>
    requires { IsValid control.now }
    ensures { IfOk result (All HasAddress) }
{
    let mut draws = Seq::new(control.group.allocator());
    for _ in 0..copies {
        add_draws(&mut draws, control.rows.items(), &control.sender)?;
    }
    Ok(draws)
}

// Whether an entry may have so many rows.
#[tactic(auto, unfolding(mail_base::specs::Limits::most_rows))]
fn are_fit(rows: &Seq<Draw>) -> bool
    ensures some { IsTrue result → 0 < length rows.now }
    ensures few { IsTrue result → length rows.now ≤ most_rows }
{
    !rows.is_empty() && rows.len() <= MOST_ROWS
}

#[tactic(auto, using(crate::proofs::Lemmas::sample_cut))]
fn cut_of(control: &Control, copies: u32) -> Result<Cut, StoreFault>
    requires { IsValid control.now }
    ensures { IfOk result IsSampleCut }
{
    let rows = draws_of(control, copies)?;
    if !are_fit(&rows) {
        return Err(StoreFault::SpoolFault);
    }
    Ok(Cut {
        sender: control.sender.copy()?,
        group: control.group.copy()?,
        rows,
    })
}

fn push_cut(cuts: &mut Seq<Cut>, cut: Cut) -> Result<(), NoMemory>
    requires cut { IsSampleCut cut }
    requires each { All IsSampleCut cuts.old }
    ensures { OnOk result (AreSampleCuts cuts.new) }
{
    cuts.push(cut)
}

/// Adds a cut of the rows of a control text, so many times.
pub fn add_cut(
    alloc: Global,
    cuts: &mut Seq<Cut>,
    text: &[u8],
    copies: u32,
) -> Result<(), StoreFault>
    requires { All IsSampleCut cuts.old }
    ensures { OnOk result (AreSampleCuts cuts.new) }
{
    let control = parsed(alloc, text)?;
    let cut = cut_of(&control, copies)?;
    push_cut(cuts, cut)?;
    Ok(())
}

/// One cut of the rows of a control text.
pub fn one_cut(alloc: Global, text: &[u8]) -> Result<Seq<Cut>, StoreFault>
    ensures { IfOk result AreSampleCuts }
{
    let mut cuts = Seq::new(alloc);
    add_cut(alloc, &mut cuts, text, 1)?;
    Ok(cuts)
}

/// A message of what a control text has, with this body, of this size.
pub fn message_of(alloc: Global, text: &[u8], body: &[u8], size: u64) -> Result<Message, StoreFault>
    ensures { IfOk result IsSampleMessage }
{
    let control = parsed(alloc, text)?;
    Ok(Message {
        sender: control.sender.copy()?,
        headers: control.headers.copy()?,
        body: Text::of(alloc, body)?,
        kept: control.kept.copy()?,
        rows: Seq::new(alloc),
        size,
        class: control.class,
        eight: control.eight,
        marks: control.marks,
    })
}
