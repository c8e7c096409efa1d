//! A commit of an entry with two children, stopped after each number of changing calls and inside
//! each: every image is opened, and opened again.

ghost use Rattle.std.specs.Prelude.{◌≡◌, All, IfOk, IfSome, None, OnOk};
ghost use Rattle.qf_format.specs.Valid.{IsValid};
ghost use Rattle.spool_store.specs.Keepers.{seen};
ghost use Rattle.spool_store.specs.Parcels.{IsReady};
ghost use Rattle.spool_store.specs.Stores.{IsAtRest};
ghost use Rattle.spool_store.specs.Writes.{IsDraftable};
ghost use Rattle.tests_store.specs.Samples.{sample_dir, sample_dirs};

use mail_base::{Control, Draft, NoMemory, Seq, StoreFault, Text};
use qf_format::parse;
use spool_disk::{File, MemSpool, Spool, StopSpool};
use spool_store::{Parcel, Queue};
use std::alloc::Global;

/// A control text of an entry with an open row.
pub(crate) static CONTROL: &[u8] =
    b"V1\nv1\ngmqueue\nT1767225600\nK0\nN0\nP30022\nc0\nS<bob@c.example>\n$rESMTP\n$sc.example\n\
        ${client_addr}\nRPFD:<ann@mx.example>\neQ\nHSubject: hi\n.\n";

/// The body of each entry.
pub(crate) static BODY: &[u8] = b"hello\r\n";

pub(crate) fn dirs(alloc: Global) -> Result<Seq<Text>, NoMemory>
    ensures { IfOk result (λ dirs. dirs ≡ sample_dirs) }
{
    let mut dirs = Seq::new(alloc);
    dirs.push(dir(alloc)?)?;
    Ok(dirs)
}

pub(crate) fn dir(alloc: Global) -> Result<Text, NoMemory>
    ensures { IfOk result (λ dir. dir ≡ sample_dir) }
{
    Text::of(alloc, b"q")
}

fn parsed(alloc: Global, text: &[u8]) -> Result<Option<Control>, NoMemory>
    ensures { IfOk result (λ r. IfSome r IsValid) }
{
    parse(&Text::of(alloc, text)?)
}

// A draft of an entry that is no child.
#[tactic(auto, using(crate::proofs::SampleLemmas::draftable))]
fn draft_of(dir: Text, control: Control) -> Draft
    requires dir { dir ≡ sample_dir }
    requires valid { IsValid control }
    ensures can { IsDraftable sample_dirs result }
    ensures alone { result.control.parent ≡ None }
{
    let mut control = control;
    control.parent = None;
    Draft {
        id: None,
        dir,
        control,
    }
}

/// A draft of an entry of that control text that is no child.
pub(crate) fn drafted(alloc: Global, text: &[u8]) -> Result<Option<Draft>, NoMemory>
    ensures can { IfOk result (λ r. IfSome r (IsDraftable sample_dirs)) }
    ensures alone { IfOk result (λ r. IfSome r (λ d. d.control.parent ≡ None)) }
{
    let dir = dir(alloc)?;
    match parsed(alloc, text)? {
        Some(control) => Ok(Some(draft_of(dir, control))),
        None => Ok(None),
    }
}

// Adds a draft of a child.
fn add_child(alloc: Global, children: &mut Seq<Draft>) -> Result<(), NoMemory>
    ensures { All (IsDraftable sample_dirs) children.old
        → OnOk result (All (IsDraftable sample_dirs) children.new) }
{
    match drafted(alloc, CONTROL)? {
        Some(draft) => children.push(draft),
        None => Ok(()),
    }
}

/// Drafts of two children.
pub(crate) fn two_children(alloc: Global) -> Result<Seq<Draft>, NoMemory>
    ensures { IfOk result (All (IsDraftable sample_dirs)) }
{
    let mut children = Seq::new(alloc);
    add_child(alloc, &mut children)?;
    add_child(alloc, &mut children)?;
    Ok(children)
}

// Makes an entry with its children ready.
#[tactic(auto, using(crate::proofs::SampleLemmas::can_prepare, crate::proofs::SampleLemmas::ready_ok))]
fn ready(
    queue: &mut Queue,
    children: &Seq<Draft>,
    parent: &Draft,
    body: Text,
) -> Result<Parcel, StoreFault>
    requires dirs { (seen queue.old).dirs ≡ sample_dirs }
    requires children { All (IsDraftable sample_dirs) children.now }
    requires parent { IsDraftable sample_dirs parent.now }
    requires alone { parent.now.control.parent ≡ None }
    ensures ready { IfOk result (IsReady (seen queue.new)) }
    ensures same { seen queue.new ≡ record (seen queue.old) { room = (seen queue.new).room } }
{
    queue.prepare(children, parent, body)
}

/// Commits an entry with its children.
#[tactic(auto, using(crate::proofs::SampleLemmas::room_agrees))]
pub(crate) fn commit_drafts<D: Spool>(
    spool: &mut D,
    queue: &mut Queue,
    children: &Seq<Draft>,
    parent: &Draft,
) -> Result<(), StoreFault>
    requires agrees { IsAtRest (seen queue.old) (D.seen spool.old) }
    requires dirs { (seen queue.old).dirs ≡ sample_dirs }
    requires children { All (IsDraftable sample_dirs) children.now }
    requires parent { IsDraftable sample_dirs parent.now }
    requires alone { parent.now.control.parent ≡ None }
    ensures agrees { OnOk result (IsAtRest (seen queue.new) (D.seen spool.new)) }
{
    let body = Text::of(children.allocator(), BODY)?;
    let parcel = ready(queue, children, parent, body)?;
    match queue.commit(spool, parcel) {
        Ok(_id) => Ok(()),
        Err(_fault) => Err(StoreFault::SpoolFault),
    }
}

// Commits an entry with two children.
fn commit_them<D: Spool>(
    alloc: Global,
    spool: &mut D,
    queue: &mut Queue,
) -> Result<bool, StoreFault>
    requires agrees { IsAtRest (seen queue.old) (D.seen spool.old) }
    requires dirs { (seen queue.old).dirs ≡ sample_dirs }
{
    let children = two_children(alloc)?;
    let Some(parent) = drafted(alloc, CONTROL)? else {
        return Ok(false);
    };
    Ok(commit_drafts(spool, queue, &children, &parent).is_ok())
}

// Opens the spool, and commits it.
fn opens_and_commits<D: Spool>(alloc: Global, spool: &mut D) -> Result<bool, StoreFault> {
    let mut queue = Queue::open(alloc, spool, &dirs(alloc)?)?;
    commit_them(alloc, spool, &mut queue)
}

// Whether a file is no body, or the one that was committed.
fn is_whole(file: &File) -> bool {
    file.name.bytes().first() != Some(&b'd') || file.bytes.bytes() == BODY
}

/// How many files are there, if the bodies among them are whole.
pub(crate) fn whole_files(spool: &MemSpool) -> Result<Option<usize>, NoMemory> {
    let files = spool.files()?;
    for file in files.items() {
        if !is_whole(file) {
            return Ok(None);
        }
    }
    Ok(Some(files.len()))
}

// How many entries an image has once it is opened, if each has its files whole and no other is
// there.
fn entries_in(alloc: Global, image: &mut MemSpool) -> Result<Option<usize>, StoreFault> {
    let queue = Queue::open(alloc, image, &dirs(alloc)?)?;
    let count = queue.entries().len();
    if whole_files(image)? == Some(count.saturating_mul(2)) {
        return Ok(Some(count));
    }
    Ok(None)
}

// The same of an image that is opened, and opened again.
fn entries_twice(alloc: Global, image: &mut MemSpool) -> Result<Option<usize>, StoreFault> {
    let count = entries_in(alloc, image)?;
    if entries_in(alloc, image)? == count {
        return Ok(count);
    }
    Ok(None)
}

// Whether each image of a stop has the three entries, or none where they weren't acknowledged.
fn all_right(alloc: Global, spool: &StopSpool, is_told: bool) -> Result<bool, StoreFault> {
    for mut image in spool.images()?.into_vec() {
        let count = entries_twice(alloc, &mut image)?;
        if count != Some(3) && (is_told || count != Some(0)) {
            return Ok(false);
        }
    }
    Ok(true)
}

// Whether a commit is acknowledged that is stopped after so many calls, if each image of the stop
// is right.
fn stopped(alloc: Global, passes: u64) -> Result<Option<bool>, StoreFault> {
    let mut spool = StopSpool::new(MemSpool::new(alloc, Seq::new(alloc)), passes);
    let is_told = opens_and_commits(alloc, &mut spool)?;
    if all_right(alloc, &spool, is_told)? {
        return Ok(Some(is_told));
    }
    Ok(None)
}

// Nine changing calls are needed, and no more.
#[test]
fn a_stopped_commit_leaves_the_table_before_or_after(rt: HostRuntime) {
    for passes in 0..11u64 {
        let told = stopped(rt.alloc(), passes);
        assert_eq!(rt; told, Ok(Some(passes >= 9)), "after {passes}");
    }
}

// A spool whose call of that number fails.
fn failing_at(alloc: Global, call: u64) -> Result<MemSpool, NoMemory> {
    let mut calls = Seq::new(alloc);
    calls.push(call)?;
    Ok(MemSpool::new(alloc, calls))
}

// Whether a call that fails is told, and is the last one, and the spool has the three entries or
// none.
fn is_told(alloc: Global, call: u64) -> Result<bool, StoreFault> {
    let mut spool = failing_at(alloc, call)?;
    let did = opens_and_commits(alloc, &mut spool);
    let is_last = spool.calls() == call.saturating_add(1);
    let count = entries_twice(alloc, &mut spool)?;
    Ok(is_last && !matches!(did, Ok(true)) && (count == Some(0) || count == Some(3)))
}

// The listing, and the nine of the commit.
#[test]
fn each_call_that_fails_is_told_and_the_last(rt: HostRuntime) {
    for call in 0..10u64 {
        assert_eq!(rt; is_told(rt.alloc(), call), Ok(true), "call {call}");
    }
}

// How many calls opening and committing take: a listing of the one directory, and three for each
// entry.
fn calls(alloc: Global) -> Result<u64, StoreFault> {
    let mut spool = MemSpool::new(alloc, Seq::new(alloc));
    let _is_told = opens_and_commits(alloc, &mut spool)?;
    Ok(spool.calls())
}

#[test]
fn a_listing_and_nine_calls_are_all(rt: HostRuntime) {
    assert_eq!(rt; calls(rt.alloc()), Ok(10));
}
