ghost use Rattle.std.specs.Prelude.{◌≡◌, ◌≢◌, [], IfOk, IfSome, IsSome, IsOk, Some, None};
ghost use Rattle.mail_base.specs.Histories.{HasCause};
ghost use Rattle.mail_base.specs.Causes.{HasEdgeCause};
ghost use Rattle.spool_disk.specs.Disk.{bytes_at, IsImage, IsDone};
ghost use Rattle.spool_disk.specs.Listings.{IsListing};
ghost use Rattle.spool_disk.specs.Samples.{draft_place, one_draft};
ghost use Rattle.spool_disk.specs.Spooled.{Calls, Reads};
ghost use Rattle.spool_disk.specs.declared.change.Change.TheVariants.{Write, Rename, Remove};

use crate::again::{add, calls};
use mail_base::{EdgeFault, Failed, NoMemory, Seq, Text, texts_of};
use spool_disk::{File, MemSpool, Spool, StopSpool};
use std::alloc::Global;

// A spool that tells nothing, as the real one, and all of whose reads fail.
#[derive(Drop)]
struct Quiet {
    faults: u64,
}

impl Spool for Quiet {
    ghost seen = { λ q. record {
      told = None;
      moment = 0;
      left_since = λ t c. ⊥;
      faults = q.faults;
    } };

    ghost only_now = { λ s c h. absurd h };

    ghost at_rest = { λ s. tt };

    ghost earlier = { λ s t u c le h. h };

    fn list(&mut self, _alloc: Global, _dir: &Text) -> Result<Seq<Text>, EdgeFault> {
        self.faults = self.faults.saturating_add(1);
        Err(EdgeFault::Failed)
    }

    fn read(
        &mut self,
        _alloc: Global,
        _dir: &Text,
        _name: &Text,
    ) -> Result<Option<Text>, EdgeFault> {
        self.faults = self.faults.saturating_add(1);
        Err(EdgeFault::Failed)
    }

    fn write_new(&mut self, _dir: &Text, _name: &Text, _bytes: &Text) -> Result<(), Failed> {
        Ok(())
    }

    fn rename(&mut self, _dir: &Text, _from: &Text, _to: &Text) -> Result<(), Failed> {
        Ok(())
    }

    fn remove(&mut self, _dir: &Text, _name: &Text) -> Result<(), Failed> {
        Ok(())
    }
}

fn listed_in<S: Spool>(alloc: Global, spool: &mut S, dir: &Text) -> Result<Seq<Text>, EdgeFault>
    ensures names { IfOk result (λ names. IsListing (S.seen spool.old).told dir.now names) }
    ensures call { Reads (S.seen spool.old) (S.seen spool.new) }
    ensures cause { HasEdgeCause (S.seen spool.old).faults (S.seen spool.new).faults result }
{
    spool.list(alloc, dir)
}

fn bytes_in<S: Spool>(
    alloc: Global,
    spool: &mut S,
    dir: &Text,
    name: &Text,
) -> Result<Option<Text>, EdgeFault>
    ensures bytes { IfOk result
        (λ bytes. IfSome (S.seen spool.old).told
        (λ files. bytes ≡ bytes_at files (dir.now, name.now))) }
    ensures call { Reads (S.seen spool.old) (S.seen spool.new) }
    ensures cause { HasEdgeCause (S.seen spool.old).faults (S.seen spool.new).faults result }
{
    spool.read(alloc, dir, name)
}

fn written<S: Spool>(spool: &mut S, dir: &Text, name: &Text, bytes: &Text) -> Result<(), Failed>
    ensures call { Calls (S.seen spool.old) (S.seen spool.new)
        (IsImage (Write dir.now name.now bytes.now))
        (IsDone (Write dir.now name.now bytes.now)) (IsOk result) }
    ensures cause { HasCause (S.seen spool.old).faults (S.seen spool.new).faults result }
{
    spool.write_new(dir, name, bytes)
}

fn removed<S: Spool>(spool: &mut S, dir: &Text, name: &Text) -> Result<(), Failed>
    ensures call { Calls (S.seen spool.old) (S.seen spool.new) (IsImage (Remove dir.now name.now))
        (IsDone (Remove dir.now name.now)) (IsOk result) }
    ensures cause { HasCause (S.seen spool.old).faults (S.seen spool.new).faults result }
{
    spool.remove(dir, name)
}

fn renamed<S: Spool>(spool: &mut S, dir: &Text, from: &Text, to: &Text) -> Result<(), Failed>
    requires apart { from.now ≢ to.now }
    requires there { IfSome (S.seen spool.old).told
        (λ files. IsSome (bytes_at files (dir.now, from.now))) }
    ensures call { Calls (S.seen spool.old) (S.seen spool.new)
        (IsImage (Rename dir.now from.now to.now))
        (IsDone (Rename dir.now from.now to.now)) (IsOk result) }
    ensures cause { HasCause (S.seen spool.old).faults (S.seen spool.new).faults result }
{
    spool.rename(dir, from, to)
}

// Writes a file in the directory q.
fn put<S: Spool>(alloc: Global, spool: &mut S, name: &[u8], bytes: &[u8]) -> Result<(), EdgeFault> {
    match texts_of(alloc, &[b"q", name, bytes])?.items() {
        [dir, name, bytes] => Ok(written(spool, dir, name, bytes)?),
        _ => Err(EdgeFault::Failed),
    }
}

// Adds the name and the bytes of a file, with a space behind them.
fn add_file<S: Spool>(
    alloc: Global,
    spool: &mut S,
    dir: &Text,
    name: &Text,
    text: &mut Text,
) -> Result<(), EdgeFault> {
    match bytes_in(alloc, spool, dir, name)? {
        Some(bytes) => Ok(add(text, &[name.bytes(), b"=", bytes.bytes(), b" "])?),
        None => Ok(add(text, &[name.bytes(), b"= "])?),
    }
}

fn add_files<S: Spool>(
    alloc: Global,
    spool: &mut S,
    dir: &Text,
    names: &Seq<Text>,
    text: &mut Text,
) -> Result<(), EdgeFault> {
    for name in names.items() {
        add_file(alloc, spool, dir, name, text)?;
    }
    Ok(())
}

// Adds the names and the bytes of the files of the directory q, each with a space behind it.
fn add_all<S: Spool>(alloc: Global, spool: &mut S, text: &mut Text) -> Result<(), EdgeFault> {
    let dir = Text::of(alloc, b"q")?;
    let names = listed_in(alloc, spool, &dir)?;
    add_files(alloc, spool, &dir, &names, text)
}

// Whether the directory shows this.
fn shows<S: Spool>(alloc: Global, spool: &mut S, wanted: &[u8]) -> Result<bool, EdgeFault> {
    let mut text = Text::new(alloc);
    add_all(alloc, spool, &mut text)?;
    Ok(text.bytes() == wanted)
}

// Files as they are written one after the other, and what the directory then shows.
static WRITES: [(&[u8], &[u8], &[u8]); 3] = [
    (b"qf2", b"second", b"qf2=second "),
    (b"df1", b"first", b"df1=first qf2=second "),
    (b"df1", b"again", b"df1=again qf2=second "),
];

#[test]
fn files_are_listed_in_order_and_read(rt: HostRuntime) {
    let mut spool = MemSpool::new(rt.alloc(), Seq::new(rt.alloc()));
    for (at, (name, bytes, all)) in WRITES.iter().enumerate() {
        let is_put = put(rt.alloc(), &mut spool, name, bytes).is_ok();
        assert!(rt;
            is_put && shows(rt.alloc(), &mut spool, all) == Ok(true),
            "file {at}"
        );
    }
}

// A spool that begins with one file.
fn one_file(alloc: Global, failing: &[u64]) -> Result<MemSpool, NoMemory>
    ensures { IfOk result (λ spool. (spool.start ≡ one_draft) × (spool.past ≡ [])) }
{
    let mut files = Seq::new(alloc);
    files.push(File {
        dir: Text::of(alloc, b"q")?,
        name: Text::of(alloc, b"tf1")?,
        bytes: Text::of(alloc, b"control")?,
    })?;
    MemSpool::of(alloc, files, calls(alloc, failing)?)
}

// Renames that file.
fn published<S: Spool>(alloc: Global, spool: &mut S) -> Result<(), EdgeFault>
    requires { IfSome (S.seen spool.old).told (λ files. IsSome (bytes_at files draft_place)) }
{
    let dir = Text::of(alloc, b"q")?;
    let from = Text::of(alloc, b"tf1")?;
    let to = Text::of(alloc, b"qf1")?;
    Ok(renamed(spool, &dir, &from, &to)?)
}

fn unlinked<S: Spool>(alloc: Global, spool: &mut S, name: &[u8]) -> Result<(), EdgeFault> {
    match texts_of(alloc, &[b"q", name])?.items() {
        [dir, name] => Ok(removed(spool, dir, name)?),
        _ => Err(EdgeFault::Failed),
    }
}

// Whether the directory shows that the file is renamed, and then that it is gone.
fn renames_and_removes<S: Spool>(alloc: Global, spool: &mut S) -> Result<bool, EdgeFault>
    requires { IfSome (S.seen spool.old).told (λ files. IsSome (bytes_at files draft_place)) }
{
    published(alloc, spool)?;
    let is_renamed = shows(alloc, spool, b"qf1=control ")?;
    unlinked(alloc, spool, b"qf1")?;
    Ok(is_renamed && shows(alloc, spool, b"")?)
}

fn is_renamed_and_removed(alloc: Global) -> Result<bool, EdgeFault> {
    let mut spool = one_file(alloc, &[])?;
    renames_and_removes(alloc, &mut spool)
}

#[test]
fn a_file_is_renamed_and_removed(rt: HostRuntime) {
    assert!(rt; is_renamed_and_removed(rt.alloc()) == Ok(true));
}

// Whether the first three calls fail, and the files are as they were.
fn fails_three_times<S: Spool>(alloc: Global, spool: &mut S) -> Result<bool, EdgeFault> {
    Ok(
        put(alloc, spool, b"df1", b"first").is_err()
            && unlinked(alloc, spool, b"tf1").is_err()
            && shows(alloc, spool, b"").is_err()
            && shows(alloc, spool, b"tf1=control ")?,
    )
}

fn fails_as_listed(alloc: Global) -> Result<bool, EdgeFault> {
    let mut spool = one_file(alloc, &[0, 1, 2])?;
    Ok(fails_three_times(alloc, &mut spool)? && spool.calls() == 5 && spool.faults() == 3)
}

fn bytes_fail(alloc: Global, spool: &mut Quiet) -> Result<bool, NoMemory> {
    let text = Text::of(alloc, b"q")?;
    Ok(bytes_in(alloc, spool, &text, &text).is_err())
}

// Whether only the reads of a spool fail that tells nothing.
fn reads_fail(alloc: Global, spool: &mut Quiet) -> Result<bool, EdgeFault> {
    put(alloc, spool, b"df1", b"first")?;
    published(alloc, spool)?;
    unlinked(alloc, spool, b"qf1")?;
    Ok(bytes_fail(alloc, spool)? && spool.faults == 1)
}

#[test]
fn a_spool_that_tells_nothing_needs_no_proof(rt: HostRuntime) {
    let mut spool = Quiet { faults: 0 };
    assert!(rt; reads_fail(rt.alloc(), &mut spool) == Ok(true));
}

fn add_image<S: Spool>(alloc: Global, image: &mut S, text: &mut Text) -> Result<(), EdgeFault> {
    add_all(alloc, image, text)?;
    Ok(text.push(b'\n')?)
}

// Adds what each of the images of a stop shows, each with a line end behind it.
fn add_images(alloc: Global, spool: &StopSpool, text: &mut Text) -> Result<(), EdgeFault> {
    for mut image in spool.images()?.into_vec() {
        add_image(alloc, &mut image, text)?;
    }
    Ok(())
}

// Writes df1 and takes tf1 away, up to the stop.
fn until_the_stop(alloc: Global, passes: u64) -> Result<StopSpool, EdgeFault> {
    let mut spool = StopSpool::new(one_file(alloc, &[])?, passes);
    let _all_done = put(alloc, &mut spool, b"df1", b"body").is_ok()
        && unlinked(alloc, &mut spool, b"tf1").is_ok();
    Ok(spool)
}

// What the images of a stop after so many passes show: in the write, in the removal, and in none.
static STOPS: [(u64, &[u8]); 3] = [
    (
        0,
        b"tf1=control \ndf1= tf1=control \ndf1=bo tf1=control \ndf1=body tf1=control \n",
    ),
    (1, b"df1=body tf1=control \ndf1=body \n"),
    (2, b"df1=body \n"),
];

fn images_show(alloc: Global, spool: &StopSpool, wanted: &[u8]) -> Result<bool, EdgeFault> {
    let mut text = Text::new(alloc);
    add_images(alloc, spool, &mut text)?;
    Ok(text.bytes() == wanted)
}

fn stop_leaves(alloc: Global, passes: u64, images: &[u8]) -> Result<bool, EdgeFault> {
    let spool = until_the_stop(alloc, passes)?;
    images_show(alloc, &spool, images)
}

#[test]
fn a_stop_leaves_some_of_its_images(rt: HostRuntime) {
    for (passes, images) in &STOPS {
        let leaves = stop_leaves(rt.alloc(), *passes, images);
        assert!(rt; leaves == Ok(true), "after {passes}");
    }
}

fn fails_after_the_stop(alloc: Global) -> Result<bool, EdgeFault> {
    let mut spool = StopSpool::new(one_file(alloc, &[])?, 0);
    Ok(
        published(alloc, &mut spool).is_err()
            && shows(alloc, &mut spool, b"").is_err()
            && images_show(alloc, &spool, b"tf1=control \nqf1=control \n")?,
    )
}

#[test]
fn calls_fail_as_listed_and_change_nothing_and_fail_after_a_stop(rt: HostRuntime) {
    assert!(rt; fails_as_listed(rt.alloc()) == Ok(true));
    assert!(rt; fails_after_the_stop(rt.alloc()) == Ok(true));
}
