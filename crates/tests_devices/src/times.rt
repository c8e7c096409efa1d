use delivery_devices::{PATIENCE, Patience, haste_of};
use shared_devices::Motion;
use std::fs::File;
use std::io;
use std::os::fd::AsRawFd;

/// The lowest descriptor that is free.
pub fn lowest(rt: &HostRuntime) -> io::Result<i32> {
    Ok(File::open(rt, "/dev/null")?.as_raw_fd())
}

const HASTES: &[(&[u8], u64)] = &[
    (b"", 1),
    (b"1", 1),
    (b"0", 1),
    (b"100", 100),
    (b"10000", 10_000),
    (b"10001", 1),
    (b"99999999", 1),
    (b"ten", 1),
    (b"1\xff", 1),
];

#[test]
fn haste_shortens_times(rt: HostRuntime) {
    for (value, haste) in HASTES {
        assert_eq!(rt; haste_of(value), *haste);
    }
    let short = Patience {
        dial: 1,
        reply: 30,
        text: 60,
        whole: 90,
    };
    assert_eq!(rt; PATIENCE.divided(10_000), short);
    assert_eq!(rt; Patience::of_environment(), PATIENCE);
}

#[test]
fn what_moves_is_told_once(rt: HostRuntime) {
    let motion = Motion::new(rt.alloc());
    motion.note_work();
    assert!(rt; !motion.take_move());
    motion.note_move();
    assert!(rt; motion.take_move() && motion.take_work() == Some(0));
    motion.note_pause(5);
    assert!(rt; !motion.take_move() && motion.take_work().is_none());
    motion.note_work();
    assert!(rt; motion.take_work() == Some(0) && !motion.has_floor());
}
