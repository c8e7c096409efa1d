// Answers of address test mode: one of each kind, and words that are added all or none.
use addr_test::{Reply, answer};
use mail_base::{Config, NoMemory, Seq, Text};
use map_tables::Maps;
use std::alloc::Global;

// Whether a line `.C` of three words added all of them where it was answered, and none where memory
// ran out.
fn all_or_none(alloc: Global) -> bool {
    let Ok(name) = Text::of(alloc, b"a") else {
        return true;
    };
    let Ok(mut config) = Config::new(alloc) else {
        return true;
    };
    let Ok(maps) = Maps::load(alloc, &config, &Seq::new(alloc), &Text::new(alloc)) else {
        return true;
    };
    let is_answered = answer(alloc, b".Caone two three", &mut config, &maps).is_ok();
    let count = config.classes.members(&name).len();
    count == if is_answered { 3 } else { 0 }
}

#[test]
fn words_are_added_all_or_none(rt: HostRuntime) {
    assert!(rt; all_or_none(rt.alloc()));
}

fn is_told(alloc: Global, line: &[u8], text: &[u8]) -> Result<bool, NoMemory> {
    let mut config = Config::new(alloc)?;
    let maps = Maps::load(alloc, &config, &Seq::new(alloc), &Text::new(alloc))?;
    match answer(alloc, line, &mut config, &maps)? {
        Reply::Lines(told) => Ok(told.bytes() == text),
        Reply::Quit => Ok(text.is_empty()),
    }
}

#[test]
fn a_line_is_answered_or_ends_the_mode(rt: HostRuntime) -> Result<(), NoMemory> {
    assert!(rt; is_told(rt.alloc(), b"5 a", b"5 returns: a\n")?);
    assert!(rt; is_told(rt.alloc(), b"/quit", b"")?);
    Ok(())
}
