// Headers go through the rulesets of a mailer, and what is no address stays.
use crate::forms::{APPENDIX, CONFIG, NAMES, OTHERS};
use crate::samples::{Row, config_of, is_so};
use mail_base::{Config, NoMemory};
use std::alloc::Global;
use std::test::Fail;

fn wrong(alloc: Global, config: &Config, rows: &[Row]) -> Result<Option<usize>, NoMemory> {
    for (at, row) in rows.iter().enumerate() {
        if !is_so(alloc, config, row)? {
            return Ok(Some(at));
        }
    }
    Ok(None)
}

#[test]
fn headers_are_rewritten_by_their_names(rt: HostRuntime) -> Result<(), Fail> {
    let config = config_of(rt.alloc(), CONFIG)?;
    assert_eq!(rt; wrong(rt.alloc(), &config, &NAMES)?, None);
    Ok(())
}

#[test]
fn forms_of_the_standard_are_rewritten(rt: HostRuntime) -> Result<(), Fail> {
    let config = config_of(rt.alloc(), CONFIG)?;
    assert_eq!(rt; wrong(rt.alloc(), &config, &APPENDIX)?, None);
    Ok(())
}

#[test]
fn what_is_no_address_stays(rt: HostRuntime) -> Result<(), Fail> {
    let config = config_of(rt.alloc(), CONFIG)?;
    assert_eq!(rt; wrong(rt.alloc(), &config, &OTHERS)?, None);
    Ok(())
}
