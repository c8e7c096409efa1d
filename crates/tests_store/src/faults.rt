use mail_base::NoMemory;
use spool_store::SpoolFault;
use std::alloc::Global;

fn said(alloc: Global) -> Result<String, NoMemory> {
    let fault = SpoolFault;
    Ok(format!(in alloc; "{fault}")?)
}

#[test]
fn a_fault_of_the_spool_says_what_it_is(rt: HostRuntime) -> Result<(), NoMemory> {
    assert_eq!(rt; said(rt.alloc())?.as_str(), "the spool failed");
    Ok(())
}
