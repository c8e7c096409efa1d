use addr_tokens::ScanFault;
use cf_macros::ExpandFault;
use cf_values::Bad;
use mail_base::{NoMemory, Text};
use ruleset_run::RunFault;
use std::alloc::Global;
use std::fmt::Display;

static SCAN: [(ScanFault, &str); 6] = [
    (ScanFault::Unbalanced(0), "Unbalanced 0"),
    (ScanFault::Unbalanced(1_048_576), "Unbalanced 1048576"),
    (ScanFault::BadQuote(7), "BadQuote 7"),
    (ScanFault::BadDollar(3), "BadDollar 3"),
    (ScanFault::Long, "Long"),
    (ScanFault::NoMemory, "NoMemory"),
];

static EXPAND: [(ExpandFault, &str); 4] = [
    (ExpandFault::Unclosed(12), "unclosed at 12"),
    (ExpandFault::Deep, "references are too deep"),
    (ExpandFault::Large, "too large"),
    (ExpandFault::NoMemory, "no memory"),
];

static BAD: [(Bad, &str); 1] = [(Bad { place: 3 }, "bad value at 3")];

/// The texts of the faults of a run, by their places.
static RUN: [&str; 9] = [
    "Loop",
    "Work",
    "Deep",
    "Long",
    "BadScan",
    "NoRuleset",
    "MapClass",
    "NoSuchMap",
    "NoMemory",
];

fn says(alloc: Global, fault: &impl Display, text: &str) -> Result<bool, NoMemory> {
    let said = format!(in alloc; "{fault}")?;
    Ok(said.as_str() == text)
}

fn run_fault(alloc: Global, place: usize) -> Result<RunFault, NoMemory> {
    match place {
        0 => Ok(RunFault::Loop),
        1 => Ok(RunFault::Work),
        2 => Ok(RunFault::Deep),
        3 => Ok(RunFault::Long),
        4 => Ok(RunFault::BadScan),
        5 => Ok(RunFault::NoRuleset(Text::of(alloc, b"parse")?)),
        6 => Ok(RunFault::MapClass(Text::of(alloc, b"access")?)),
        7 => Ok(RunFault::NoSuchMap(Text::of(alloc, b"access")?)),
        _ => Ok(RunFault::NoMemory),
    }
}

fn all_say<F: Display>(alloc: Global, rows: &[(F, &str)]) -> Result<bool, NoMemory> {
    for (fault, text) in rows {
        if !says(alloc, fault, text)? {
            return Ok(false);
        }
    }
    Ok(true)
}

fn run_says(alloc: Global, place: usize, text: &str) -> Result<bool, NoMemory> {
    let fault = run_fault(alloc, place)?;
    says(alloc, &fault, text)
}

fn runs_say(alloc: Global) -> Result<bool, NoMemory> {
    for (place, text) in RUN.iter().enumerate() {
        if !run_says(alloc, place, text)? {
            return Ok(false);
        }
    }
    Ok(true)
}

fn faults_say(alloc: Global) -> Result<bool, NoMemory> {
    Ok(
        all_say(alloc, &SCAN)?
            && all_say(alloc, &EXPAND)?
            && all_say(alloc, &BAD)?
            && runs_say(alloc)?,
    )
}

#[test]
fn faults_say_what_they_are(rt: HostRuntime) -> Result<(), NoMemory> {
    assert!(rt; faults_say(rt.alloc())?);
    Ok(())
}
