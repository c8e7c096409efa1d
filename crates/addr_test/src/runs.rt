ghost use Rattle.std.specs.Prelude.{◌≡◌, ◌++◌, IfOk, OnOk};
ghost use Rattle.std.specs.Fmt.{decimal};
ghost use Rattle.addr_test.specs.Answers.{RunsSets, RunsTyped, typed};
ghost use Rattle.addr_test.specs.Forms.{names_in};
ghost use Rattle.addr_test.specs.Texts as spec;
ghost use Rattle.addr_test.specs.inner.Telling.{Tells};

use crate::printing::{push_number, push_returned};
use crate::words::names;
use addr_tokens::{ScanFault, computed, typed_tokens};
use mail_base::{Config, NoMemory, Seq, Text, Token};
use map_tables::Maps;
use ruleset_run::{RunFault, run};
use std::alloc::Global;

/// The room that is taken at first for what is printed of an address.
const ROOM: usize = 128;

/// What the runs of the sets in a list print, in turn, from an address.
pub(crate) fn runs(
    alloc: Global,
    config: &Config,
    maps: &Maps,
    sets: &[u8],
    address: &[u8],
) -> Result<Text, NoMemory>
    ensures { IfOk result
        (RunsTyped maps.now config.now (names_in sets.now) (typed config.now address.now)) }
{
    // A law: what a cutting computes is what it means.
    computed();
    let address = Text::of(alloc, address)?;
    match typed_tokens(alloc, &address, &config.options.operator_chars, true) {
        Ok(tokens) => {
            let names = names(alloc, sets)?;
            run_all(alloc, config, maps, names.items(), tokens)
        }
        Err(ScanFault::NoMemory) => Err(NoMemory),
        Err(fault) => bad_address(alloc, fault),
    }
}

// Runs sets in turn, each on the tokens that the one before it returned.
fn run_all(
    alloc: Global,
    config: &Config,
    maps: &Maps,
    names: &[Text],
    start: Seq<Token>,
) -> Result<Text, NoMemory>
    ensures { IfOk result (RunsSets maps.now config.now names.now start) }
{
    let mut text = Text::from_vec(Vec::with_capacity(alloc, ROOM)?);
    let mut tokens = start;
    for name in names {
        match run_one(alloc, config, maps, name, &tokens, &mut text)? {
            Some(given) => tokens = given,
            None => return Ok(text),
        }
    }
    Ok(text)
}

// Runs a set and adds what is printed for it. Gives what it returned, or `None` where it was
// refused.
fn run_one(
    alloc: Global,
    config: &Config,
    maps: &Maps,
    name: &Text,
    tokens: &Seq<Token>,
    text: &mut Text,
) -> Result<Option<Seq<Token>>, NoMemory>
    ensures { IfOk result
        (λ given. Tells maps.now config.now name.now tokens.now given text.old text.new) }
{
    match run(alloc, config, maps, &config.macros, name, tokens) {
        Ok(ran) => {
            push_returned(name.bytes(), ran.tokens.items(), text)?;
            Ok(Some(ran.tokens))
        }
        Err(RunFault::NoMemory) => Err(NoMemory),
        Err(fault) => {
            push_refused(name.bytes(), &fault, text)?;
            Ok(None)
        }
    }
}

// Adds the line that tells why the run of a set has no result.
fn push_refused(name: &[u8], fault: &RunFault, text: &mut Text) -> Result<(), NoMemory>
    ensures { OnOk result (text.new ≡ text.old ++ spec.refused_text name.now fault.now) }
{
    text.extend(name)?;
    text.extend(b" error: ")?;
    text.extend(cause(fault))?;
    text.push(b'\n')
}

fn cause(fault: &RunFault) -> &'static [u8]
    ensures { result.now ≡ spec.cause_text fault.now }
{
    match fault {
        RunFault::Loop => b"Loop",
        RunFault::Work => b"Work",
        RunFault::Deep => b"Deep",
        RunFault::Long => b"Long",
        RunFault::NoRuleset(_) => b"NoRuleset",
        RunFault::MapClass(_) => b"MapClass",
        RunFault::NoSuchMap(_) => b"NoSuchMap",
        RunFault::BadScan => b"BadScan",
        RunFault::NoMemory => b"NoMemory",
    }
}

// The line that tells why an address has no tokens.
fn bad_address(alloc: Global, fault: ScanFault) -> Result<Text, NoMemory>
    ensures { IfOk result (λ text. text ≡ spec.bad_address_text fault) }
{
    let mut text = Text::of(alloc, b"bad address: ")?;
    push_scan_fault(fault, &mut text)?;
    text.push(b'\n')?;
    Ok(text)
}

fn push_scan_fault(fault: ScanFault, text: &mut Text) -> Result<(), NoMemory>
    ensures { OnOk result (text.new ≡ text.old ++ spec.scan_text fault) }
{
    match fault {
        ScanFault::Unbalanced(place) => push_place(b"Unbalanced ", place, text),
        ScanFault::BadQuote(place) => push_place(b"BadQuote ", place, text),
        ScanFault::BadDollar(place) => push_place(b"BadDollar ", place, text),
        ScanFault::Long => text.extend(b"Long"),
        ScanFault::NoMemory => text.extend(b"NoMemory"),
    }
}

fn push_place(word: &[u8], place: u64, text: &mut Text) -> Result<(), NoMemory>
    ensures { OnOk result (text.new ≡ text.old ++ (word.now ++ decimal place)) }
{
    text.extend(word)?;
    push_number(place, text)
}
