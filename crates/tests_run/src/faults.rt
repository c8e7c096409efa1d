use cf_reader::Fault;
use mail_base::NoMemory;
use sendmail_run::WordFault;
use std::alloc::Global;
use std::fmt::Display;

static WORDS: [(WordFault, &str); 3] = [
    (WordFault::At(0), "bad word 0"),
    (WordFault::At(4_294_967_295), "bad word 4294967295"),
    (WordFault::NoMemory, "no memory"),
];

static LINES: [(Fault, &str); 13] = [
    (Fault::UnknownLine, "UnknownLine"),
    (Fault::NoTab, "NoTab"),
    (Fault::BadPattern, "BadPattern"),
    (Fault::TooManyMetas, "TooManyMetas"),
    (Fault::BadReference, "BadReference"),
    (Fault::UnknownMailerField, "UnknownMailerField"),
    (Fault::NoPath, "NoPath"),
    (Fault::DuplicateGroup, "DuplicateGroup"),
    (Fault::BadOption, "BadOption"),
    (Fault::BadMap, "BadMap"),
    (Fault::BadHeader, "BadHeader"),
    (Fault::OperatorsLate, "OperatorsLate"),
    (Fault::NoSuchFile, "NoSuchFile"),
];

fn says(alloc: Global, fault: &impl Display, text: &str) -> Result<bool, NoMemory> {
    let said = format!(in alloc; "{fault}")?;
    Ok(said.as_str() == text)
}

#[test]
fn faults_say_what_they_are(rt: HostRuntime) {
    for (fault, text) in &WORDS {
        assert!(rt; says(rt.alloc(), fault, text) == Ok(true), "{text}");
    }
    for (fault, text) in &LINES {
        assert!(rt; says(rt.alloc(), fault, text) == Ok(true), "{text}");
    }
}
