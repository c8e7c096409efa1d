// Files and configurations made of texts.
use cf_reader::read;
use mail_base::{Config, NoMemory, Seq, Text};
use mail_edge::{MemFiles, SureFiles};
use std::alloc::Global;
use std::test::Fail;

/// Files of these names and texts, of which the calls with these numbers fail.
pub(crate) fn files_of(
    alloc: Global,
    files: &[(&str, &[u8])],
    failing: &[u64],
) -> Result<MemFiles, Fail> {
    let mut named = Seq::new(alloc);
    for (name, text) in files {
        named.push((Text::of(alloc, name.as_bytes())?, Text::of(alloc, text)?))?;
    }
    let sure = SureFiles::new(named).ok_or("a large text")?;
    let calls = Vec::from_slice(alloc, failing).map_err(NoMemory::from)?;
    Ok(MemFiles::new(sure, Seq::from_vec(calls)))
}

/// The configuration of a text, which asks for no file. It fails where the text is refused.
pub(crate) fn config_of(alloc: Global, text: &[u8]) -> Result<Config, Fail> {
    if text.len() > 65_536 {
        return Err(Fail::from("a large configuration"));
    }
    let mut files = files_of(alloc, &[], &[])?;
    let text = Text::of(alloc, text)?;
    match read(alloc, &text, &mut files) {
        Ok(config) => Ok(config),
        Err(_) => Err(Fail::from("a refused configuration")),
    }
}
