// Configurations made of texts, and headers for their mailers.
use cf_reader::read;
use header_rewrite::rewritten;
use mail_base::{Config, NoMemory, Seq, Text};
use mail_edge::{MemFiles, SureFiles};
use map_tables::Maps;
use std::alloc::Global;
use std::test::Fail;

/// A mailer, a header, and the header that it is given.
pub(crate) type Row = (&'static str, &'static str, &'static str);

fn no_files(alloc: Global) -> Result<MemFiles, Fail> {
    let sure = SureFiles::new(Seq::new(alloc)).ok_or("a large text")?;
    Ok(MemFiles::new(sure, Seq::new(alloc)))
}

/// The configuration of a text, which asks for no file. It fails where the text is refused.
pub(crate) fn config_of(alloc: Global, text: &str) -> Result<Config, Fail> {
    if text.len() > 65_536 {
        return Err(Fail::from("a large configuration"));
    }
    let mut files = no_files(alloc)?;
    let text = Text::of(alloc, text.as_bytes())?;
    match read(alloc, &text, &mut files) {
        Ok(config) => Ok(config),
        Err(_) => Err(Fail::from("a refused configuration")),
    }
}

/// The maps of a configuration without a file.
pub(crate) fn no_maps(alloc: Global, config: &Config) -> Result<Maps, NoMemory> {
    Maps::load(alloc, config, &Seq::new(alloc), &Text::new(alloc))
}

/// A header for a mailer, or nothing where there is no such mailer.
pub(crate) fn shown(
    alloc: Global,
    config: &Config,
    mailer: &str,
    header: &str,
) -> Result<Option<Text>, NoMemory> {
    let name = Text::of(alloc, mailer.as_bytes())?;
    let Some(mailer) = config.mailer(&name) else {
        return Ok(None);
    };
    let mut headers = Seq::new(alloc);
    headers.push(Text::of(alloc, header.as_bytes())?)?;
    let maps = no_maps(alloc, config)?;
    let mut texts = rewritten(config, &maps, &config.macros, mailer, &headers)?.into_vec();
    Ok(texts.pop())
}

/// Whether a header is given as its row says.
pub(crate) fn is_so(alloc: Global, config: &Config, row: &Row) -> Result<bool, NoMemory> {
    match shown(alloc, config, row.0, row.1)? {
        Some(text) => Ok(text.bytes() == row.2.as_bytes()),
        None => Ok(false),
    }
}
