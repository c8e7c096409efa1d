//! Configurations that are written here.

use anyhow::{Result, bail, ensure};
use cf_reader::read;
use mail_base::{Config, Seq, Text};
use mail_edge::SureFiles;
use map_tables::Maps;
use std::alloc::Global;

/// A configuration that asks for no file, and its maps.
pub(crate) struct World {
    pub(crate) config: Config,
    pub(crate) maps: Maps,
}

// Written out, since a caller's proof goes through the parts of a derived drop at each way out.
impl Drop for World {
    fn drop(self) {
        let World { config: _, maps: _ } = self;
    }
}

impl World {
    pub(crate) fn of(alloc: Global, text: &[u8]) -> Result<World> {
        let config = config_of(alloc, text)?;
        let maps = Maps::load(alloc, &config, &Seq::new(alloc), &Text::new(alloc))?;
        Ok(World { config, maps })
    }
}

pub(crate) fn no_files(alloc: Global) -> Result<SureFiles> {
    match SureFiles::new(Seq::new(alloc)) {
        Some(files) => Ok(files),
        None => bail!("a large file"),
    }
}

/// The configuration of a text, which asks for no file.
pub(crate) fn config_of(alloc: Global, text: &[u8]) -> Result<Config> {
    ensure!(text.len() < 1 << 32, "a large configuration");
    match read(alloc, &Text::of(alloc, text)?, &mut no_files(alloc)?) {
        Ok(config) => Ok(config),
        Err(_) => bail!("no configuration"),
    }
}
