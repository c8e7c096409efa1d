// The configuration that runs are tried in, but for its rulesets, and its maps.
use crate::asking::{Line, config_of, maps_of};
use mail_base::Config;
use map_tables::Maps;
use std::alloc::Global;
use std::test::Fail;

/// A configuration and its maps.
pub struct World {
    pub config: Config,
    pub maps: Maps,
}

// Written out, since a caller's proof goes through the parts of a derived drop at each way out.
impl Drop for World {
    fn drop(self) {
        let World { config: _, maps: _ } = self;
    }
}

// Maps of the classes text and arith, and one of a class that isn't supported.
static LINES: [Line; 3] = [
    ("t", "text", &[], "", "", (0, 1, None), "table"),
    ("a", "arith", &[], "", "", (0, 1, None), "table"),
    ("o", "ldap", &[], "", "", (0, 1, None), "table"),
];

static FILES: [(&str, &str); 1] = [("table", "a b\nb c.d\nk (\n")];

pub fn world_of(alloc: Global) -> Result<World, Fail> {
    let config = config_of(alloc, &LINES)?;
    let maps = maps_of(alloc, &LINES, &FILES, "127.0.0.1 f g\n")?;
    Ok(World { config, maps })
}
