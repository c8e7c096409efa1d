// Maps as no line of address test mode asks them: without a key, with members of a sequence that no
// K line can name, and by the address of a host; and the files that maps want.
use crate::asking::{Line, Row, config_of, is_text, is_told, maps_of};
use mail_base::{Config, NoMemory, Text};
use map_tables::{Maps, wanted};
use std::alloc::Global;

// The map `host` stands at place 0.
static LINES: [Line; 15] = [
    ("one", "text", &[], "", "", (0, 1, None), "/one"),
    ("t", "text", &[], "", "", (0, 1, None), "/t"),
    ("colon", "text", &[], "", "", (1, 2, Some(b':')), "/c"),
    ("h", "hash", &[], "", "", (0, 1, None), "/h"),
    ("none", "text", &[], "", "", (0, 1, None), "/none"),
    ("null", "null", &[], "", "", (0, 1, None), "/t"),
    ("d", "dequote", &[], "", "", (0, 1, None), ""),
    ("a", "arith", &[], "", "", (0, 1, None), ""),
    ("bare", "host", &[], "", "", (0, 1, None), ""),
    ("m", "macro", &[], "", "", (0, 1, None), ""),
    ("o", "ldap", &[], "", "", (0, 1, None), ""),
    ("self", "sequence", &[12, 13, 1], "", "", (0, 1, None), ""),
    ("empty", "sequence", &[], "", "", (0, 1, None), ""),
    ("later", "sequence", &[15, 1], "", "", (0, 1, None), ""),
    ("both2", "btree", &[], "", "", (0, 1, None), "/two"),
];

static FILES: [(&str, &str); 6] = [
    ("/one", "k one\na A%1\n"),
    ("/two", "k two\nb B\n"),
    ("/t", "k v%1\nK second\n x\ty z\n"),
    ("/c", "a:b:c\na:B:d:e\n:k2:v2\nq::z\nr:s w:v w\n"),
    ("/h", "# k no\n\n \t\nlone\n indented i\n\n"),
    ("/t", "k another\n"),
];

const HOSTS: &str =
    "# the table\n127.0.0.1 far.example far # x\n127.0.0.2\n10.0.0.1\tFAR other\n\n10.0.0.2 #no\n  ::1 C.example  c\n";

static ROWS: [Row; 22] = [
    ("t", "k", &["one"], "found: vone"),
    ("t", "", &[], "absent"),
    ("colon", "", &[], "found: z"),
    ("h", "", &[], "found: indented i"),
    ("none", "", &[], "absent"),
    ("null", "", &[], "absent"),
    ("d", "\"ann\"", &[], "found: ann"),
    ("d", "", &[], "absent"),
    ("a", "+", &["1", "2"], "found: 3"),
    ("a", "+", &[" 1", "2"], "absent"),
    ("host", "far", &[], "found: far.example."),
    ("bare", "far", &[], "found: far.example"),
    ("bare", "", &[], "absent"),
    ("m", "x", &["v"], "found: "),
    ("o", "k", &[], "error: MapClass"),
    ("self", "k", &[], "found: one"),
    ("self", "b", &[], "absent"),
    ("empty", "k", &[], "absent"),
    ("later", "b", &[], "absent"),
    ("later", "k", &[], "found: one"),
    ("both2", "k", &[], "found: two"),
    ("", "k", &[], "error: NoSuchMap"),
];

// A name and its address.
type Address = (&'static str, Option<&'static str>);

static ADDRESSES: [Address; 6] = [
    ("far", Some("127.0.0.1")),
    ("Far.Example", Some("127.0.0.1")),
    ("OTHER", Some("10.0.0.1")),
    ("c", Some("::1")),
    ("127.0.0.1", None),
    ("", None),
];

fn has_address(alloc: Global, maps: &Maps, row: &Address) -> Result<bool, NoMemory> {
    let name = Text::of(alloc, row.0.as_bytes())?;
    Ok(is_text(maps.host(&name), row.1))
}

#[test]
fn maps_are_asked_and_addresses_found(rt: HostRuntime) -> Result<(), NoMemory> {
    let maps = maps_of(rt.alloc(), &LINES, &FILES, HOSTS)?;
    for (at, row) in ROWS.iter().enumerate() {
        assert!(rt; is_told(rt.alloc(), &maps, row)?, "row {at}");
    }
    for row in &ADDRESSES {
        assert!(rt; has_address(rt.alloc(), &maps, row)?, "{}", row.0);
    }
    Ok(())
}

static WANTED: [Line; 6] = [
    ("a", "text", &[], "", "", (0, 1, None), "/one"),
    ("a", "hash", &[], "o", "", (0, 1, None), "/two"),
    ("b", "null", &[], "", "", (0, 1, None), "/three"),
    ("c", "hash", &[], "", "", (0, 1, None), ""),
    ("d", "btree", &[], "", "", (0, 1, None), "/one"),
    ("e", "ldap", &[], "", "", (0, 1, None), "/four"),
];

// The files that are wanted, one a line, with `-o ` before one that may be absent.
fn show_wanted(text: &mut Text, config: &Config) -> Result<(), NoMemory> {
    for file in wanted(text.allocator(), config)?.items() {
        if file.optional {
            text.extend(b"-o ")?;
        }
        text.extend(file.name.bytes())?;
        text.push(b'\n')?;
    }
    Ok(())
}

fn is_wanted(alloc: Global, files: &[u8]) -> Result<bool, NoMemory> {
    let config = config_of(alloc, &WANTED)?;
    let mut text = Text::new(alloc);
    show_wanted(&mut text, &config)?;
    Ok(text.bytes() == files)
}

#[test]
fn files_are_wanted_in_order(rt: HostRuntime) -> Result<(), NoMemory> {
    assert!(rt; is_wanted(rt.alloc(), b"/one\n-o /two\n/one\n")?);
    Ok(())
}
