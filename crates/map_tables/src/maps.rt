ghost use Rattle.std.specs.Prelude.{◌≡◌, IfOk, OnOk, OnErr, map};
ghost use Rattle.std.specs.Option.{option_copied};
ghost use Rattle.map_tables.specs.Answers.{TellsOr, found_of, loaded, macro_name, macros_after, map_answer, sets_macro, told, with_macro};
ghost use Rattle.map_tables.specs.Hosts.{host_address};
ghost use Rattle.map_tables.specs.Tables.{table};
ghost use Rattle.map_tables.specs.inner.MapPlaces.{IsPlaced};

use crate::answer::Answer;
use crate::answering::place_answer;
use crate::host_table::HostTable;
use crate::texts::first_places;
use crate::{Found, MapFault, MapReply, Named, Table};
use mail_base::{
    Catalog, Config, Macros, MapLine, NoMemory, Seq, Text, TryCopy, literal, without_ends,
};
use std::alloc::Global;
use std::marker::Model;

/// The maps of a configuration with their tables, and the host table. A contract sees it as these.
pub struct Maps {
    maps: Seq<Table>,
    /// The place of the last K line of each name.
    places: Catalog<usize>,
    hosts: HostTable,
}

// Written out, since a caller's proof goes through the parts of a derived drop at each way out.
impl Drop for Maps {
    fn drop(self) {
        let Maps {
            maps: _,
            places: _,
            hosts: _,
        } = self;
    }
}

impl Model for Maps {
    ghost use Rattle.map_tables.specs.Answers.{Loaded};
    ghost use Rattle.map_tables.specs.inner.MapPlaces.{IsPlaced};

    ghost Value = { Loaded };

    ghost view = { λ m. record { maps = m.maps; hosts = m.hosts } };

    ghost invariant = { λ m. IsPlaced m.maps m.places };
}

impl Maps {
    /// The maps of a configuration, with these files, and the host table of a text. A file that
    /// isn't among these is an empty table; of two of one name the first counts.
    pub fn load(
        alloc: Global,
        config: &Config,
        texts: &Seq<Named>,
        hosts: &Text,
    ) -> Result<Maps, NoMemory>
        ensures { IfOk result (λ maps. maps ≡ loaded config.now.maps texts.now hosts.now) }
    {
        let maps = tables(alloc, config.maps.items(), texts)?;
        let places = places(alloc, maps.items())?;
        let hosts = HostTable::load(alloc, hosts.bytes())?;
        Ok(Maps {
            maps,
            places,
            hosts,
        })
    }

    /// What the map of a name says of a key, with these arguments. A map of the class macro changes
    /// a macro; after an error the macros are as before.
    pub fn lookup(
        &self,
        name: &Text,
        key: &Text,
        args: &Seq<Text>,
        macros: &mut Macros,
    ) -> Result<Found, MapFault>
        ensures answer { TellsOr (told (map_answer self.now name.now key.now args.now)) result }
        ensures macros { OnOk result
            (macros.new ≡ macros_after (map_answer self.now name.now key.now args.now) key.now
            args.now macros.old) }
        ensures err { OnErr result (macros.new ≡ macros.old) }
    {
        let reply = self.ask(name, key, args)?;
        if reply.sets {
            set_macro(key, args, macros)?;
        }
        Ok(reply.found)
    }

    /// The same, with whether it sets the macro that the key names ([`macro_name`]), which is left
    /// to the caller.
    pub fn ask(&self, name: &Text, key: &Text, args: &Seq<Text>) -> Result<MapReply, MapFault>
        ensures answer { TellsOr (told (map_answer self.now name.now key.now args.now))
            (found_of result) }
        ensures sets { IfOk result
            (λ reply. reply.sets ≡ sets_macro (map_answer self.now name.now key.now args.now)) }
    {
        let answer = self.answer(name, key, args)?;
        let sets = sets_macro(&answer);
        let found = told(answer)?;
        Ok(MapReply { found, sets })
    }

    // What the map of a name answers, if there is one.
    fn answer(&self, name: &Text, key: &Text, args: &Seq<Text>) -> Result<Option<Answer>, NoMemory>
        ensures { IfOk result (λ given. given ≡ map_answer self.now name.now key.now args.now) }
    {
        match self.places.get(name) {
            Some(place) => place_answer(self.maps.items(), &self.hosts, *place, key, args),
            None => Ok(None),
        }
    }

    /// The address of a host, by any of its names without ASCII case. It takes no memory. It is
    /// found by the name's hash; names whose hashes meet stand in one list, which is walked.
    pub fn host(&self, name: &Text) -> Option<&Text>
        ensures { option_copied result ≡ host_address name.now self.now.hosts }
    {
        match self.hosts.line_of(name) {
            Some(line) => Some(&line.address),
            None => None,
        }
    }
}

// The K lines with their tables.
fn tables(alloc: Global, lines: &[MapLine], texts: &Seq<Named>) -> Result<Seq<Table>, NoMemory>
    ensures { IfOk result (λ maps. maps ≡ map (table texts.now) lines.now) }
{
    let places = first_places(alloc, texts.items())?;
    let mut tables = Seq::new(alloc);
    for line in lines {
        tables.push(Table::load(alloc, line, texts, &places)?)?;
    }
    Ok(tables)
}

// The place of the last K line of each name.
fn places(alloc: Global, maps: &[Table]) -> Result<Catalog<usize>, NoMemory>
    ensures { IfOk result (λ places. IsPlaced maps.now places) }
{
    let mut places = Catalog::new(alloc);
    for (place, map) in maps.iter().enumerate() {
        places.set(map.line.name.copy()?, place)?;
    }
    Ok(places)
}

// How an answer is told.
fn told(answer: Option<Answer>) -> Result<Found, MapFault>
    ensures { result ≡ told answer }
{
    match answer {
        Some(Answer::Finds(value)) => Ok(Found::Value(value)),
        Some(Answer::Sets(value)) => Ok(Found::Value(value)),
        Some(Answer::Lacks) => Ok(Found::Absent),
        Some(Answer::Refuses) => Err(MapFault::MapClass),
        None => Err(MapFault::NoSuchMap),
    }
}

fn sets_macro(answer: &Option<Answer>) -> bool
    ensures { result ≡ sets_macro answer.now }
{
    matches!(answer, Some(Answer::Sets(_)))
}

// Sets the macro that a key names to the first argument, or unsets it where there is none.
fn set_macro(key: &Text, args: &Seq<Text>, macros: &mut Macros) -> Result<(), NoMemory>
    ensures ok { OnOk result (macros.new ≡ with_macro (macro_name key.now) args.now macros.old) }
    ensures err { OnErr result (macros.new ≡ macros.old) }
{
    let name = Text::of(key.allocator(), macro_name(key.bytes()))?;
    match args.items().first() {
        Some(text) => macros.set(&name, &literal(key.allocator(), text.bytes())?),
        None => {
            macros.unset(&name);
            Ok(())
        }
    }
}

/// The macro that a key of a map of class `macro` names: the word that it has in braces, or else the
/// key.
pub fn macro_name(key: &[u8]) -> &[u8]
    ensures { result.now ≡ macro_name key.now }
{
    without_ends(key, b'{', b'}')
}
