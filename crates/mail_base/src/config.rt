ghost use Rattle.std.specs.Prelude.{◌≡◌, ◌∷◌, [], IfOk, OnOk, codes};
ghost use Rattle.std.specs.Option.{option_copied};
ghost use Rattle.mail_base.specs.Catalogs.{value_like, with_value};
ghost use Rattle.mail_base.specs.Configs.{initial, first_macros, first_classes, local_host, main_group, host_map};

use crate::options::QUEUE_DIRECTORY;
use crate::{
    Book, Catalog, Classes, Group, HeaderLine, Macros, Mailer, MapClass, MapLine, Member, NoMemory,
    Options, Precedence, Seq, Text, Token, TryCopy, Word,
};
use std::alloc::Global;

/// What a configuration file says.
pub struct Config {
    pub macros: Macros,
    pub classes: Classes,
    /// The rulesets, in the order of the lines that first name them.
    pub book: Book,
    /// The mailers by their names in small letters.
    pub mailers: Catalog<Mailer>,
    /// The queue groups by their names.
    pub groups: Catalog<Group>,
    /// The K lines in order. A map is the last one of its name.
    pub maps: Seq<MapLine>,
    /// The P lines in order. The first of a name counts, without ASCII case.
    pub precedences: Seq<Precedence>,
    /// The H lines in order.
    pub headers: Seq<HeaderLine>,
    pub options: Options,
    /// The numbers of the lines that are ignored with a warning, in order.
    pub warnings: Seq<u32>,
}

// Written out, since a caller's proof goes through the parts of a derived drop at each way out.
impl Drop for Config {
    fn drop(self) {
        let Config {
            macros: _,
            classes: _,
            book: _,
            mailers: _,
            groups: _,
            maps: _,
            precedences: _,
            headers: _,
            options: _,
            warnings: _,
        } = self;
    }
}

impl Config {
    /// The configuration before any line is read.
    pub fn new(alloc: Global) -> Result<Config, NoMemory>
        ensures { IfOk result (λ config. config ≡ initial) }
    {
        Ok(Config {
            macros: first_macros(alloc)?,
            classes: first_classes(alloc)?,
            groups: first_groups(alloc)?,
            maps: first_maps(alloc)?,
            options: Options::new(alloc)?,
            book: Book::new(alloc),
            mailers: Catalog::new(alloc),
            precedences: Seq::new(alloc),
            headers: Seq::new(alloc),
            warnings: Seq::new(alloc),
        })
    }

    /// The mailer of a name, without ASCII case. It takes no memory.
    pub fn mailer(&self, name: &Text) -> Option<&Mailer>
        ensures { option_copied result ≡ value_like name.now self.now.mailers }
    {
        self.mailers.get_like(name)
    }
}

fn first_macros(alloc: Global) -> Result<Macros, NoMemory>
    ensures { IfOk result (λ macros. macros ≡ first_macros) }
{
    let mut macros = Macros::new(alloc);
    define(&mut macros, b"w", b"localhost")?;
    define(&mut macros, b"j", b"localhost")?;
    define(&mut macros, b"n", b"MAILER-DAEMON")?;
    define(&mut macros, b"v", b"8")?;
    Ok(macros)
}

fn define(macros: &mut Macros, name: &[u8], value: &[u8]) -> Result<(), NoMemory>
    ensures { OnOk result (macros.new ≡ with_value name.now value.now macros.old) }
{
    let alloc = macros.values().allocator();
    macros.set(&Text::of(alloc, name)?, &Text::of(alloc, value)?)
}

fn first_classes(alloc: Global) -> Result<Classes, NoMemory>
    ensures { IfOk result (λ classes. classes ≡ first_classes) }
{
    let mut members = Seq::new(alloc);
    members.push(local_host(alloc)?)?;
    let mut classes = Classes::new(alloc);
    classes.extend(&Text::of(alloc, b"w")?, members)?;
    Ok(classes)
}

fn local_host(alloc: Global) -> Result<Member, NoMemory>
    ensures { IfOk result (λ member. member ≡ local_host) }
{
    let mut tokens = Seq::new(alloc);
    tokens.push(Token::Word(Word::of(alloc, b"localhost")?))?;
    Ok(Member {
        text: Text::of(alloc, b"localhost")?,
        tokens: Some(tokens),
    })
}

fn first_groups(alloc: Global) -> Result<Catalog<Group>, NoMemory>
    ensures { IfOk result (λ groups. groups ≡ (codes "mqueue", main_group) ∷ []) }
{
    let mut groups = Catalog::new(alloc);
    groups.set(Text::of(alloc, b"mqueue")?, main_group(alloc)?)?;
    Ok(groups)
}

fn main_group(alloc: Global) -> Result<Group, NoMemory>
    ensures { IfOk result (λ group. group ≡ main_group) }
{
    let name = Text::of(alloc, b"mqueue")?;
    let path = Text::of(alloc, QUEUE_DIRECTORY)?;
    Ok(Group::new(name, path))
}

fn first_maps(alloc: Global) -> Result<Seq<MapLine>, NoMemory>
    ensures { IfOk result (λ maps. maps ≡ host_map ∷ []) }
{
    let mut maps = Seq::new(alloc);
    maps.push(host_map(alloc)?)?;
    Ok(maps)
}

fn host_map(alloc: Global) -> Result<MapLine, NoMemory>
    ensures { IfOk result (λ map. map ≡ host_map) }
{
    Ok(MapLine {
        name: Text::of(alloc, b"host")?,
        class: MapClass::Host,
        keeps_case: false,
        match_only: false,
        tag: Text::of(alloc, b".")?,
        optional: false,
        key_column: 0,
        value_column: 1,
        separator: None,
        file: None,
    })
}

impl TryCopy for Config {
    fn copy(&self) -> Result<Config, NoMemory> {
        Ok(Config {
            macros: self.macros.copy()?,
            classes: self.classes.copy()?,
            book: self.book.copy()?,
            mailers: self.mailers.copy()?,
            groups: self.groups.copy()?,
            maps: self.maps.copy()?,
            precedences: self.precedences.copy()?,
            headers: self.headers.copy()?,
            warnings: self.warnings.copy()?,
            options: self.options.copy()?,
        })
    }
}
