ghost use Rattle.std.specs.Prelude.{◌≡◌, [], IfOk, OnOk, OnErr};
ghost use Rattle.std.specs.Option.{option_copied};
ghost use Rattle.mail_base.specs.Catalogs.{value_at, with_value, members_of};
ghost use Rattle.mail_base.specs.Classes.{is_phrase, longest_phrase, with_members};
ghost use Rattle.mail_base.specs.Masks.{heads_of};

use crate::class::Class;
use crate::{Catalog, Member, NoMemory, Seq, Text, Token, TryCopy};
use std::alloc::Global;
use std::marker::Model;

/// The classes with their members. A contract sees it as the list of the classes' names with their
/// members, in the order in which the classes were first named.
#[derive(Drop)]
pub struct Classes {
    classes: Catalog<Class>,
}

impl Model for Classes {
    ghost use Rattle.std.specs.Prelude.{List, ℕ};
    ghost use Rattle.mail_base.specs.declared.class.Member.{Member};

    ghost Value = { List (List ℕ × List Member) };

    ghost view = { λ c. c.classes };
}

impl Classes {
    /// No classes. It takes no memory.
    pub fn new(alloc: Global) -> Classes
        ensures { result ≡ [] }
    {
        Classes {
            classes: Catalog::new(alloc),
        }
    }

    /// The class of a name. It takes no memory, and its time is that of the name.
    pub fn get(&self, name: &Text) -> Option<&Class>
        ensures { option_copied result ≡ value_at name.now self.now }
    {
        self.classes.get(name)
    }

    /// The members of a class, none where it isn't there. It takes no memory.
    pub fn members(&self, name: &Text) -> &[Member]
        ensures { result.now ≡ members_of (value_at name.now self.now) }
    {
        match self.get(name) {
            Some(class) => class.members(),
            None => &[],
        }
    }

    /// Whether the tokens are those of a member of the class, without ASCII case. It takes no
    /// memory, and its time is that of the name and of the tokens, however many members there are.
    pub fn has_phrase(&self, name: &Text, tokens: &[Token]) -> bool
        ensures { result ≡ is_phrase tokens.now (members_of (value_at name.now self.now)) }
    {
        match self.get(name) {
            Some(class) => class.has_phrase(tokens),
            None => false,
        }
    }

    /// The bits, in a mask of tokens, of the first tokens of the members of the class; none where
    /// it isn't there. It takes no memory, and its time is that of the name.
    pub fn heads(&self, name: &Text) -> u64
        ensures { result ≡ heads_of (members_of (value_at name.now self.now)) }
    {
        match self.get(name) {
            Some(class) => class.heads(),
            None => 0,
        }
    }

    /// How many tokens the longest member of the class has, 0 where the class isn't there. No
    /// longer list of tokens is a phrase of it. It takes no memory, and its time is that of the
    /// name.
    pub fn longest_phrase(&self, name: &Text) -> usize
        ensures { result ≡ longest_phrase (members_of (value_at name.now self.now)) }
    {
        match self.get(name) {
            Some(class) => class.longest_phrase(),
            None => 0,
        }
    }

    /// Adds members to a class, in order: a member whose text is there already adds nothing. A
    /// class that isn't there is named. All other classes stay. After `NoMemory` the classes are
    /// as before. Its time is that of the members that are given.
    pub fn extend(&mut self, name: &Text, more: Seq<Member>) -> Result<(), NoMemory>
        ensures ok { OnOk result (self.new ≡ with_value name.now
            (with_members (members_of (value_at name.now self.old)) more) self.old) }
        ensures err { OnErr result (self.new ≡ self.old) }
    {
        match self.classes.get_mut(name) {
            Some(class) => class.extend(more),
            None => self.begin(name, more),
        }
    }

    // Names a class that isn't there.
    fn begin(&mut self, name: &Text, members: Seq<Member>) -> Result<(), NoMemory>
        ensures ok { OnOk result (self.new
            ≡ with_value name.now (with_members [] members) self.old) }
        ensures err { OnErr result (self.new ≡ self.old) }
    {
        let mut class = Class::new(self.classes.allocator());
        class.extend(members)?;
        self.classes.set(name.copy()?, class)
    }
}

impl TryCopy for Classes {
    fn copy(&self) -> Result<Classes, NoMemory> {
        Ok(Classes {
            classes: self.classes.copy()?,
        })
    }
}
