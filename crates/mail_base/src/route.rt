ghost use Rattle.std.specs.Prelude.{◌≡◌};
ghost use Rattle.mail_base.specs.Refusals.{cause_name};

use crate::{NoMemory, Status, Text, TryCopy};

/// Where an address goes.
#[derive(Drop)]
pub struct Triple {
    pub mailer: Text,
    pub host: Text,
    pub user: Text,
}

/// Why an address goes nowhere, or why a check refuses it.
#[derive(Drop)]
pub enum Cause {
    /// One rule would be applied a 101st successive time.
    Loop,
    /// A 51st nested call would begin.
    Deep,
    /// A 10,001st application would come.
    Work,
    /// No S line names this ruleset.
    NoRuleset(Text),
    /// This map's class isn't supported.
    MapClass(Text),
    /// No K line names this map.
    NoSuchMap(Text),
    /// A map's answer, or a macro's value, can't be cut into tokens.
    BadScan,
    /// A filled list has more than 2,000 tokens.
    Long,
    /// The address can't be cut into tokens.
    BadAddress,
    /// The address has more than 2,000 tokens.
    LongAddress,
    /// The result of set 0 doesn't begin with `$#`.
    NotResolved,
    /// No M line names this mailer.
    UnknownMailer(Text),
    /// The user is empty.
    NoUser,
    /// The address is a file.
    FileMailer,
    /// The rules chose the mailer `error`.
    ErrorMailer,
}

/// A refused address, as SMTP answers it.
#[derive(Drop)]
pub struct RouteError {
    /// The reply's code.
    pub code: u16,
    pub status: Status,
    /// What stands after the status.
    pub text: Text,
    pub cause: Cause,
}

/// What routing an address gives.
#[derive(Drop)]
pub enum Resolved {
    Goes(Triple),
    Refuses(RouteError),
}

impl Cause {
    /// The name that is printed for the cause: that of the variant alone. A list that grew too
    /// long in a run and an address with too many tokens are both `Long`.
    pub fn name(&self) -> &'static [u8]
        ensures { result.now ≡ cause_name self.now }
    {
        match self {
            Cause::Loop => b"Loop",
            Cause::Deep => b"Deep",
            Cause::Work => b"Work",
            Cause::NoRuleset(_) => b"NoRuleset",
            Cause::MapClass(_) => b"MapClass",
            Cause::NoSuchMap(_) => b"NoSuchMap",
            Cause::BadScan => b"BadScan",
            Cause::Long => b"Long",
            Cause::BadAddress => b"BadAddress",
            Cause::LongAddress => b"Long",
            Cause::NotResolved => b"NotResolved",
            Cause::UnknownMailer(_) => b"UnknownMailer",
            Cause::NoUser => b"NoUser",
            Cause::FileMailer => b"FileMailer",
            Cause::ErrorMailer => b"ErrorMailer",
        }
    }
}

impl TryCopy for Triple {
    fn copy(&self) -> Result<Triple, NoMemory> {
        Ok(Triple {
            mailer: self.mailer.copy()?,
            host: self.host.copy()?,
            user: self.user.copy()?,
        })
    }
}

impl TryCopy for Cause {
    fn copy(&self) -> Result<Cause, NoMemory> {
        match self {
            Cause::Loop => Ok(Cause::Loop),
            Cause::Deep => Ok(Cause::Deep),
            Cause::Work => Ok(Cause::Work),
            Cause::NoRuleset(name) => Ok(Cause::NoRuleset(name.copy()?)),
            Cause::MapClass(name) => Ok(Cause::MapClass(name.copy()?)),
            Cause::NoSuchMap(name) => Ok(Cause::NoSuchMap(name.copy()?)),
            Cause::BadScan => Ok(Cause::BadScan),
            Cause::Long => Ok(Cause::Long),
            Cause::BadAddress => Ok(Cause::BadAddress),
            Cause::LongAddress => Ok(Cause::LongAddress),
            Cause::NotResolved => Ok(Cause::NotResolved),
            Cause::UnknownMailer(name) => Ok(Cause::UnknownMailer(name.copy()?)),
            Cause::NoUser => Ok(Cause::NoUser),
            Cause::FileMailer => Ok(Cause::FileMailer),
            Cause::ErrorMailer => Ok(Cause::ErrorMailer),
        }
    }
}

impl TryCopy for RouteError {
    fn copy(&self) -> Result<RouteError, NoMemory> {
        Ok(RouteError {
            code: self.code,
            status: self.status.copy()?,
            text: self.text.copy()?,
            cause: self.cause.copy()?,
        })
    }
}

impl TryCopy for Resolved {
    fn copy(&self) -> Result<Resolved, NoMemory> {
        match self {
            Resolved::Goes(triple) => Ok(Resolved::Goes(triple.copy()?)),
            Resolved::Refuses(error) => Ok(Resolved::Refuses(error.copy()?)),
        }
    }
}
