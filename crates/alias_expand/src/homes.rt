ghost use Rattle.std.specs.Prelude.{◌≡◌, IfOk, OnOk, fold, map};
ghost use Rattle.std.specs.Option.{option_copied, option_to_list};
ghost use Rattle.map_tables.specs.Hosts.{before_comment};
ghost use Rattle.map_tables.specs.Tables.{with_first};
ghost use Rattle.alias_expand.specs.Homes.{home_by, home_line, home_of, homes_of};

use mail_base::{Catalog, NoMemory, Text, split_line, words};
use map_tables::{before_comment, put_pair};
use std::alloc::Global;
use std::marker::Model;

/// The homes of users. A contract sees it as the list of its users, each with its path, in the order
/// of the lines.
pub struct Homes {
    homes: Catalog<Text>,
}

// Written out, since a caller's proof goes through the parts of a derived drop at each way out.
impl Drop for Homes {
    fn drop(self) {
        let Homes { homes: _ } = self;
    }
}

impl Model for Homes {
    ghost use Rattle.std.specs.Prelude.{List, ℕ};

    ghost Value = { List (List ℕ × List ℕ) };

    ghost view = { λ h. h.homes };
}

impl Homes {
    /// The homes of a file: its lines are a user and a path, and the first of a user counts. Text
    /// from `#` on, further words, and lines of fewer than two words are dropped. No text is
    /// refused.
    pub fn read(alloc: Global, text: &Text) -> Result<Homes, NoMemory>
        ensures { IfOk result (λ homes. homes ≡ homes_of text.now) }
    {
        let mut homes = Catalog::new(alloc);
        let mut rest = text.bytes();
        'lines: while !rest.is_empty() {
            let (line, after) = split_line(rest);
            put_pair(&mut homes, home_line(alloc, line)?)?;
            rest = after;
        }
        Ok(Homes { homes })
    }

    /// The home of a user, whose name is compared byte by byte. It takes no memory.
    pub fn home(&self, user: &Text) -> Option<&Text>
        ensures { option_copied result ≡ home_of user.now self.now }
    {
        self.homes.get(user)
    }
}

// What a line says.
fn home_line(alloc: Global, line: &[u8]) -> Result<Option<(Text, Text)>, NoMemory>
    ensures { IfOk result (λ home. home ≡ home_line line.now) }
{
    let words = words(alloc, before_comment(line))?;
    home_by(alloc, words.as_slice())
}

fn home_by(alloc: Global, words: &[&[u8]]) -> Result<Option<(Text, Text)>, NoMemory>
    ensures { IfOk result (λ home. home ≡ home_by (map (λ word. word.now) words.now)) }
{
    match words {
        [user, path, ..] => Ok(Some((Text::of(alloc, user)?, Text::of(alloc, path)?))),
        _ => Ok(None),
    }
}
