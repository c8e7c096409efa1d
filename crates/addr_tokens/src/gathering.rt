ghost use Rattle.std.specs.Prelude.{◌≡◌, ◌≢◌, ◌≤◌, ◌∷◌, [], List, ℕ, true, false, length, map, reverse, None, Ok, Err, OnOk, IfOk, IfErr};
ghost use Rattle.addr_tokens.specs.declared.lexeme.Dollars.{Dollars as TheDollars};
ghost use Rattle.addr_tokens.specs.declared.fault.ScanFault.TheVariants.{NoMemory as Memory};
ghost use Rattle.addr_tokens.specs.Pieces.{given_by};
ghost use Rattle.addr_tokens.specs.Scans.{most_tokens};
ghost use Rattle.addr_tokens.specs.Reader.{Answer, note_angle, close_angle, judge_end, with_lexemes, gathered};
ghost use Rattle.addr_tokens.specs.inner.Views.{piece_of, size_of, Suits};

use crate::ScanFault;
use crate::front::Front;
use crate::given::Given;
use mail_base::{NoMemory, Seq};
use std::alloc::Global;

/// The most tokens that a text may have.
const MOST_TOKENS: usize = 2000;

/// The `<` that are open.
#[derive(Drop)]
pub(crate) struct Angles {
    checked: bool,
    /// Their places, the last one at the end.
    places: Vec<u64>,
}

impl Angles {
    pub(crate) fn new(alloc: Global, checked: bool) -> Angles
        ensures checked { result.checked ≡ checked }
        ensures places { result.places.items ≡ [] }
    {
        Angles {
            checked,
            places: Vec::new(alloc),
        }
    }

    /// Takes note of a piece at this place, where it is an angle.
    pub(crate) fn note(&mut self, front: Front, place: u64) -> Result<(), ScanFault>
        ensures checked { self.new.checked ≡ self.old.checked }
        ensures places { OnOk result ((text : List ℕ)
            → note_angle self.old.checked place (reverse self.old.places.items)
            (piece_of front text)
            ≡ Ok (reverse self.new.places.items)) }
        ensures fault { IfErr result (λ fault. fault ≢ Memory → (text : List ℕ)
            → note_angle self.old.checked place (reverse self.old.places.items)
            (piece_of front text) ≡ Err fault) }
    {
        if !self.checked {
            return Ok(());
        }
        match front {
            Front::Operator(b'<') => Ok(self.begin(place)?),
            Front::Operator(b'>') => self.close(place),
            _ => Ok(()),
        }
    }

    fn begin(&mut self, place: u64) -> Result<(), NoMemory>
        ensures checked { self.new.checked ≡ self.old.checked }
        ensures places { OnOk result (reverse self.new.places.items
            ≡ place ∷ reverse self.old.places.items) }
    {
        Ok(self.places.push(place)?)
    }

    fn close(&mut self, place: u64) -> Result<(), ScanFault>
        ensures checked { self.new.checked ≡ self.old.checked }
        ensures places { OnOk result (close_angle place (reverse self.old.places.items)
            ≡ Ok (reverse self.new.places.items)) }
        ensures fault { IfErr result (λ fault. close_angle place (reverse self.old.places.items)
            ≡ Err fault) }
    {
        match self.places.pop() {
            Some(_) => Ok(()),
            None => Err(ScanFault::Unbalanced(place)),
        }
    }

    /// At the end of the text.
    pub(crate) fn end(&self) -> Result<(), ScanFault>
        ensures none { OnOk result (judge_end (reverse self.now.places.items) None ≡ Ok []) }
        ensures fault { IfErr result (λ fault. judge_end (reverse self.now.places.items) None
            ≡ Err fault) }
    {
        match self.places.last() {
            Some(place) => Err(ScanFault::Unbalanced(*place)),
            None => Ok(()),
        }
    }
}

/// What was gathered so far.
#[derive(Drop)]
pub(crate) struct Gathering<T> {
    given: Seq<T>,
    /// There was more than 2,000. The rest isn't kept.
    is_long: bool,
    ghost short: { length given ≤ most_tokens },
}

impl<T: Given> Gathering<T> {
    pub(crate) fn new(alloc: Global) -> Gathering<T>
        ensures given { result.given ≡ [] }
        ensures short { result.is_long ≡ false }
    {
        Gathering {
            given: Seq::new(alloc),
            is_long: false,
        }
    }

    /// Adds what the piece gives that a text begins with.
    // Where the piece is told it need not be asked.
    #[inline(always)]
    pub(crate) fn add(&mut self, front: Front, text: &[u8]) -> Result<(), NoMemory>
        requires { size_of front ≤ length text.now }
        ensures { OnOk result ((dollars : TheDollars) → T.serves dollars → Suits dollars front
            → (more : Answer)
            → gathered self.new.is_long (map T.seen self.new.given) more
            ≡ gathered self.old.is_long (map T.seen self.old.given)
            (with_lexemes (given_by dollars (piece_of front text.now)) more)) }
    {
        if gives_nothing(front) {
            return Ok(());
        }
        if self.given.len() >= MOST_TOKENS {
            self.is_long = true;
            return Ok(());
        }
        let Some(given) = T::of(self.given.allocator(), front, text)? else {
            return Ok(());
        };
        self.given.push(given)
    }

    pub(crate) fn given(self) -> Result<Seq<T>, ScanFault>
        ensures ok { IfOk result (λ given. gathered self.is_long (map T.seen self.given) (Ok [])
            ≡ Ok (map T.seen given)) }
        ensures long { IfErr result (λ fault. gathered self.is_long (map T.seen self.given) (Ok [])
            ≡ Err fault) }
    {
        if self.is_long {
            return Err(ScanFault::Long);
        }
        Ok(self.given)
    }
}

/// What is answered at the end of a text: a `<` that stays open goes before `Long`.
pub(crate) fn answer_of<T: Given>(
    angles: &Angles,
    gathering: Gathering<T>,
) -> Result<Seq<T>, ScanFault>
    ensures ok { IfOk result (λ given. gathered gathering.is_long (map T.seen gathering.given)
        (judge_end (reverse angles.now.places.items) None) ≡ Ok (map T.seen given)) }
    ensures fault { IfErr result (λ fault. gathered gathering.is_long (map T.seen gathering.given)
        (judge_end (reverse angles.now.places.items) None) ≡ Err fault) }
{
    angles.end()?;
    gathering.given()
}

/// White space and comments give nothing.
fn gives_nothing(front: Front) -> bool
    ensures nothing { result ≡ true → (dollars : TheDollars) (text : List ℕ)
        → given_by dollars (piece_of front text) ≡ [] }
    ensures one { result ≡ false → (dollars : TheDollars) (text : List ℕ)
        → length (given_by dollars (piece_of front text)) ≡ 1 }
{
    matches!(front, Front::White | Front::Comment(_))
}
