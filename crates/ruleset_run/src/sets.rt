ghost use Rattle.std.specs.Prelude.{◌≡◌, ◌++◌, ◌∷◌, [], IfOk, OnOk, map, None, codes};
ghost use Rattle.ruleset_run.specs.Sets as spec;

use mail_base::{Mailer, NoMemory, Seq, Text, TryCopy};
use std::alloc::Global;

/// The rulesets that a mailer's sender goes through: 3, 1, the one of its field S for the
/// envelope, and 4.
pub fn sender_sets(alloc: Global, mailer: &Mailer) -> Result<Seq<Text>, NoMemory>
    ensures { IfOk result (λ sets. sets ≡ spec.sender_sets mailer.now) }
{
    sets_around(alloc, b"31", &mailer.envelope_from, b"4")
}

/// The rulesets that a mailer's recipient goes through: 3, 2, the one of its field R for the
/// envelope, and 4.
pub fn recipient_sets(alloc: Global, mailer: &Mailer) -> Result<Seq<Text>, NoMemory>
    ensures { IfOk result (λ sets. sets ≡ spec.recipient_sets mailer.now) }
{
    sets_around(alloc, b"32", &mailer.envelope_to, b"4")
}

/// The rulesets that a sender goes through in a header of a mailer's message: 3, 1, the one of its
/// field S for headers, and 4.
pub fn header_sender_sets(alloc: Global, mailer: &Mailer) -> Result<Seq<Text>, NoMemory>
    ensures { IfOk result (λ sets. sets ≡ spec.header_sender_sets mailer.now) }
{
    sets_around(alloc, b"31", &mailer.header_from, b"4")
}

/// The rulesets that a recipient goes through in a header of a mailer's message: 3, 2, the one of
/// its field R for headers, and 4.
pub fn header_recipient_sets(alloc: Global, mailer: &Mailer) -> Result<Seq<Text>, NoMemory>
    ensures { IfOk result (λ sets. sets ≡ spec.header_recipient_sets mailer.now) }
{
    sets_around(alloc, b"32", &mailer.header_to, b"4")
}

/// Those of a user, which set 0 gave: the same without 3.
pub fn user_sets(alloc: Global, mailer: &Mailer) -> Result<Seq<Text>, NoMemory>
    ensures { IfOk result (λ sets. sets ≡ spec.user_sets mailer.now) }
{
    sets_around(alloc, b"2", &mailer.envelope_to, b"4")
}

/// The rulesets of these digits.
pub fn sets_of(alloc: Global, digits: &[u8]) -> Result<Seq<Text>, NoMemory>
    ensures { IfOk result (λ sets. sets ≡ map (λ digit. digit ∷ []) digits.now) }
{
    let mut sets = Seq::new(alloc);
    push_digits(&mut sets, digits)?;
    Ok(sets)
}

// The sets of digits, one that a mailer may name, and again some of digits.
fn sets_around(
    alloc: Global,
    front: &[u8],
    set: &Option<Text>,
    back: &[u8],
) -> Result<Seq<Text>, NoMemory>
    ensures { IfOk result (λ sets. sets ≡ spec.sets_around front.now set.now back.now) }
{
    let mut sets = Seq::new(alloc);
    push_digits(&mut sets, front)?;
    push_set(&mut sets, set)?;
    push_digits(&mut sets, back)?;
    Ok(sets)
}

fn push_digits(sets: &mut Seq<Text>, digits: &[u8]) -> Result<(), NoMemory>
    ensures { OnOk result (sets.new ≡ sets.old ++ map (λ digit. digit ∷ []) digits.now) }
{
    let alloc = sets.allocator();
    for digit in digits {
        sets.push(Text::of(alloc, &[*digit])?)?;
    }
    Ok(())
}

fn push_set(sets: &mut Seq<Text>, set: &Option<Text>) -> Result<(), NoMemory>
    ensures { OnOk result (sets.new ≡ sets.old ++ spec.listed set.now) }
{
    match set {
        Some(name) => sets.push(name.copy()?),
        None => Ok(()),
    }
}
