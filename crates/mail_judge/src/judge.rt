ghost use Rattle.std.specs.Prelude.{◌≡◌, ℕ, IfOk, Option, None, codes, not};
ghost use Rattle.mail_base.specs.Answering.{is_calm};
ghost use Rattle.mail_base.specs.Texts.{IsBracketed};
ghost use Rattle.mail_edge.specs.Asking.{Asks};
ghost use Rattle.mail_edge.specs.Seen.{FileMap};
ghost use Rattle.addr_route.specs.Checks.{Checks, IsBoundedIf};
ghost use Rattle.cf_macros.specs.SessionMacros.{session_macros};
ghost use Rattle.smtp_receive.specs.Judging.{AsksRecipient, IsFormedSaid, OfRecipient};
ghost use Rattle.mail_judge.specs.Judged.{IsJudged, Judges, answerer_of};

use crate::grounds::Grounds;
use crate::law::one_judgement;
use crate::refused::refused;
use addr_route::check;
use cf_macros::session_macros;
use mail_base::{JudgeFault, Kept, Macros, NoMemory, RouteError, Text};
use mail_edge::Files;
use smtp_receive::{Judge, Verdict};
use std::alloc::Global;

/// What judges the paths of sessions by the rules of a configuration (cf/README, check_mail and
/// check_rcpt): a sender is accepted or refused by the set check_mail. A recipient is refused by
/// the set check_rcpt; else it goes to the rows that its aliases give it, or is refused where they
/// give none. It draws the rows of receivers of returned mail too.
///
/// No call changes what it says, and it fails where files do that aliases name, or for want of
/// memory. It tells its answers where the files are told.
#[derive(Drop)]
pub struct Rules<'a, F: Files> {
    pub grounds: &'a Grounds<'a>,
    pub files: &'a mut F,
}

impl<F: Files> Judge for Rules<'_, F> {
    ghost seen = { λ rules. answerer_of (F.seen rules.files.now) };

    ghost answers = { λ rules. IsJudged rules.grounds.now (F.seen rules.files.now).map };

    // The reference to its files, and what these tell.
    ghost Fixed = { ℕ × Option FileMap };

    ghost fixed = { λ rules. (rules.files.ghost_name, (F.seen rules.files.now).map) };

    fn sender(
        &mut self,
        alloc: Global,
        path: &Text,
        kept: &Kept,
    ) -> Result<Option<RouteError>, JudgeFault> {
        // A law: a question has one answer.
        one_judgement();
        Ok(refusal_of(alloc, self.grounds, path, kept)?)
    }

    fn recipient(
        &mut self,
        alloc: Global,
        path: &Text,
        sender: &Text,
        kept: &Kept,
    ) -> Result<Verdict, JudgeFault> {
        // A law: a question has one answer.
        one_judgement();
        verdict_of(alloc, self.grounds, self.files, path, sender, kept)
    }
}

// What the set check_mail says of a sender.
fn refusal_of(
    alloc: Global,
    grounds: &Grounds,
    path: &Text,
    kept: &Kept,
) -> Result<Option<RouteError>, NoMemory>
    requires { IsBracketed path.now }
    ensures check { IfOk result (Checks grounds.now.config grounds.now.maps
        (session_macros grounds.now.config kept.now path.now) (codes "check_mail") path.now) }
    ensures bounded { IfOk result IsBoundedIf }
{
    let macros = session_macros(alloc, grounds.config, kept, path)?;
    let set = Text::of(alloc, b"check_mail")?;
    check(alloc, grounds.config, grounds.maps, &macros, &set, path)
}

// What is said of a recipient.
fn verdict_of<F: Files>(
    alloc: Global,
    grounds: &Grounds,
    files: &mut F,
    path: &Text,
    sender: &Text,
    kept: &Kept,
) -> Result<Verdict, JudgeFault>
    requires path { IsBracketed path.now }
    requires sender { IsBracketed sender.now }
    ensures judged { IfOk result (λ verdict. IsJudged grounds.now (F.seen files.old).map
        (AsksRecipient path.now sender.now kept.now) (OfRecipient verdict)) }
    ensures form { IfOk result (λ verdict. IsFormedSaid (OfRecipient verdict)) }
    ensures asks { Asks (F.seen files.old) (F.seen files.new) (not (is_calm result)) }
{
    let macros = session_macros(alloc, grounds.config, kept, sender)?;
    checked(alloc, grounds, files, &macros, path, sender)
}

// What the set check_rcpt says of a recipient, and the rows that it has.
fn checked<F: Files>(
    alloc: Global,
    grounds: &Grounds,
    files: &mut F,
    macros: &Macros,
    path: &Text,
    sender: &Text,
) -> Result<Verdict, JudgeFault>
    requires path { IsBracketed path.now }
    requires sender { IsBracketed sender.now }
    ensures judged { IfOk result
        (Judges grounds.now (F.seen files.old).map macros.now path.now sender.now) }
    ensures form { IfOk result (λ verdict. IsFormedSaid (OfRecipient verdict)) }
    ensures asks { Asks (F.seen files.old) (F.seen files.new) (not (is_calm result)) }
{
    let set = Text::of(alloc, b"check_rcpt")?;
    match check(alloc, grounds.config, grounds.maps, macros, &set, path)? {
        Some(error) => Ok(Verdict::No(error)),
        None => drawn(alloc, grounds, files, macros, path, sender),
    }
}

// The rows of a recipient that is accepted.
fn drawn<F: Files>(
    alloc: Global,
    grounds: &Grounds,
    files: &mut F,
    macros: &Macros,
    path: &Text,
    sender: &Text,
) -> Result<Verdict, JudgeFault>
    requires path { IsBracketed path.now }
    requires sender { IsBracketed sender.now }
    ensures judged { Checks grounds.now.config grounds.now.maps macros.now (codes "check_rcpt")
        path.now None
        → IfOk result (Judges grounds.now (F.seen files.old).map macros.now path.now sender.now) }
    ensures form { IfOk result (λ verdict. IsFormedSaid (OfRecipient verdict)) }
    ensures asks { Asks (F.seen files.old) (F.seen files.new) (not (is_calm result)) }
{
    match grounds.expand(alloc, macros, files, path, sender) {
        Ok(rows) => Ok(Verdict::Rows(rows)),
        Err(refusal) => refused(alloc, refusal),
    }
}
