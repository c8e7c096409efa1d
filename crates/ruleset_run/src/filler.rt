ghost use Rattle.std.specs.Prelude.{◌≡◌, ◌&&◌, ◌++◌, List, ℕ, IfOk, IfSome, OnOk, map, true};
ghost use Rattle.std.specs.List.{list_all};
ghost use Rattle.ruleset_run.specs.Cutting.{Lates};
ghost use Rattle.ruleset_run.specs.Filling.{Matched, OneToken, asked, fallback_tokens, filled, is_cut_fallback, is_cut_piece, is_cut_right, is_cut_step, looked_up, piece_tokens, pieces_tokens};
ghost use Rattle.ruleset_run.specs.Filling as spec;
ghost use Rattle.ruleset_run.specs.inner.Filler.{Fills, Gain, IsCutAs, Looks, StepFills, is_plain};
ghost use Rattle.ruleset_run.specs.inner.Values.{lates};

use crate::RunFault;
use crate::calls::push_all;
use crate::parts::Parts;
use crate::values::Values;
use addr_tokens::join;
use mail_base::{Mark, NoMemory, Pattern, Piece, Query, Seq, Step, Text, Token, TryCopy};
use map_tables::{Found, MapFault, Maps};
use rule_match::Cuts;
use std::slice;

/// Whether each `$&x` of a right side can be cut.
pub fn is_cut(values: &mut Values, steps: &[Step]) -> Result<bool, NoMemory>
    ensures value { IfOk result (λ is. is ≡ is_cut_right (lates values.old) steps.now) }
    ensures same { values.new ≡ values.old }
{
    for step in steps {
        if is_early(step) {
            continue;
        }
        if !is_cut_step(values, step)? {
            return Ok(false);
        }
    }
    Ok(true)
}

/// Whether the step has no `$&x`, as is seen without a look at the macros.
fn is_early(step: &Step) -> bool
    ensures { result ≡ true → (late : Lates) → is_cut_step late step.now ≡ true }
{
    matches!(
        step,
        Step::Plain(Piece::Give(_) | Piece::Cut(_)) | Step::Call
    )
}

fn is_cut_step(values: &mut Values, step: &Step) -> Result<bool, NoMemory>
    ensures value { IfOk result (λ is. is ≡ is_cut_step (lates values.old) step.now) }
    ensures same { values.new ≡ values.old }
{
    match step {
        Step::Plain(piece) => is_cut_piece(values, piece),
        Step::Lookup(lookup) => is_cut_query(values, lookup.query()),
        Step::Call => Ok(true),
    }
}

fn is_cut_query(values: &mut Values, query: &Query) -> Result<bool, NoMemory>
    ensures value { IfOk result
        (λ is. is ≡ (list_all (is_cut_piece (lates values.old)) query.now.key
        && list_all (list_all (is_cut_piece (lates values.old))) query.now.args
        && is_cut_fallback (lates values.old) query.now.fallback)) }
    ensures same { values.new ≡ values.old }
{
    Ok(
        are_cut(values, query.key.items())?
            && all_cut(values, query.args.items())?
            && is_cut_fallback(values, &query.fallback)?,
    )
}

fn is_cut_fallback(values: &mut Values, fallback: &Option<Seq<Piece>>) -> Result<bool, NoMemory>
    ensures value { IfOk result (λ is. is ≡ is_cut_fallback (lates values.old) fallback.now) }
    ensures same { values.new ≡ values.old }
{
    match fallback {
        Some(pieces) => are_cut(values, pieces.items()),
        None => Ok(true),
    }
}

fn all_cut(values: &mut Values, args: &[Seq<Piece>]) -> Result<bool, NoMemory>
    ensures value { IfOk result
        (λ is. is ≡ list_all (list_all (is_cut_piece (lates values.old))) args.now) }
    ensures same { values.new ≡ values.old }
{
    for pieces in args {
        if !are_cut(values, pieces.items())? {
            return Ok(false);
        }
    }
    Ok(true)
}

fn are_cut(values: &mut Values, pieces: &[Piece]) -> Result<bool, NoMemory>
    ensures value { IfOk result (λ is. is ≡ list_all (is_cut_piece (lates values.old)) pieces.now) }
    ensures same { values.new ≡ values.old }
{
    for piece in pieces {
        if !is_cut_piece(values, piece)? {
            return Ok(false);
        }
    }
    Ok(true)
}

fn is_cut_piece(values: &mut Values, piece: &Piece) -> Result<bool, NoMemory>
    ensures value { IfOk result (λ is. is ≡ is_cut_piece (lates values.old) piece.now) }
    ensures same { values.new ≡ values.old }
{
    match piece {
        Piece::Late(name) => values.is_cut(name),
        _ => Ok(true),
    }
}

/// A match of a left side with tokens, by its cuts.
#[derive(Clone, Copy)]
pub struct Match<'a> {
    pub left: &'a Pattern,
    pub cuts: &'a Cuts,
    pub tokens: &'a Seq<Token>,
}

/// The parts of a right side, filled from a match, where each `$&x` can be cut. A look-up that is
/// refused goes before too many tokens.
pub fn fill(
    maps: &Maps,
    values: &mut Values,
    source: &Match,
    steps: &[Step],
) -> Result<Parts, RunFault>
    requires cuts { (found : Matched)
        × IsCutAs source.now.left.now source.now.tokens.now source.now.cuts.now found }
    requires settled { values.old.after ≡ values.old.macros }
    ensures fills { (found : Matched)
        → IsCutAs source.now.left.now source.now.tokens.now source.now.cuts.now found
        → Fills result values.new.macros
        (filled maps.now values.old.operators (lates values.old) found steps.now
        values.old.macros) }
    ensures operators { values.new.operators ≡ values.old.operators }
    ensures settled { OnOk result (values.new.after ≡ values.new.macros) }
{
    let room = source.tokens.len().saturating_add(steps.len());
    let mut parts = Parts::with_room(values.allocator(), room)?;
    for step in steps {
        fill_step(maps, values, source, step, &mut parts)?;
    }
    values.settle()?;
    Ok(parts)
}

fn fill_step(
    maps: &Maps,
    values: &mut Values,
    source: &Match,
    step: &Step,
    parts: &mut Parts,
) -> Result<(), RunFault>
    requires { (found : Matched)
        × IsCutAs source.now.left.now source.now.tokens.now source.now.cuts.now found }
    ensures fills { (found : Matched)
        → IsCutAs source.now.left.now source.now.tokens.now source.now.cuts.now found
        → StepFills (filled maps.now values.old.operators (lates values.old) found) step.now
        parts.old values.old.after parts.new values.new.after result }
    ensures operators { values.new.operators ≡ values.old.operators }
    ensures macros { values.new.macros ≡ values.old.macros }
{
    match step {
        Step::Plain(piece) => {
            add_piece(values, source, piece, parts)?;
            Ok(())
        }
        Step::Lookup(lookup) => {
            let given = look_up(maps, values, source, lookup.query())?;
            parts.push_tokens(given.items())?;
            Ok(())
        }
        Step::Call => {
            parts.push_call()?;
            Ok(())
        }
    }
}

fn add_piece(
    values: &mut Values,
    source: &Match,
    piece: &Piece,
    parts: &mut Parts,
) -> Result<(), NoMemory>
    requires { (found : Matched)
        × IsCutAs source.now.left.now source.now.tokens.now source.now.cuts.now found }
    ensures gain { (found : Matched)
        → IsCutAs source.now.left.now source.now.tokens.now source.now.cuts.now found
        → OnOk result (Gain parts.old parts.new
        (map OneToken (piece_tokens (lates values.old) found piece.now))) }
    ensures same { values.new ≡ values.old }
{
    match piece {
        Piece::Late(name) => match values.late(name)? {
            Some(tokens) => parts.push_tokens(tokens.items()),
            None => parts.push_tokens(&[]),
        },
        _ => parts.push_tokens(plain_tokens(source, piece)),
    }
}

// What a piece other than `$&x` stands for.
fn plain_tokens<'a>(source: &Match<'a>, piece: &'a Piece) -> &'a [Token]
    requires { (found : Matched)
        × IsCutAs source.now.left.now source.now.tokens.now source.now.cuts.now found }
    ensures { (found : Matched) (late : Lates)
        → IsCutAs source.now.left.now source.now.tokens.now source.now.cuts.now found
        → is_plain piece.now ≡ true
        → result.now ≡ piece_tokens late found piece.now }
{
    match piece {
        Piece::Give(token) => slice::from_ref(token),
        Piece::Cut(number) => source.cuts.piece(source.tokens, *number),
        Piece::Late(_) => &[],
    }
}

// What a look-up gives; what it changes of the macros waits.
fn look_up(
    maps: &Maps,
    values: &mut Values,
    source: &Match,
    query: &Query,
) -> Result<Seq<Token>, RunFault>
    requires { (found : Matched)
        × IsCutAs source.now.left.now source.now.tokens.now source.now.cuts.now found }
    ensures looks { (found : Matched)
        → IsCutAs source.now.left.now source.now.tokens.now source.now.cuts.now found
        → Looks result values.new.after
        (looked_up maps.now values.old.operators query.now.name
        (pieces_tokens (lates values.old) found query.now.key)
        (map (pieces_tokens (lates values.old) found) query.now.args)
        (fallback_tokens (lates values.old) found query.now.fallback) values.old.after) }
    ensures operators { values.new.operators ≡ values.old.operators }
    ensures macros { values.new.macros ≡ values.old.macros }
{
    let key = tokens_of(values, source, query.key.items())?;
    let args = texts_of(values, source, query.args.items())?;
    let text = join(values.allocator(), &key, Some(b' '))?;
    match values.lookup(maps, &query.name, &text, &args) {
        Ok(Found::Value(answer)) => match values.cut(&answer)? {
            Some(tokens) => Ok(tokens),
            None => Err(RunFault::BadScan),
        },
        Ok(Found::Absent) => match &query.fallback {
            Some(pieces) => Ok(tokens_of(values, source, pieces.items())?),
            None => Ok(key),
        },
        Err(MapFault::MapClass) => Err(RunFault::MapClass(query.name.copy()?)),
        Err(MapFault::NoSuchMap) => Err(RunFault::NoSuchMap(query.name.copy()?)),
        Err(MapFault::NoMemory) => Err(RunFault::NoMemory),
    }
}

// The tokens that pieces stand for.
fn tokens_of(values: &mut Values, source: &Match, pieces: &[Piece]) -> Result<Seq<Token>, NoMemory>
    requires { (found : Matched)
        × IsCutAs source.now.left.now source.now.tokens.now source.now.cuts.now found }
    ensures tokens { (found : Matched)
        → IsCutAs source.now.left.now source.now.tokens.now source.now.cuts.now found
        → IfOk result (λ tokens. tokens ≡ pieces_tokens (lates values.old) found pieces.now) }
    ensures same { values.new ≡ values.old }
{
    let mut given = Seq::new(values.allocator());
    for piece in pieces {
        push_piece(values, source, piece, &mut given)?;
    }
    Ok(given)
}

fn push_piece(
    values: &mut Values,
    source: &Match,
    piece: &Piece,
    given: &mut Seq<Token>,
) -> Result<(), NoMemory>
    requires { (found : Matched)
        × IsCutAs source.now.left.now source.now.tokens.now source.now.cuts.now found }
    ensures gain { (found : Matched)
        → IsCutAs source.now.left.now source.now.tokens.now source.now.cuts.now found
        → OnOk result (given.new ≡ given.old ++ piece_tokens (lates values.old) found piece.now) }
    ensures same { values.new ≡ values.old }
{
    match piece {
        Piece::Late(name) => match values.late(name)? {
            Some(tokens) => push_all(given, tokens.items()),
            None => push_all(given, &[]),
        },
        _ => push_all(given, plain_tokens(source, piece)),
    }
}

// The arguments of a look-up as texts.
fn texts_of(values: &mut Values, source: &Match, args: &[Seq<Piece>]) -> Result<Seq<Text>, NoMemory>
    requires { (found : Matched)
        × IsCutAs source.now.left.now source.now.tokens.now source.now.cuts.now found }
    ensures texts { (found : Matched)
        → IsCutAs source.now.left.now source.now.tokens.now source.now.cuts.now found
        → IfOk result (λ texts. texts
        ≡ map asked (map (pieces_tokens (lates values.old) found) args.now)) }
    ensures same { values.new ≡ values.old }
{
    let mut texts = Seq::new(values.allocator());
    for pieces in args {
        let tokens = tokens_of(values, source, pieces.items())?;
        texts.push(join(values.allocator(), &tokens, Some(b' '))?)?;
    }
    Ok(texts)
}

/// Whether the list begins with `$#`.
pub fn is_resolved(tokens: &Seq<Token>) -> bool
    ensures { result ≡ spec.is_resolved tokens.now }
{
    match tokens.items() {
        [Token::Sign(Mark::Mailer), ..] => true,
        _ => false,
    }
}
