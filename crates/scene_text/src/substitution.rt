//! The turn of a repeat and the arguments of a use, put into a line.

use crate::Bad;
use crate::number::{put_number, put_padded};
use crate::text::{add_plain, first_word, parted};
use mail_base::Text;

/// What a line is given: the turn of the repeat that it stands in, and the arguments of the use.
#[derive(Clone, Copy)]
pub(crate) struct Given<'a> {
    pub turn: Option<u64>,
    pub arguments: Option<&'a [u8]>,
}

/// Adds a line with what it is given.
pub(crate) fn add_given(text: &mut Text, line: &[u8], given: Given) -> Result<(), Bad> {
    let mut rest = line;
    for _ in 0..line.len() {
        if rest.is_empty() {
            break;
        }
        rest = add_part(text, rest, given)?;
    }
    Ok(())
}

// Adds the bytes up to the next backslash, or a sign, and gives what stands behind.
fn add_part<'a>(text: &mut Text, line: &'a [u8], given: Given) -> Result<&'a [u8], Bad> {
    match line {
        [b'\\', sign, behind @ ..] => {
            add_sign(text, *sign, given)?;
            Ok(behind)
        }
        [b'\\'] => {
            text.push(b'\\')?;
            Ok(&[])
        }
        _ => Ok(add_plain(text, line)?),
    }
}

fn add_sign(text: &mut Text, sign: u8, given: Given) -> Result<(), Bad> {
    match sign {
        b'#' | b'@' => add_turn(text, sign, given.turn),
        b'1'..=b'9' => Ok(text.extend(argument(given, sign - b'0')?)?),
        _ => Ok(text.extend(&[b'\\', sign])?),
    }
}

fn add_turn(text: &mut Text, sign: u8, turn: Option<u64>) -> Result<(), Bad> {
    let turn = turn.ok_or(Bad::NoCount)?;
    if sign == b'#' {
        put_number(text, turn)?;
    } else {
        put_padded(text, turn)?;
    }
    Ok(())
}

// The argument of a place, counted from 1.
fn argument(given: Given<'_>, place: u8) -> Result<&[u8], Bad> {
    let mut rest = given.arguments.ok_or(Bad::NoArgument)?;
    for _ in 1..place {
        let (_first, behind) = parted(rest, b' ').ok_or(Bad::NoArgument)?;
        rest = behind;
    }
    Ok(first_word(rest).0)
}
