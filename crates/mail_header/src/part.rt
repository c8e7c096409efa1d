ghost use Rattle.std.specs.Prelude.{◌≡◌};
ghost use Rattle.mail_header.specs.Places as spec;

use addr_tokens::PieceKind;

/// A piece of a header's value.
#[derive(Clone, Copy, Debug, Drop)]
pub(crate) struct Part {
    pub(crate) kind: PieceKind,
    /// How many angles are open before it.
    pub(crate) depth: usize,
    /// How many bytes of the header stand before it.
    pub(crate) start: usize,
    /// How many bytes of the header stand before its end.
    pub(crate) end: usize,
}

/// Whether a piece is this operator.
pub(crate) fn is_op(byte: u8, kind: PieceKind) -> bool
    ensures { result ≡ spec.is_op byte kind }
{
    match kind {
        PieceKind::Operator(found) => found == byte,
        _ => false,
    }
}

/// Whether it ends a member.
pub(crate) fn is_comma(part: &Part) -> bool
    ensures { result ≡ spec.is_comma part.now }
{
    part.depth == 0 && is_op(b',', part.kind)
}

/// Whether it makes a group.
pub(crate) fn is_group(part: &Part) -> bool
    ensures { result ≡ spec.is_group part.now }
{
    part.depth == 0 && (is_op(b':', part.kind) || is_op(b';', part.kind))
}

pub(crate) fn is_left(part: &Part) -> bool
    ensures { result ≡ spec.is_left part.now }
{
    is_op(b'<', part.kind)
}

pub(crate) fn is_right(part: &Part) -> bool
    ensures { result ≡ spec.is_right part.now }
{
    is_op(b'>', part.kind)
}

pub(crate) fn is_comment(part: &Part) -> bool
    ensures { result ≡ spec.is_comment part.now }
{
    match part.kind {
        PieceKind::Comment => true,
        _ => false,
    }
}

/// Whether it is a comment or white space.
pub(crate) fn is_gap(part: &Part) -> bool
    ensures { result ≡ spec.is_gap part.now }
{
    match part.kind {
        PieceKind::Comment | PieceKind::White => true,
        _ => false,
    }
}
