use mail_base::{Text, Token};

/// What a dollar sign means in a text, where it stands neither in quotes nor in a comment nor
/// behind a backslash.
#[derive(Clone, Copy)]
pub enum Dollars {
    /// Nothing: it is a byte like another.
    Bytes,
    /// In an address that is typed `$|`, `$#`, `$@`, `$:` and `$.` are those signs, and each other
    /// dollar sign is a byte.
    Typed,
    /// In a side of a rule each begins a construct, or is doubled and stands for one dollar sign.
    Side,
}

/// What a side of a rule is made of.
#[derive(Drop)]
pub enum Lexeme {
    Token(Token),
    /// A dollar sign with the byte behind it: a digit or one of `* + - @ : # > [ ] ( ) | .`.
    Dollar(u8),
    /// `$=x`, `$~x` or `$&x`: the byte behind the dollar sign, and the name. That of `{x}` is `x`.
    Named(u8, Text),
}
