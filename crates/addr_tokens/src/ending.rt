ghost use Rattle.std.specs.Prelude.{◌≡◌, ◌<◌, ◌≤◌, [], false, true, length, drop};
ghost use Rattle.addr_tokens.specs.Pieces.{Alphabet};
ghost use Rattle.addr_tokens.specs.Reader.{past_word, past_quote, past_comment};
ghost use Rattle.addr_tokens.specs.inner.Tables.{IsTable};
ghost use Rattle.addr_tokens.specs.inner.Views.{ending_in, IsWithin};

use crate::table::{Table, is_control};

/// How a quoted string or a comment ends, by places in the text behind its first byte.
pub(crate) enum Ending {
    /// It is so long with its last byte.
    Closed(usize),
    Unclosed,
    /// This byte may not stand there.
    Bad(usize),
}

/// How many bytes the word at the front has.
pub(crate) fn word_length(table: &Table, text: &[u8]) -> usize
    ensures within { result ≤ length text.now }
    ensures rest { (alphabet : Alphabet) → IsTable alphabet table.now.listed table.now.dollars
        → drop result text.now ≡ past_word alphabet false text.now }
{
    let mut size = 0usize;
    'bytes: while size < text.len() {
        let byte = text[size];
        if table.is_lone(byte) {
            size += 1;
            continue 'bytes;
        }
        if byte != b'\\' && byte != b'$' {
            return size;
        }
        let after = &text[size + 1..];
        if table.takes_next(byte, after) {
            if size + 1 == text.len() {
                return size;
            }
            size += 2;
        } else if table.is_word_byte(byte, after) {
            size += 1;
        } else {
            return size;
        }
    }
    size
}

/// How the quoted string ends whose first double quote stands before the text.
pub(crate) fn quote_end(text: &[u8]) -> Ending
    ensures within { IsWithin text.now result }
    ensures ends { ending_in text.now result ≡ past_quote false text.now }
{
    let mut quoted = false;
    'bytes: for (index, byte) in text.iter().enumerate() {
        if is_control(*byte) {
            return Ending::Bad(index);
        }
        if quoted {
            quoted = false;
        } else if *byte == b'\\' {
            quoted = true;
        } else if *byte == b'"' {
            return Ending::Closed(index + 1);
        }
    }
    end(quoted, text)
}

/// How the comment ends whose first parenthesis stands before the text.
pub(crate) fn comment_end(text: &[u8]) -> Ending
    ensures within { IsWithin text.now result }
    ensures ends { ending_in text.now result ≡ past_comment 0 false text.now }
{
    let mut quoted = false;
    let mut depth = 0usize;
    'bytes: for (index, byte) in text.iter().enumerate() {
        if quoted {
            quoted = false;
        } else if *byte == b'\\' {
            quoted = true;
        } else if *byte == b'(' {
            depth += 1;
        } else if *byte == b')' {
            if depth == 0 {
                return Ending::Closed(index + 1);
            }
            depth -= 1;
        }
    }
    end(quoted, text)
}

/// At the end of the text, which a backslash may stand before.
fn end(quoted: bool, text: &[u8]) -> Ending
    requires { quoted ≡ true → 0 < length text.now }
    ensures within { IsWithin text.now result }
    ensures ends { ending_in text.now result ≡ past_quote quoted [] }
{
    if quoted {
        Ending::Bad(text.len().saturating_sub(1))
    } else {
        Ending::Unclosed
    }
}
