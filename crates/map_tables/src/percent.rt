ghost use Rattle.std.specs.Prelude.{◌≡◌, ◌++◌, IfOk, OnOk};
ghost use Rattle.map_tables.specs.Percents.{argument, filled, sign_text};

use mail_base::{NoMemory, Seq, Text};

/// A value with its percent signs filled in.
pub(crate) fn filled(value: &[u8], key: &Text, args: &Seq<Text>) -> Result<Text, NoMemory>
    ensures { IfOk result (λ text. text ≡ filled key.now args.now value.now) }
{
    let mut text = Text::new(key.allocator());
    let mut place = 0;
    while place < value.len() {
        let byte = value[place];
        if byte == b'%' && place + 1 < value.len() {
            put_sign(&mut text, value[place + 1], key, args)?;
            place += 2;
        } else {
            text.push(byte)?;
            place += 1;
        }
    }
    Ok(text)
}

// Puts what a percent sign with this byte behind it stands for.
fn put_sign(text: &mut Text, byte: u8, key: &Text, args: &Seq<Text>) -> Result<(), NoMemory>
    ensures { OnOk result (text.new ≡ text.old ++ sign_text key.now args.now byte) }
{
    match byte {
        b'%' => text.push(b'%'),
        b'0'..=b'9' => text.extend(argument(key, args, (byte - b'0') as usize)),
        _ => text.extend(&[b'%', byte]),
    }
}

// The key, or the argument of that number, counted from 1.
fn argument<'a>(key: &'a Text, args: &'a Seq<Text>, number: usize) -> &'a [u8]
    ensures { result.now ≡ argument key.now args.now number }
{
    if number == 0 {
        return key.bytes();
    }
    match args.get(number - 1) {
        Some(text) => text.bytes(),
        None => &[],
    }
}
