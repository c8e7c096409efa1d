use self::Call::{Angles, Dollars, Plain, Side, SideDollars, Typed};
use addr_tokens::{Lexeme, ScanFault, join, lexemes, tokens, typed_tokens};
use mail_base::{Mark, NoMemory, Seq, Text, Token, Word};
use std::alloc::Global;

/// How a text is read: with its angles checked or not, as it is typed, or as the side of a rule; by
/// the operators `.:@[]`, or by a dollar sign alone.
#[derive(Clone, Copy)]
enum Call {
    Plain,
    Angles,
    Typed,
    Side,
    Dollars,
    SideDollars,
}

/// A call, a text, and its answer as `show_answer` writes it.
type Row = (Call, &'static [u8], &'static [u8]);

static ROWS: [Row; 57] = [
    // By the operators `.:@[]`, where angles aren't checked, and where they are.
    (Plain, b"a\0b\x1fc\x7fd\ne", b"W:a W:b W:c W:d W:e"),
    (Plain, b"(\0\x7f\n<>@)a", b"W:a"),
    (Plain, b"ab )c", b"Unbalanced 3"),
    (Angles, b"a<b@c>", b"W:a O:< W:b O:@ W:c O:>"),
    (Angles, b"<a<b", b"Unbalanced 2"),
    // Addresses that are typed.
    (Typed, b"$#local$:eric", b"S:# W:local S:: W:eric"),
    (Typed, b"$: \"", b"BadQuote 3"),
    // Sides of rules.
    (Side, b"$-:$+", b"D:- O:: D:+"),
    (
        Side,
        b"$* < @ $=w . $~{x} > $&m",
        b"D:* O:< O:@ N:=w O:. N:~x O:> N:&m",
    ),
    (Side, b"$(host $1 $: $2 $)", b"D:( W:host D:1 D:: D:2 D:)"),
    (Side, b"$[ $1 $]", b"D:[ D:1 D:]"),
    (Side, b"$>Parse0 $1", b"D:> W:Parse0 D:1"),
    (Side, b"a$*b", b"W:a D:* W:b"),
    (
        Side,
        b"a$|b$.c$#d$@e$:",
        b"W:a D:| W:b D:. W:c D:# W:d D:@ W:e D::",
    ),
    (Side, b"$0$12$9", b"D:0 D:1 W:2 D:9"),
    (Side, b"\"a $1\"", b"Q:\"a $1\""),
    (Side, b"a\\$b", b"W:a\\$b"),
    (Side, b"( $1 )", b""),
    (Side, b"\"$\"", b"Q:\"$\""),
    (Side, b"$$$1", b"W:$ D:1"),
    (Side, b"($$)", b""),
    (Side, b"$={a b}c", b"N:=a b W:c"),
    (Side, b"$={$x}", b"N:=$x"),
    (Side, b"$~wx", b"N:~w W:x"),
    (Side, b"$=w$&m", b"N:=w N:&m"),
    (Side, b"$={a}}", b"N:=a W:}"),
    (Side, b"< $~[ : $+ >", b"O:< N:~[ O:: D:+ O:>"),
    (Side, b"$=1$~=a", b"N:=1 N:~= W:a"),
    (Side, b"<a", b"O:< W:a"),
    (Side, b"$", b"BadDollar 0"),
    (Side, b"a b$", b"BadDollar 3"),
    (Side, b"$x", b"BadDollar 0"),
    (Side, b"${x}", b"BadDollar 0"),
    (Side, b"$ 1", b"BadDollar 0"),
    (Side, b"$?x", b"BadDollar 0"),
    (Side, b"$* $=", b"BadDollar 3"),
    (Side, b"$~ w", b"BadDollar 0"),
    (Side, b"a$={w", b"BadDollar 1"),
    (Side, b"a$={}a", b"BadDollar 1"),
    (Side, b"$~{}", b"BadDollar 0"),
    (Side, b"$1$&{}", b"BadDollar 2"),
    (Side, b"$&$1", b"BadDollar 0"),
    (Side, b"$&[", b"BadDollar 0"),
    (Side, b"$=$*", b"BadDollar 0"),
    (Side, b"\\$$", b"BadDollar 2"),
    (Side, b"$1)", b"Unbalanced 2"),
    (Side, b"$1 ($(", b"Unbalanced 3"),
    (Side, b"$* \"a", b"BadQuote 3"),
    (Side, b"$* \\", b"BadQuote 3"),
    (Side, b"\"$\x01\"", b"BadQuote 2"),
    (Side, b") $", b"Unbalanced 0"),
    // Texts as tokens, where a dollar sign is an operator, and then in a side.
    (Dollars, b"a$b", b"W:a O:$ W:b"),
    (Dollars, b"a$$b", b"W:a O:$ O:$ W:b"),
    (Dollars, b"$|$$$#", b"O:$ W:| O:$ O:$ O:$ W:#"),
    (SideDollars, b"a$b", b"BadDollar 1"),
    (SideDollars, b"a$$b", b"W:a O:$ W:b"),
    (SideDollars, b"$|$$$#", b"D:| O:$ D:#"),
];

fn show(text: &mut Text, tag: &[u8], bytes: &[u8]) -> Result<(), NoMemory> {
    if !text.is_empty() {
        text.push(b' ')?;
    }
    text.extend(tag)?;
    text.extend(bytes)
}

fn show_token(text: &mut Text, token: &Token) -> Result<(), NoMemory> {
    match token {
        Token::Word(word) => show(text, b"W:", word.bytes()),
        Token::Quoted(quoted) => show(text, b"Q:", quoted.bytes()),
        Token::Op(byte) => show(text, b"O:", &[*byte]),
        Token::Sign(mark) => show(text, b"S:", &[mark_byte(*mark)]),
    }
}

fn mark_byte(mark: Mark) -> u8 {
    match mark {
        Mark::Alt => b'|',
        Mark::Mailer => b'#',
        Mark::Host => b'@',
        Mark::User => b':',
        Mark::End => b'.',
    }
}

fn show_named(text: &mut Text, byte: u8, name: &Text) -> Result<(), NoMemory> {
    show(text, b"N:", &[byte])?;
    text.extend(name.bytes())
}

fn show_lexeme(text: &mut Text, lexeme: &Lexeme) -> Result<(), NoMemory> {
    match lexeme {
        Lexeme::Token(token) => show_token(text, token),
        Lexeme::Dollar(byte) => show(text, b"D:", &[*byte]),
        Lexeme::Named(byte, name) => show_named(text, *byte, name),
    }
}

fn show_fault(text: &mut Text, fault: ScanFault) -> Result<(), NoMemory> {
    let name = format!(in text.allocator(); "{fault}")?;
    text.extend(name.as_bytes())
}

fn show_tokens(text: &mut Text, given: &Result<Seq<Token>, ScanFault>) -> Result<(), NoMemory> {
    match given {
        Ok(tokens) => {
            for token in tokens.items() {
                show_token(text, token)?;
            }
            Ok(())
        }
        Err(fault) => show_fault(text, *fault),
    }
}

fn show_side(text: &mut Text, given: &Result<Seq<Lexeme>, ScanFault>) -> Result<(), NoMemory> {
    match given {
        Ok(lexemes) => {
            for lexeme in lexemes.items() {
                show_lexeme(text, lexeme)?;
            }
            Ok(())
        }
        Err(fault) => show_fault(text, *fault),
    }
}

// Writes the answer for a text.
fn show_answer(out: &mut Text, call: Call, operators: &Text, text: &Text) -> Result<(), NoMemory> {
    let alloc = out.allocator();
    match call {
        Plain | Dollars => show_tokens(out, &tokens(alloc, text, operators, false)),
        Angles => show_tokens(out, &tokens(alloc, text, operators, true)),
        Typed => show_tokens(out, &typed_tokens(alloc, text, operators, true)),
        Side | SideDollars => show_side(out, &lexemes(alloc, text, operators, false)),
    }
}

fn is_answer(call: Call, operators: &Text, text: &Text, wanted: &[u8]) -> Result<bool, NoMemory> {
    let mut out = Text::new(text.allocator());
    show_answer(&mut out, call, operators, text)?;
    Ok(out.bytes() == wanted)
}

fn operators_of(call: Call) -> &'static [u8] {
    match call {
        Dollars | SideDollars => b"$",
        _ => b".:@[]",
    }
}

fn is_shown(alloc: Global, row: &Row) -> Result<bool, NoMemory> {
    let operators = Text::of(alloc, operators_of(row.0))?;
    is_answer(row.0, &operators, &Text::of(alloc, row.1)?, row.2)
}

#[test]
fn tokens_signs_and_faults_by_the_rules(rt: HostRuntime) -> Result<(), NoMemory> {
    for (at, row) in ROWS.iter().enumerate() {
        assert!(rt; is_shown(rt.alloc(), row)?, "row {at}");
    }
    Ok(())
}

/// A byte, how often it stands, the end behind it, and the answer, where angles are checked and no
/// byte is an operator.
type Long = (u8, usize, &'static [u8], &'static [u8]);

static LONG: [Long; 3] = [
    (b'(', 100_000, b"", b"Unbalanced 0"),
    (b'(', 100_000, b"\\", b"BadQuote 100000"),
    (b' ', 100_000, b")", b"Unbalanced 100000"),
];

fn add_long(text: &mut Text, row: &Long) -> Result<(), NoMemory> {
    for _ in 0..row.1 {
        text.push(row.0)?;
    }
    text.extend(row.2)
}

fn is_refused(alloc: Global, row: &Long) -> Result<bool, NoMemory> {
    let mut text = Text::new(alloc);
    add_long(&mut text, row)?;
    is_answer(Angles, &Text::new(alloc), &text, row.3)
}

#[test]
fn any_depth_is_looked_at(rt: HostRuntime) -> Result<(), NoMemory> {
    for (at, row) in LONG.iter().enumerate() {
        assert!(rt; is_refused(rt.alloc(), row)?, "row {at}");
    }
    Ok(())
}

/// A token of the sample.
enum Sample {
    Word(&'static [u8]),
    Quoted(&'static [u8]),
    Op(u8),
    Sign(Mark),
}

static SAMPLE: [Sample; 10] = [
    Sample::Word(b"ann"),
    Sample::Word(b"b"),
    Sample::Quoted(b"\"c d\""),
    Sample::Op(b'@'),
    Sample::Sign(Mark::Alt),
    Sample::Sign(Mark::Mailer),
    Sample::Sign(Mark::Host),
    Sample::Sign(Mark::User),
    Sample::Sign(Mark::End),
    Sample::Word(b"mx"),
];

fn token_of(alloc: Global, sample: &Sample) -> Result<Token, NoMemory> {
    match sample {
        Sample::Word(word) => Ok(Token::Word(Word::of(alloc, word)?)),
        Sample::Quoted(quoted) => Ok(Token::Quoted(Word::of(alloc, quoted)?)),
        Sample::Op(byte) => Ok(Token::Op(*byte)),
        Sample::Sign(mark) => Ok(Token::Sign(*mark)),
    }
}

fn add_sample(tokens: &mut Seq<Token>) -> Result<(), NoMemory> {
    for sample in &SAMPLE {
        tokens.push(token_of(tokens.allocator(), sample)?)?;
    }
    Ok(())
}

static JOINED: [(Option<u8>, &[u8]); 2] = [
    (Some(b' '), b"ann b \"c d\"@$|$#$@$:$.mx"),
    (None, b"annb\"c d\"@$|$#$@$:$.mx"),
];

fn is_joined(alloc: Global, blank: Option<u8>, wanted: &[u8]) -> Result<bool, NoMemory> {
    let mut tokens = Seq::new(alloc);
    add_sample(&mut tokens)?;
    Ok(join(alloc, &tokens, blank)?.bytes() == wanted)
}

#[test]
fn a_blank_stands_between_words_alone(rt: HostRuntime) -> Result<(), NoMemory> {
    for (at, row) in JOINED.iter().enumerate() {
        assert!(rt; is_joined(rt.alloc(), row.0, row.1)?, "row {at}");
    }
    Ok(())
}
