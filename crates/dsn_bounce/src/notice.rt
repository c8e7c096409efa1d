ghost use Rattle.std.specs.Prelude.{◌≡◌, ◌++◌, All, IfOk, OnOk, true, false, map, length, codes, bytes_eq};
ghost use Rattle.std.specs.List.{flat_map};
ghost use Rattle.mail_base.specs.Drawing.{null_sender};
ghost use Rattle.mail_base.specs.Notes.{blanked};
ghost use Rattle.mail_base.specs.Texts.{IsHeader};
ghost use Rattle.cf_macros.specs.Expansion as expansion;
ghost use Rattle.dsn_bounce.specs.Returned as spec;

use crate::reasons::{push_line, push_rows};
use crate::topic::Topic;
use cf_macros::{Form, date, host_name};
use mail_base::{
    Config, Control, Kept, Marks, Message, NoMemory, Row, Seq, Text, blanked, split_line,
};
use std::alloc::Global;

/// The message that returns an entry's failed rows to its sender, or, where that is null, to
/// `DoubleBounceAddress`: a double bounce then. `body` is the entry's body; it isn't returned where
/// the entry's class is below 0. `moment` is in seconds from the beginning of 1970.
pub fn bounce(
    config: &Config,
    control: &Control,
    body: &Text,
    moment: u64,
) -> Result<Message, NoMemory>
    ensures message { IfOk result (spec.IsBounce config.now control.now body.now moment) }
    ensures headers { IfOk result (λ message. All IsHeader message.headers) }
{
    notice(Topic::Bounce, config, control, body, moment)
}

/// The message that tells an entry's sender which rows are still tried. It has the headers of the
/// entry, and not its body.
pub fn warning(config: &Config, control: &Control, moment: u64) -> Result<Message, NoMemory>
    ensures message { IfOk result (spec.IsWarning config.now control.now moment) }
    ensures headers { IfOk result (λ message. All IsHeader message.headers) }
{
    let body = Text::new(control.group.allocator());
    notice(Topic::Warning, config, control, &body, moment)
}

/// To whom an entry's rows are returned, and of whom it is told: its sender, or, where that is
/// null, `DoubleBounceAddress`.
pub fn receiver<'a>(config: &'a Config, control: &'a Control) -> &'a Text
    ensures { result.now ≡ spec.receiver_of config.now control.now }
{
    if is_null(control) {
        return &config.options.double_bounce_address;
    }
    &control.sender
}

fn is_null(control: &Control) -> bool
    ensures { result ≡ bytes_eq control.now.sender null_sender }
{
    control.sender.bytes() == b"<>".as_slice()
}

fn notice(
    topic: Topic,
    config: &Config,
    control: &Control,
    body: &Text,
    moment: u64,
) -> Result<Message, NoMemory>
    ensures message { IfOk result (spec.IsNotice topic config.now control.now body.now moment) }
    ensures headers { IfOk result (λ message. All IsHeader message.headers) }
{
    let alloc = control.group.allocator();
    let now = date(alloc, moment, Form::Mail)?;
    let created = date(alloc, control.created, Form::Mail)?;
    let body = body_of(topic, control, body, &created)?;
    let headers = headers(alloc, topic, config, control, &now)?;
    let message = message(topic, control, headers, body)?;
    Ok(message)
}

fn message(
    topic: Topic,
    control: &Control,
    headers: Seq<Text>,
    body: Text,
) -> Result<Message, NoMemory>
    ensures { IfOk result (λ message. message ≡ spec.message_of topic control.now headers body) }
{
    let alloc = control.group.allocator();
    let size = size_of(&headers, &body)?;
    let sender = Text::of(alloc, b"<>")?;
    Ok(Message {
        sender,
        rows: Seq::new(alloc),
        headers,
        body,
        size,
        class: 0,
        eight: control.eight,
        marks: marks(topic, control),
        kept: Kept {
            protocol: Text::new(alloc),
            helo: Text::new(alloc),
            client: Text::new(alloc),
        },
    })
}

fn marks(topic: Topic, control: &Control) -> Marks
    ensures { result ≡ record { bounce = true; double = spec.is_double topic control.now; warned = false } }
{
    let double = match topic {
        Topic::Bounce => is_null(control),
        Topic::Warning => false,
    };
    Marks {
        bounce: true,
        double,
        warned: false,
    }
}

// The bytes of the message's text.
fn size_of(headers: &Seq<Text>, body: &Text) -> Result<u64, NoMemory>
    ensures { IfOk result (λ size. size ≡ length (spec.text_of headers.now body.now)) }
{
    let mut front = Text::new(body.allocator());
    push_headers(&mut front, headers.items())?;
    push_line(&mut front, b"")?;
    Ok(front.bytes().len() as u64 + body.bytes().len() as u64)
}

fn headers(
    alloc: Global,
    topic: Topic,
    config: &Config,
    control: &Control,
    date: &Text,
) -> Result<Seq<Text>, NoMemory>
    ensures { IfOk result (λ headers. headers ≡ spec.headers_of topic
        (expansion.host_name config.now.macros) (spec.receiver_of config.now control.now) date.now) }
{
    let from = author(alloc, config)?;
    let mut headers = Seq::new(alloc);
    headers.push(titled(alloc, b"Date", date.bytes())?)?;
    headers.push(titled(alloc, b"From", from.bytes())?)?;
    headers.push(titled(alloc, b"To", receiver(config, control).bytes())?)?;
    headers.push(titled(alloc, b"Subject", subject(topic))?)?;
    headers.push(titled(alloc, b"Auto-Submitted", b"auto-generated")?)?;
    Ok(headers)
}

// Who writes it: the name and address in its header From.
fn author(alloc: Global, config: &Config) -> Result<Text, NoMemory>
    ensures { IfOk result (λ text. text ≡ codes "Mail Delivery Subsystem <MAILER-DAEMON@"
        ++ (expansion.host_name config.now.macros ++ codes ">")) }
{
    let mut text = Text::of(alloc, b"Mail Delivery Subsystem <MAILER-DAEMON@")?;
    text.extend(host_name(alloc, &config.macros)?.bytes())?;
    text.extend(b">")?;
    Ok(text)
}

fn titled(alloc: Global, name: &[u8], value: &[u8]) -> Result<Text, NoMemory>
    ensures { IfOk result (λ header. header ≡ spec.titled name.now value.now) }
{
    let mut header = Text::new(alloc);
    push_blanked(&mut header, name)?;
    push_blanked(&mut header, b": ")?;
    push_blanked(&mut header, value)?;
    Ok(header)
}

fn push_blanked(text: &mut Text, bytes: &[u8]) -> Result<(), NoMemory>
    ensures { OnOk result (text.new ≡ text.old ++ map blanked bytes.now) }
{
    for byte in bytes {
        text.push(blanked(*byte))?;
    }
    Ok(())
}

fn subject(topic: Topic) -> &'static [u8]
    ensures { result.now ≡ spec.subject topic }
{
    match topic {
        Topic::Bounce => b"Returned mail: see transcript for details",
        Topic::Warning => b"Warning: message still undelivered",
    }
}

fn heading(topic: Topic) -> &'static [u8]
    ensures { result.now ≡ spec.heading topic }
{
    match topic {
        Topic::Bounce => b"   ----- Addresses with fatal errors -----",
        Topic::Warning => b"   ----- Addresses still tried -----",
    }
}

fn is_whole(topic: Topic, class: i64) -> bool
    ensures { result ≡ spec.is_whole topic class }
{
    match topic {
        Topic::Bounce => class >= 0,
        Topic::Warning => false,
    }
}

fn original(whole: bool) -> &'static [u8]
    ensures { result.now ≡ spec.original whole }
{
    if whole {
        return b"   ----- Original message -----";
    }
    b"   ----- Original headers -----"
}

fn body_of(topic: Topic, control: &Control, body: &Text, created: &Text) -> Result<Text, NoMemory>
    ensures { IfOk result (λ text. text ≡ spec.body_of topic control.now body.now created.now) }
{
    let mut front = front_of(topic, control, created)?;
    if !is_whole(topic, control.class) {
        return Ok(front);
    }
    push_line(&mut front, b"")?;
    joined(&front, body)
}

fn front_of(topic: Topic, control: &Control, created: &Text) -> Result<Text, NoMemory>
    ensures { IfOk result (λ text. text ≡ spec.front_of topic control.now created.now) }
{
    let mut text = Text::new(control.group.allocator());
    push_received(&mut text, created)?;
    push_told(&mut text, topic, control.rows.items())?;
    push_original(&mut text, topic, control)?;
    Ok(text)
}

fn push_received(text: &mut Text, created: &Text) -> Result<(), NoMemory>
    ensures { OnOk result (text.new ≡ text.old ++ spec.received_lines created.now) }
{
    text.extend(received_words())?;
    push_line(text, created.bytes())?;
    push_line(text, b"")
}

#[tactic(auto, unfolding(crate::specs::Returned::received_words))]
fn received_words() -> &'static [u8]
    ensures { result.now ≡ spec.received_words }
{
    b"The message was received at "
}

fn push_told(text: &mut Text, topic: Topic, rows: &[Row]) -> Result<(), NoMemory>
    ensures { OnOk result (text.new ≡ text.old ++ spec.told_lines topic rows.now) }
{
    push_line(text, heading(topic))?;
    push_rows(text, topic, rows)?;
    push_line(text, b"")
}

fn push_original(text: &mut Text, topic: Topic, control: &Control) -> Result<(), NoMemory>
    ensures { OnOk result (text.new ≡ text.old ++ spec.original_lines topic control.now) }
{
    push_line(text, original(is_whole(topic, control.class)))?;
    push_line(text, b"")?;
    push_headers(text, control.headers.items())
}

fn push_headers(text: &mut Text, headers: &[Text]) -> Result<(), NoMemory>
    ensures { OnOk result (text.new ≡ text.old ++ flat_map spec.header_lines headers.now) }
{
    for header in headers {
        push_header(text, header.bytes())?;
    }
    Ok(())
}

// Each line of a header ends in CR LF, whatever ended it before.
fn push_header(text: &mut Text, header: &[u8]) -> Result<(), NoMemory>
    ensures { OnOk result (text.new ≡ text.old ++ spec.header_lines header.now) }
{
    let mut rest = header;
    'lines: while !rest.is_empty() {
        let (line, behind) = split_line(rest);
        push_line(text, line)?;
        rest = behind;
    }
    Ok(())
}

// One text behind another, in as much memory as the two take.
fn joined(front: &Text, back: &Text) -> Result<Text, NoMemory>
    ensures { IfOk result (λ text. text ≡ front.now ++ back.now) }
{
    let (alloc, front, back) = (front.allocator(), front.bytes(), back.bytes());
    let mut bytes = Vec::with_capacity(alloc, front.len() + back.len())?;
    bytes.extend_from_slice(front)?;
    bytes.extend_from_slice(back)?;
    Ok(Text::from_vec(bytes))
}
