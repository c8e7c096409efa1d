use crate::again::write_mark;
use link_edge::{Event, FloorEvent};
use mail_base::{NoMemory, Text};
use std::alloc::Global;

// What a floor told, a word for each event.
pub fn told(alloc: Global, events: &[FloorEvent]) -> Result<Text, NoMemory> {
    let mut text = Text::new(alloc);
    for event in events {
        write_event(&mut text, event)?;
    }
    Ok(text)
}

fn write_event(text: &mut Text, event: &FloorEvent) -> Result<(), NoMemory> {
    match event {
        FloorEvent::Took(event) => write_turn(text, event),
        FloorEvent::Sent(session, bytes) => write_mark(text, *session, b"<", bytes.bytes()),
        FloorEvent::Unsent(session) => write_mark(text, *session, b"!", b""),
        FloorEvent::HungUp(session) => write_mark(text, *session, b"x", b""),
    }
}

fn write_turn(text: &mut Text, event: &Event) -> Result<(), NoMemory> {
    match event {
        Event::Opens(session, peer) => write_mark(text, *session, b"+", peer.bytes()),
        Event::Brings(session, bytes) => write_mark(text, *session, b">", bytes.bytes()),
        Event::Closes(session) => write_mark(text, *session, b"-", b""),
        Event::Rests => text.extend(b"rest "),
        Event::Stops => text.extend(b"stop "),
    }
}
