ghost use Rattle.std.specs.Prelude.{◌≡◌, ◌-◌, ◌^◌, ◌≤◌, length, min, sum_by};
ghost use Rattle.mail_base.specs.declared.control.Control.{Control};
ghost use Rattle.qf_format.specs.Room.{SameTexts, addresses, header_room, room_of, row_room};
ghost use Rattle.qf_format.specs.Spelling.{spelled};
ghost use Rattle.qf_format.specs.Valid.{IsValid};

use mail_base::{Control, Row, Text};

/// A length, in bytes, that no control text passes while the group, the sender, the macros, the
/// addresses and the headers stay, whatever becomes of the states, notes, numbers and flags. Where
/// that is more than a `u64` holds, it is `u64::MAX`, and no such text can be had. It takes no
/// memory.
#[tactic(auto, unfolding(crate::specs::Room::room_of))]
pub fn room(control: &Control) -> u64
    ensures exact { result ≡ min (room_of control.now) (2 ^ 64 - 1) }
    ensures alike { (other : Control) → SameTexts control.now other
        → room_of other ≡ room_of control.now }
    ensures most { (other : Control) → SameTexts control.now other → IsValid other
        → length (spelled other) ≤ room_of control.now }
{
    let texts = length_of(&control.group)
        .saturating_add(length_of(&control.sender))
        .saturating_add(length_of(&control.kept.protocol))
        .saturating_add(length_of(&control.kept.helo))
        .saturating_add(length_of(&control.kept.client));
    texts
        .saturating_add(rows_room(control.rows.items()))
        .saturating_add(headers_room(control.headers.items()))
        .saturating_add(233)
}

fn length_of(text: &Text) -> u64
    ensures { result ≡ length text.now }
{
    text.len() as u64
}

#[tactic(auto, unfolding(crate::specs::Room::row_room))]
fn rows_room(rows: &[Row]) -> u64
    ensures { result ≡ min (sum_by row_room (addresses rows.now)) (2 ^ 64 - 1) }
{
    let mut total: u64 = 0;
    for row in rows {
        total = total
            .saturating_add(length_of(&row.address))
            .saturating_add(532);
    }
    total
}

#[tactic(auto, unfolding(crate::specs::Room::header_room))]
fn headers_room(headers: &[Text]) -> u64
    ensures { result ≡ min (sum_by header_room headers.now) (2 ^ 64 - 1) }
{
    let mut total: u64 = 0;
    for header in headers {
        total = total.saturating_add(length_of(header)).saturating_add(2);
    }
    total
}
