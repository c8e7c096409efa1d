ghost use Rattle.std.specs.Prelude.{◌≡◌, ◌<◌, ◌+◌, ◌-◌, ◌^◌, ◌++◌, ◌∷◌, List, ℕ, Bool, map, length};
ghost use Rattle.link_edge.specs.declared.dial_event.DialEvent.{DialEvent};
ghost use Rattle.link_edge.specs.declared.dial_event.DialEvent.TheVariants.{Wrote};
ghost use Rattle.link_edge.specs.declared.peer.Peer.{Peer};
ghost use Rattle.mail_base.specs.declared.outcome.Result1.{Result1 as Row};
ghost use Rattle.mailer_smtp.specs.declared.kit.Speech.{Speech};
ghost use Rattle.mailer_smtp.specs.declared.letter.Letter.{Letter};
ghost use Rattle.mailer_smtp.specs.Deliveries.{MaySay, answer_of};
ghost use Rattle.mailer_smtp.specs.Talks.{IsDelivery};

use smtp_lines::one_reply;

/// What the dialer answers determines what is written, and what becomes of each row. The number of
/// missed dials is one that can still be counted.
pub fn one_delivery()
    ensures { (speech : Speech) (letter : Letter) (peers : List Peer) (missed now after : ℕ)
        (events others : List DialEvent) (fault flaw : Bool) (rows ends : List Row)
        → missed + length peers < 2 ^ 64 - 1
        → IsDelivery speech letter peers missed events now fault rows
        → IsDelivery speech letter peers missed others after flaw ends
        → map answer_of events ≡ map answer_of others → (events ≡ others) × (rows ≡ ends) }
{
    // A law of smtp_lines: bytes begin with one reply at most.
    one_reply();
}

/// Whatever addresses a letter has, each text that is written is one line, a command with its end,
/// or the message; and each of its recipients has a row.
pub fn commands_are_lines()
    ensures lines { (speech : Speech) (letter : Letter) (peers : List Peer) (missed now : ℕ)
        (events front back : List DialEvent) (fault : Bool) (rows : List Row) (line : ℕ)
        (text : List ℕ) → IsDelivery speech letter peers missed events now fault rows
        → events ≡ front ++ Wrote line text ∷ back → MaySay letter text }
    ensures rows { (speech : Speech) (letter : Letter) (peers : List Peer) (missed now : ℕ)
        (events : List DialEvent) (fault : Bool) (rows : List Row)
        → IsDelivery speech letter peers missed events now fault rows
        → length rows ≡ length letter.users }
{}
