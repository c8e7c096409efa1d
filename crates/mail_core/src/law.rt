ghost use Rattle.std.specs.Prelude.{◌≡◌, ◌++◌, ◌∷◌, Bool, false, true, ◌⊎◌, ◌+◌, ◌-◌, ◌^◌, ◌<◌, ◌≤◌, [], Contains, List, None, Some, ℕ, ℤ, Option, length, map, slice_get};
ghost use Rattle.mail_base.specs.declared.outcome.Result1.TheVariants.{Sent};
ghost use Rattle.link_edge.specs.declared.event.Event.TheVariants.{Opens};
ghost use Rattle.mailer_pipe.specs.Ends.{ended_with};
ghost use Rattle.smtp_receive.specs.Replies.{too_many_sessions_text};
ghost use Rattle.spawn_edge.specs.declared.event.Poll.TheVariants.{Over};
ghost use Rattle.spawn_edge.specs.declared.event.Start.{Start};
ghost use Rattle.spool_store.specs.Entries.{Stored, Table};
ghost use Rattle.queue_table.specs.Asked.{AreLow, AreStoppable};
ghost use Rattle.queue_table.specs.Soundness.{IsSound};
ghost use Rattle.spool_store.specs.Stores.{entered};
ghost use Rattle.queue_table.specs.Calls.{HoldsTable, store};
ghost use Rattle.queue_table.specs.Claims.{IsLeastDue};
ghost use Rattle.queue_table.specs.declared.table.Table.{Table as Kept};
ghost use Rattle.queue_table.specs.declared.waiting.Waiting.{Waiting};
ghost use Rattle.mail_core.specs.Counting.{IsCounted};
ghost use Rattle.mail_core.specs.Holding.{waiting_of};
ghost use Rattle.queue_table.specs.Commands.{Command, changed_by};
ghost use Rattle.queue_run.specs.Deeds.{Asks, Launch, Polls, Starts, Talk, Talks};
ghost use Rattle.mail_core.specs.Acks.{AreAcked, StaysSound};
ghost use Rattle.mail_core.specs.Answering.{IsAnswer};
ghost use Rattle.mail_core.specs.Apart.{AreApart};
ghost use Rattle.mail_core.specs.Attempts.{IsDelivery, IsEndRecorded, IsStart, IsTryOfRow, WereSent};
ghost use Rattle.mail_core.specs.Effects.{Does, Effect, HangsUp, Sends, Takes, Ticks, commanded, table_after};
ghost use Rattle.mail_core.specs.Judges.{untold};
ghost use Rattle.mail_core.specs.Meant.{IsRunMeant};
ghost use Rattle.mail_core.specs.Keeping.{IsHolding};
ghost use Rattle.mail_core.specs.Lasting.{IsSentAt, Lasts};
ghost use Rattle.mail_core.specs.Guests.{Guest, guest_of, is_here};
ghost use Rattle.mail_core.specs.Machine.{AreOpen, Choice, Opening, Replied, Turn, all_answered, at_moment, most_guests, run, turned};
ghost use Rattle.mail_core.specs.Plans.{OfFloor, Once, comes_from};
ghost use Rattle.mail_core.specs.Sites.{Site};
ghost use Rattle.mail_core.specs.States.{By, Finished, Seat, State, followed};
ghost use Rattle.mail_core.specs.Tried.{WasTried};
ghost use Rattle.mail_core.specs.Told.{AreOfOthers, Converses, IsInTurn, NeverOpens, Welcomes, brought_of, opening_of, replies_of, said_to};

use queue_table::rows_go_on;

/// Each turn is answered before the next one: a run of some turns and then of others is the run of
/// the first, and then from there that of the others; what is done at a turn begins with what is
/// seen of it, and no other turn is taken in it.
pub fn each_turn_is_answered_before_the_next()
    ensures follows { (site : Site) (m : State) (some more : List Turn)
        → run site m (some ++ more)
        ≡ followed (run site m some) (run site (run site m some).state more) }
    ensures alone { (site : Site) (m : State) (turn : Turn)
        → ((turned site m turn).effects ≡ []) ⊎ IsAnswer turn (turned site m turn).effects }
{}

/// No turn raises a revision by more than one, so in a run of fewer turns than what is left up to
/// the last revision, a stop in any command leaves the table before or after it.
pub fn revisions_stay_low()
    ensures low { (site : Site) (m : State) (turns : List Turn) (most : ℕ) → 1 ≤ most
        → AreLow most m.table → AreLow (most + length turns) (run site m turns).state.table }
    ensures stops { (site : Site) (m : State) (turns : List Turn) (most : ℕ) → 1 ≤ most
        → AreLow most m.table → most + length turns < 2 ^ 64 - 1
        → AreStoppable commanded m.table (run site m turns).effects }
{}

/// No entry is held twice, and no more entries of a group are held at once than it has runners,
/// whatever the turns and the choices of a run are.
pub fn holders_are_apart()
    ensures goes_on { (site : Site) (m : State) (turns : List Turn) → AreApart site m.seats
        → AreApart site (run site m turns).state.seats }
    ensures begins { (site : Site) → AreApart site [] }
{}

/// The table that a run comes to is the one that its commands make of the first.
pub fn the_table_is_that_of_the_commands()
    ensures { (site : Site) (m : State) (turns : List Turn)
        → (run site m turns).state.table ≡ table_after m.table (run site m turns).effects }
{}

/// A final 250 is said only where its message is in the table: whatever the turns and the choices
/// of a run are, where these say what a judge may say and what the configuration does, each one
/// names the first entry of the message that was put in last, all of whose entries are in the table
/// as it is then.
pub fn acknowledged_messages_are_in_the_table()
    ensures { (site : Site) (m : State) (turns : List Turn)
        → IsRunMeant untold site m turns → AreAcked [] m.table (run site m turns).effects }
{}

/// From a sound table, each front of what is done in a run gives a sound table, where the judge
/// says what one may, and what is made of messages and by runners is what the configuration says.
/// So the files that a stop leaves at any moment of it stand for a sound table.
pub fn tables_stay_sound()
    ensures { (site : Site) (m : State) (turns : List Turn) → m.seats ≡ []
        → IsRunMeant untold site m turns → IsSound m.table
        → StaysSound m.table (run site m turns).effects }
{}

/// Each program is started for rows that are still tried, of an entry that was claimed: they go by
/// one mailer and to one host, where the rules led them at the claim, and the program gets the
/// letter that is made for them.
pub fn every_start_is_meant()
    ensures { (site : Site) (m : State) (turns : List Turn) → m.seats ≡ []
        → IsRunMeant untold site m turns → IsSound m.table
        → (done : List Effect) (id : ℕ) (places : List ℕ) (start : Start) (launch : Launch)
        (later : List Effect)
        → (run site m turns).effects ≡ done ++ Does (Starts id places start launch) ∷ later
        → IsStart site m.table done id places start }
{}

/// The same of each delivery to peers, and what came of it is recorded at once.
pub fn every_delivery_is_meant()
    ensures { (site : Site) (m : State) (turns : List Turn) → m.seats ≡ []
        → IsRunMeant untold site m turns → IsSound m.table
        → (done : List Effect) (id : ℕ) (places : List ℕ) (talk : Talk) (later : List Effect)
        → (run site m turns).effects ≡ done ++ Does (Talks id places talk) ∷ later
        → IsDelivery site m.table done id places talk later }
{}

/// An end that is read is that of a child which was started, and is recorded at once.
pub fn every_end_is_recorded()
    ensures { (site : Site) (m : State) (turns : List Turn) → m.seats ≡ []
        → IsRunMeant untold site m turns → IsSound m.table
        → (done : List Effect) (id child : ℕ) (status : ℤ) (later : List Effect)
        → (run site m turns).effects ≡ done ++ Does (Polls id child (Over status)) ∷ later
        → IsEndRecorded site done id child status later }
{}

/// In a run no entry or row is taken out, and each row goes only where it may.
pub fn rows_only_go_on()
    ensures { (site : Site) (m : State) (turns : List Turn) → m.seats ≡ []
        → IsRunMeant untold site m turns → IsSound m.table
        → (s : Stored) → Contains m.table.entries s
        → Lasts (run site m turns).state.table s }
{
    // A law of queue_table: no command takes a row out, or takes it back.
    rows_go_on();
}

/// Where a success is read, the rows for which the child was started are sent in the table that the
/// run comes to, and so is each row that a peer took.
pub fn every_success_is_sent()
    ensures programs { (site : Site) (m : State) (turns : List Turn) → m.seats ≡ []
        → IsRunMeant untold site m turns → IsSound m.table
        → (done : List Effect) (id child : ℕ) (status : ℤ) (later : List Effect)
        → (run site m turns).effects ≡ done ++ Does (Polls id child (Over status)) ∷ later
        → ended_with status ≡ Sent → WereSent (run site m turns).state.table done id child }
    ensures peers { (site : Site) (m : State) (turns : List Turn) → m.seats ≡ []
        → IsRunMeant untold site m turns → IsSound m.table
        → (done : List Effect) (id : ℕ) (places : List ℕ) (talk : Talk) (later : List Effect)
        (at place : ℕ) → (run site m turns).effects ≡ done ++ Does (Talks id places talk) ∷ later
        → slice_get places at ≡ Some place → slice_get talk.results at ≡ Some Sent
        → IsSentAt (run site m turns).state.table id place }
{
    // A law of queue_table: no command takes a row out, or takes it back.
    rows_go_on();
}

/// A row that was sent is in no later attempt, by a program or by a peer.
pub fn no_delivered_row_is_tried_again()
    ensures { (site : Site) (m : State) (turns : List Turn) → m.seats ≡ []
        → IsRunMeant untold site m turns → IsSound m.table
        → (done between : List Effect) (effect : Effect) (later : List Effect) (id place : ℕ)
        → (run site m turns).effects ≡ done ++ (between ++ effect ∷ later)
        → IsSentAt (table_after m.table done) id place → IsTryOfRow effect id place → ⊥ }
{
    // A law of queue_table: no command takes a row out, or takes it back.
    rows_go_on();
}

/// What is said to a session for a piece are the replies of its dialogue to the lines that the
/// piece completes, with the ids that their messages got, whatever is left open. A line at which
/// the run ends is none of them.
pub fn what_is_said_are_the_replies()
    ensures { (site : Site) (moment : ℕ) (table : Table) (g : Guest) (choices : List Choice)
        → replies_of site (all_answered site moment table g choices).guest
        ≡ replies_of site g ++ said_to g.number (all_answered site moment table g choices).effects }
{}

/// The same of a whole run, of a session that is open as it begins and as it ends, and is not
/// opened in it, as no floor uses a number twice: from its greeting on it was sent the replies of
/// its dialogue, and nothing else.
pub fn sessions_are_sent_their_replies()
    ensures { (site : Site) (m : State) (turns : List Turn) (session : ℕ) (g now : Guest)
        → NeverOpens session turns
        → guest_of session m.guests ≡ Some g
        → guest_of session (run site m turns).state.guests ≡ Some now
        → replies_of site now ≡ replies_of site g ++ said_to session (run site m turns).effects }
{}

/// What a session that is open is sent in any turns that don't open it, wherever it ends: the
/// replies of its dialogue to the first of the lines that it sent, up to where it or the run ended,
/// or to all of them where it is still open.
pub fn open_sessions_are_sent_their_replies()
    ensures { (site : Site) (m : State) (turns : List Turn) (session : ℕ) (g : Guest)
        → NeverOpens session turns
        → guest_of session m.guests ≡ Some g → IsInTurn g
        → Converses site g (brought_of session (run site m turns).effects)
        (said_to session (run site m turns).effects)
        (guest_of session (run site m turns).state.guests) }
{}

/// What a session is sent from its opening on, in any turns that don't open it again: its greeting,
/// and then the same; or 421 alone, where another one was open; or nothing, where memory was
/// wanting or the run was over.
pub fn opened_sessions_are_sent_their_replies()
    ensures { (site : Site) (m : State) (peer : List ℕ) (reading : ℕ) (choice : Opening)
        (turns : List Turn) (session : ℕ)
        → guest_of session m.guests ≡ None → NeverOpens session turns
        → Welcomes site session peer
        (brought_of session (run site m (opening_of session peer reading choice ∷ turns)).effects)
        (said_to session (run site m (opening_of session peer reading choice ∷ turns)).effects)
        (guest_of session
        (run site m (opening_of session peer reading choice ∷ turns)).state.guests) }
{}

/// Where a session isn't open and isn't opened, nothing is sent to it.
pub fn sessions_that_are_not_open_are_sent_nothing()
    ensures { (site : Site) (m : State) (turns : List Turn) (session : ℕ) → NeverOpens session turns
        → guest_of session m.guests ≡ None
        → (guest_of session (run site m turns).state.guests ≡ None)
        × (said_to session (run site m turns).effects ≡ []) }
{}

/// What other sessions do changes nothing of a session, and says nothing to it, whatever is left
/// open. So what it is sent hangs on its own bytes, on what the judge says of its lines, and on the
/// ids of its messages.
pub fn other_sessions_change_nothing()
    ensures { (site : Site) (m : State) (turns : List Turn) (session : ℕ)
        → AreOfOthers session turns
        → (guest_of session (run site m turns).state.guests ≡ guest_of session m.guests)
        × (said_to session (run site m turns).effects ≡ []) }
{}

/// No more sessions are ever open than may be, and no two of them have one number.
pub fn sessions_stay_few()
    ensures { (site : Site) (m : State) (turns : List Turn)
        → AreOpen m.guests → AreOpen (run site m turns).state.guests }
{}

/// A session is sent what it would be sent alone. In two runs in which it was as now, and in which
/// the same lines of it were answered, with the same word of the judge, the same want of memory and
/// the same ids, it was sent the same: whatever other sessions did, and however its bytes were cut.
pub fn a_session_is_sent_what_it_would_be_sent_alone()
    ensures { (site : Site) (m alone : State) (turns own : List Turn) (session : ℕ)
        (g now other : Guest)
        → NeverOpens session turns → NeverOpens session own → IsInTurn g
        → guest_of session m.guests ≡ Some g → guest_of session alone.guests ≡ Some g
        → guest_of session (run site m turns).state.guests ≡ Some now
        → guest_of session (run site alone own).state.guests ≡ Some other
        → now.heard ≡ other.heard
        → said_to session (run site m turns).effects
        ≡ said_to session (run site alone own).effects }
{}

/// Where as many sessions are open as may be, one more is told 421 4.3.2 and hung up. Nothing else
/// is done, and nothing changes but the greatest reading of the clock.
pub fn one_session_more_is_turned_away()
    ensures { (site : Site) (m : State) (session : ℕ) (peer : List ℕ) (reading : ℕ) (whole : Bool)
        → m.over ≡ None
        → comes_from site.plan m.stopping (OfFloor reading) (Opens session peer) ≡ true
        → is_here session m.guests ≡ false → most_guests ≤ length m.guests
        → turned site m (opening_of session peer reading (Replied whole))
        ≡ record {
          state = at_moment m reading;
          effects = Takes (Opens session peer) ∷ Ticks reading
              ∷ Sends session too_many_sessions_text whole ∷ HangsUp session ∷ [];
        } }
{}

/// An entry is changed by the one who holds it alone: whatever command changes it, it was claimed
/// before, and since then it was neither claimed again nor let go. So what is recorded of rows is
/// recorded of the rows as they were at that claim, changed by that holder.
pub fn every_change_is_of_one_who_holds()
    ensures { (site : Site) (m : State) (turns : List Turn) → m.seats ≡ []
        → IsRunMeant untold site m turns → IsSound m.table
        → (done : List Effect) (command : Command) (later : List Effect) (id : ℕ)
        → (run site m turns).effects ≡ done ++ Does (Asks command) ∷ later
        → changed_by command ≡ Some id → IsHolding done id }
{}

/// A run over the queue that is finished has passed over no row of its list: each entry on it was
/// claimed and let go again, and in between it was recorded of each row that was still tried at the
/// claim what came of it, of an attempt or, where none could be made, without one. So a list ends
/// neither with an entry that nobody claimed nor with one that was given up half-way; where a
/// command fails, ids or memory are wanting, or a step doesn't fit, the run is over and not finished.
pub fn a_list_that_ends_was_tried()
    ensures { (site : Site) (m : State) (turns : List Turn) (group : Option (List ℕ)) (id : ℕ)
        → site.plan ≡ Once group → m.seats ≡ [] → m.over ≡ None
        → IsRunMeant untold site m turns → IsSound m.table
        → (run site m turns).state.over ≡ Some (By Finished) → Contains m.list id
        → WasTried site m.table (run site m turns).effects id }
{}

/// What a waiting list finds among the entries of a store is what the machine claims of the table
/// that it holds: the least of those that are due, or none.
pub fn what_waits_longest_is_claimed()
    ensures { (site : Site) (w : Waiting) (seats : List Seat) (kept : Kept) (table : Table)
        (moment : ℕ) (found : Option ℕ) → IsCounted site w seats → HoldsTable kept table
        → IsLeastDue w moment (store kept).entries found
        → IsLeastDue (waiting_of site seats) moment (map entered table.entries) found }
{}
