//! The summary of a history: how many of its lines tell of sends, of messages that were taken, lost or left, and how many steps there were.
#![tactic(auto)]

ghost use Rattle.std.specs.Prelude.{◌≡◌, IfOk, string_bytes};
ghost use Rattle.std.specs.List.{count_by};
ghost use Rattle.ev_summary.specs.Summary.{is_left, is_lost, is_sent, is_taken, summary};

use def_event::Event;
use ev_base::Memory;
use std::alloc::Global;

/// Whether an event tells of a message that goes out: a send, one without an answer, or a reaction that is to come.
#[tactic(auto, unfolding(crate::specs::Summary::is_sent))]
fn is_sent(event: &Event) -> bool
    ensures { result ≡ is_sent event.now }
{
    matches!(event, Event::Send(_) | Event::SendOnly(_) | Event::When(_))
}

/// Whether it tells of a message that a turn takes.
#[tactic(auto, unfolding(crate::specs::Summary::is_taken))]
fn is_taken(event: &Event) -> bool
    ensures { result ≡ is_taken event.now }
{
    matches!(event, Event::Take(_))
}

/// Whether it tells of a message that is lost, on a link that is cut or at a broken reference.
#[tactic(auto, unfolding(crate::specs::Summary::is_lost))]
fn is_lost(event: &Event) -> bool
    ensures { result ≡ is_lost event.now }
{
    matches!(event, Event::LostCut(_) | Event::LostBroken(_))
}

/// Whether it tells of what is left at the end: in a queue, held for a promise, as a reaction that waits, or on a link.
#[tactic(auto, unfolding(crate::specs::Summary::is_left))]
fn is_left(event: &Event) -> bool
    ensures { result ≡ is_left event.now }
{
    matches!(
        event,
        Event::LeftQueue(_, _)
            | Event::LeftHeld(_, _, _)
            | Event::LeftWait(_, _, _)
            | Event::LeftLink(_, _, _)
    )
}

/// How many events tell of a message that goes out.
fn sent_in(events: &[Event]) -> usize
    ensures { result ≡ count_by is_sent events.now }
{
    events.iter().filter(|event| is_sent(event)).count()
}

/// How many tell of one that is taken.
fn taken_in(events: &[Event]) -> usize
    ensures { result ≡ count_by is_taken events.now }
{
    events.iter().filter(|event| is_taken(event)).count()
}

/// How many tell of one that is lost.
fn lost_in(events: &[Event]) -> usize
    ensures { result ≡ count_by is_lost events.now }
{
    events.iter().filter(|event| is_lost(event)).count()
}

/// How many tell of what is left.
fn left_in(events: &[Event]) -> usize
    ensures { result ≡ count_by is_left events.now }
{
    events.iter().filter(|event| is_left(event)).count()
}

/// The five lines of the summary of a history of so many steps: `sent A`, `taken B`, `lost C`, `left D` and `steps E`, each with its line
/// feed. It refuses for want of memory alone.
pub fn summarize(alloc: Global, events: &[Event], steps: u64) -> Result<String, Memory>
    ensures { IfOk result (λ text. string_bytes text ≡ summary events.now steps) }
{
    let sent = sent_in(events);
    let taken = taken_in(events);
    let lost = lost_in(events);
    let left = left_in(events);
    Ok(format!(in alloc; "sent {sent}\ntaken {taken}\nlost {lost}\nleft {left}\nsteps {steps}\n")?)
}
