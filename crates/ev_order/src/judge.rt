//! Whether messages were taken before those that were sent before them.

ghost use Rattle.std.specs.Prelude.{◌≡◌, ◌+◌, ◌-◌, ◌<◌, IfOk, Some, length, slice_get};
ghost use Rattle.ev_base.specs.declared.names.Msg.{Msg};
ghost use Rattle.ev_order.specs.declared.mentions.Mention.{Mention};
ghost use Rattle.def_event.specs.Order.{JudgesOrder};
ghost use Rattle.ev_order.specs.Graph.{IsGraph};
ghost use Rattle.ev_order.specs.Over.{AreSingle};
ghost use Rattle.ev_order.specs.Walk.{HoldsSent, HoldsTaken};
ghost use Rattle.ev_order.specs.Judge.{AreRanks, AreWaiting, FitLabels, FitPlaces, IsFirstBefore, IsFirstEarly, IsRanked, IsTakenSeed, IsUntaken, IsWaiting, Overtakes, TakesEarly, TellsTaken, HasRanks, HasWaiting, IsEarliest, IsFound, late, seed_of};

use crate::graph::graph_of;
use crate::mentions::{Mention, Mentions};
use crate::spread::{Place, first_labels};
use crate::walk::is_object;
use def_event::{Event, Trace};
use ev_base::{Memory, Msg};
use std::alloc::Global;

/// The place that comes next behind that on which a message was sent.
fn seed_of(places: &[Place], sent: Mention) -> Option<usize>
    requires { sent.first + sent.args < length places.now }
    ensures { result ≡ seed_of places.now sent }
{
    places[sent.first + sent.args].next
}

/// The seed of a message that was sent, by its number, where none takes it.
fn untaken_seed(places: &[Place], sent: &Mentions, taken: &Mentions, number: usize) -> Option<usize>
    requires { FitPlaces places.now sent.now }
    ensures { (m : Msg) (s : Mention) → slice_get sent.now number ≡ Some (m, s) → IsUntaken places.now taken.now m s result }
{
    let Some((message, mention)) = sent.get(number) else {
        return None;
    };
    match taken.find(message) {
        None => seed_of(places, mention),
        Some(_) => None,
    }
}

/// The seed of a message that was taken, by its number, where it was sent.
fn taken_seed(places: &[Place], sent: &Mentions, taken: &Mentions, number: usize) -> Option<usize>
    requires { FitPlaces places.now sent.now }
    ensures { (m : Msg) (t : Mention) → slice_get taken.now number ≡ Some (m, t) → IsTakenSeed places.now sent.now m result }
{
    let Some((message, _)) = taken.get(number) else {
        return None;
    };
    let Some(mention) = sent.find(message) else {
        return None;
    };
    seed_of(places, mention)
}

/// Seeds for all messages: those that none takes, and then those that are taken, the last one first.
fn ranked(
    alloc: Global,
    places: &[Place],
    sent: &Mentions,
    taken: &Mentions,
) -> Result<Vec<Option<usize>>, Memory>
    requires { FitPlaces places.now sent.now }
    ensures { IfOk result (λ seeds. IsRanked places.now sent.now taken.now seeds.items (length sent.now) (length taken.now)) }
{
    let mut seeds = Vec::new(alloc);
    for number in 0..sent.len() {
        seeds.push(untaken_seed(places, sent, taken, number))?;
    }
    for back in 0..taken.len() {
        seeds.push(taken_seed(places, sent, taken, taken.len() - 1 - back))?;
    }
    Ok(seeds)
}

/// Whether the message of a rank is taken by no line before that one.
fn is_late(sent: &Mentions, taken: &Mentions, rank: usize, line: usize) -> bool
    requires { rank < length sent.now + length taken.now }
    ensures { result ≡ late (length sent.now) rank line (slice_get taken.now (length taken.now - 1 - (rank - length sent.now))) }
{
    if rank < sent.len() {
        return true;
    }
    match taken.get(taken.len() - 1 - (rank - sent.len())) {
        Some((_, mention)) => line <= mention.line,
        None => false,
    }
}

/// Whether a message that a line takes is behind one that no line takes before.
fn overtakes(
    labels: &[Option<usize>],
    sent: &Mentions,
    taken: &Mentions,
    message: Msg,
    line: usize,
) -> bool
    requires fit { FitLabels labels.now sent.now }
    requires ranks { AreRanks labels.now (length sent.now + length taken.now) }
    ensures { Overtakes labels.now sent.now taken.now message line result }
{
    let Some(mention) = sent.find(message) else {
        return false;
    };
    match labels[mention.first + mention.args] {
        Some(rank) => is_late(sent, taken, rank, line),
        None => false,
    }
}

/// The message that an event hands to an object too early, where it does so.
fn taken_early(
    labels: &[Option<usize>],
    sent: &Mentions,
    taken: &Mentions,
    event: &Event,
    line: usize,
) -> Option<Msg>
    requires fit { FitLabels labels.now sent.now }
    requires ranks { AreRanks labels.now (length sent.now + length taken.now) }
    requires single { AreSingle sent.now }
    ensures { TakesEarly labels.now sent.now taken.now event.now line result }
{
    let Event::Take(take) = event else {
        return None;
    };
    let take = take.get();
    if !is_object(&take.target) {
        return None;
    }
    if overtakes(labels, sent, taken, take.message, line) {
        return Some(take.message);
    }
    None
}

/// The first line that hands a message to an object too early, and that message.
fn first_early(
    labels: &[Option<usize>],
    sent: &Mentions,
    taken: &Mentions,
    events: &[Event],
) -> Option<(usize, Msg)>
    requires fit { FitLabels labels.now sent.now }
    requires ranks { AreRanks labels.now (length sent.now + length taken.now) }
    requires single { AreSingle sent.now }
    ensures { IsFirstEarly labels.now sent.now taken.now events.now result }
{
    for line in 0..events.len() {
        if let Some(message) = taken_early(labels, sent, taken, &events[line], line) {
            return Some((line, message));
        }
    }
    None
}

/// Whether a line before that one takes a message.
fn is_taken(taken: &Mentions, message: Msg, line: usize) -> bool
    ensures { TellsTaken taken.now message line result }
{
    match taken.find(message) {
        Some(take) => take.line < line,
        None => false,
    }
}

/// The seed of a message that was sent, by its number, where no line takes it before that one.
fn waiting_seed(
    places: &[Place],
    sent: &Mentions,
    taken: &Mentions,
    line: usize,
    number: usize,
) -> Option<usize>
    requires { FitPlaces places.now sent.now }
    ensures { (m : Msg) (s : Mention) → slice_get sent.now number ≡ Some (m, s) → IsWaiting places.now taken.now line m s result }
{
    let Some((message, mention)) = sent.get(number) else {
        return None;
    };
    if is_taken(taken, message, line) {
        return None;
    }
    seed_of(places, mention)
}

/// Seeds for the messages that no line takes before that one, in the order of sending.
fn waiting(
    alloc: Global,
    places: &[Place],
    sent: &Mentions,
    taken: &Mentions,
    line: usize,
) -> Result<Vec<Option<usize>>, Memory>
    requires { FitPlaces places.now sent.now }
    ensures { IfOk result (λ seeds. AreWaiting places.now sent.now taken.now line seeds.items (length sent.now)) }
{
    let mut seeds = Vec::new(alloc);
    for number in 0..sent.len() {
        seeds.push(waiting_seed(places, sent, taken, line, number))?;
    }
    Ok(seeds)
}

/// The message that was sent first of those that are before another.
fn first_before(labels: &[Option<usize>], sent: &Mentions, later: Msg) -> Option<Msg>
    requires { FitLabels labels.now sent.now }
    ensures { IsFirstBefore labels.now sent.now later result }
{
    let Some(mention) = sent.find(later) else {
        return None;
    };
    let Some(number) = labels[mention.first + mention.args] else {
        return None;
    };
    let Some((message, _)) = sent.get(number) else {
        return None;
    };
    Some(message)
}

/// The number of the first seed by rank that leads to each place.
fn ranked_labels(
    alloc: Global,
    places: &[Place],
    sent: &Mentions,
    taken: &Mentions,
) -> Result<Vec<Option<usize>>, Memory>
    requires { FitPlaces places.now sent.now }
    ensures { IfOk result (λ labels. HasRanks places.now sent.now taken.now labels.items) }
{
    let seeds = ranked(alloc, places, sent, taken)?;
    let labels = first_labels(alloc, places, &seeds)?;
    Ok(labels)
}

/// The number of the first message that waits at a line and leads to each place.
fn waiting_labels(
    alloc: Global,
    places: &[Place],
    sent: &Mentions,
    taken: &Mentions,
    line: usize,
) -> Result<Vec<Option<usize>>, Memory>
    requires { FitPlaces places.now sent.now }
    ensures { IfOk result (λ labels. HasWaiting places.now sent.now taken.now line labels.items) }
{
    let seeds = waiting(alloc, places, sent, taken, line)?;
    let labels = first_labels(alloc, places, &seeds)?;
    Ok(labels)
}

/// The message that was sent first of those that are before another and wait at a line.
fn earlier(
    alloc: Global,
    places: &[Place],
    sent: &Mentions,
    taken: &Mentions,
    line: usize,
    later: &Msg,
) -> Result<Option<Msg>, Memory>
    requires { FitPlaces places.now sent.now }
    ensures { IfOk result (λ found. IsFound places.now sent.now taken.now line later.now found) }
{
    let labels = waiting_labels(alloc, places, sent, taken, line)?;
    Ok(first_before(&labels, sent, *later))
}

/// The first line that hands a message to an object too early, and that message.
fn earliest(
    alloc: Global,
    places: &[Place],
    sent: &Mentions,
    taken: &Mentions,
    events: &[Event],
) -> Result<Option<(usize, Msg)>, Memory>
    requires fit { FitPlaces places.now sent.now }
    requires single { AreSingle sent.now }
    ensures { IfOk result (λ early. IsEarliest places.now sent.now taken.now events.now early) }
{
    let labels = ranked_labels(alloc, places, sent, taken)?;
    Ok(first_early(&labels, sent, taken, events))
}

/// Whether a trace is ordered, by its places.
fn judge_places(
    alloc: Global,
    places: &[Place],
    sent: &Mentions,
    taken: &Mentions,
    events: &[Event],
) -> Result<Option<(Msg, Msg)>, Memory>
    requires graph { IsGraph events.now places.now }
    requires sent { HoldsSent events.now sent.now }
    requires taken { HoldsTaken events.now taken.now }
    ensures { IfOk result (λ answer. JudgesOrder events.now answer) }
{
    let Some((line, later)) = earliest(alloc, places, sent, taken, events)? else {
        return Ok(None);
    };
    match earlier(alloc, places, sent, taken, line, &later)? {
        Some(message) => Ok(Some((message, later))),
        None => Ok(None),
    }
}

/// Whether each message that an object takes is taken after all that are before it. None says that it is so. Else the first
/// line that takes a message too early gives the answer: of those that are before the message and were not taken the one
/// that was sent first, and the message. Time grows with the trace.
pub fn judge_order(alloc: Global, trace: &Trace) -> Result<Option<(Msg, Msg)>, Memory>
    ensures { IfOk result (λ answer. JudgesOrder trace.now.history answer) }
{
    let events = trace.history.as_slice();
    let graph = graph_of(alloc, events)?;
    judge_places(alloc, &graph.places, &graph.sent, &graph.taken, events)
}
