//! The answer to a line.

ghost use Rattle.std.specs.Prelude.{◌≡◌, ◌+◌, ◌++◌, IfOk, OnOk, decimal, string_bytes};
ghost use Rattle.ev_intro.specs.Word.{Drawn};
ghost use Rattle.ev_sturdy.specs.Kept.{owner, used};
ghost use Rattle.ev_sturdy.specs.Answers.{Answers, Does, Gives, IfSays, answer_text, connected, cutting, draws_of, noticed, outcome, registered, shown, side_text, swiss_digits, used_answer};

use crate::sheet::Line;
use crate::{Side, Sturdy, SturdyFault, Used};
use ev_base::Memory;
use ev_intro::{DrawFault, Words};
use std::alloc::Global;
use std::fmt::Write;

/// What is said of a line.
#[derive(Clone, Copy, PartialEq, Eq)]
pub enum Answer {
    /// The number under which an object was registered.
    Swiss(u128),
    /// Its digest is that of an object which was registered earlier.
    Taken(u32),
    /// The connection of this number was made.
    Connected(u64),
    /// That connection is not over for both sides.
    Open(u64),
    /// The connection was cut.
    Cut,
    /// There is no connection, or it is cut.
    Down,
    /// The side noticed the cut.
    Noticed(Side),
    /// There is no cut that the side has not noticed.
    Whole,
    /// A reference, by its connection and its place there.
    Reference(u64, u64),
    /// No object is registered under the number shown.
    Unknown,
    /// The object that was reached.
    Object(u32),
    /// The connection is cut, and the guest has not noticed it.
    Lost,
    /// The connection is over for the guest.
    Broken,
    /// There is no such reference.
    Nothing,
}

/// What comes of a line.
#[derive(Clone, Copy, PartialEq, Eq)]
pub enum Reply {
    Says(Answer),
    /// The second of these draws gave what the first gave.
    Repeats(u64, u64),
}

fn side_text(side: Side) -> &'static str
    ensures { result.now ≡ side_text side }
{
    match side {
        Side::Host => "host",
        Side::Guest => "guest",
    }
}

/// The 16 bytes of a number, the lowest first, each as two digits.
#[tactic(auto, unfolding(crate::specs::Answers::swiss_digits))]
fn swiss_digits(alloc: Global, swiss: u128) -> Result<String, Memory>
    ensures { IfOk result (λ digits. string_bytes digits ≡ swiss_digits swiss) }
{
    Ok(hex::encode(alloc, swiss.to_le_bytes())?)
}

/// Appends a word and a text behind it.
fn push_worded(out: &mut String, word: &str, rest: &str) -> Result<(), Memory>
    ensures { OnOk result (string_bytes out.new ≡ string_bytes out.old ++ (word.now ++ rest.now)) }
{
    out.push_str(word)?;
    out.push_str(rest)?;
    Ok(())
}

fn push_swiss(alloc: Global, out: &mut String, swiss: u128) -> Result<(), Memory>
    ensures { OnOk result (string_bytes out.new ≡ string_bytes out.old ++ answer_text (Answer.Swiss swiss)) }
{
    let digits = swiss_digits(alloc, swiss)?;
    push_worded(out, "swiss ", digits.as_str())
}

fn push_noticed(out: &mut String, side: Side) -> Result<(), Memory>
    ensures { OnOk result (string_bytes out.new ≡ string_bytes out.old ++ answer_text (Answer.Noticed side)) }
{
    push_worded(out, "noticed ", side_text(side))
}

/// Appends an answer that has a number.
fn push_numbered(out: &mut String, word: &str, number: u64) -> Result<(), Memory>
    ensures { OnOk result (string_bytes out.new ≡ string_bytes out.old ++ (word.now ++ decimal number)) }
{
    out.push_str(word)?;
    write!(out, "{number}")?;
    Ok(())
}

/// Appends an answer that has an object.
fn push_object(out: &mut String, word: &str, object: u32) -> Result<(), Memory>
    ensures { OnOk result (string_bytes out.new ≡ string_bytes out.old ++ (word.now ++ decimal object)) }
{
    push_numbered(out, word, u64::from(object))
}

fn push_reference(out: &mut String, number: u64, place: u64) -> Result<(), Memory>
    ensures { OnOk result (string_bytes out.new ≡ string_bytes out.old ++ answer_text (Answer.Reference number place)) }
{
    push_numbered(out, "ref ", number)?;
    push_numbered(out, " ", place)
}

/// Appends an answer that is one fixed text.
fn push_text(out: &mut String, text: &str) -> Result<(), Memory>
    ensures { OnOk result (string_bytes out.new ≡ string_bytes out.old ++ text.now) }
{
    out.push_str(text)?;
    Ok(())
}

/// Appends an answer.
pub(crate) fn push_answer(alloc: Global, out: &mut String, answer: Answer) -> Result<(), Memory>
    ensures { OnOk result (string_bytes out.new ≡ string_bytes out.old ++ answer_text answer) }
{
    match answer {
        Answer::Swiss(swiss) => push_swiss(alloc, out, swiss),
        Answer::Taken(object) => push_object(out, "refused taken ", object),
        Answer::Connected(number) => push_numbered(out, "connected ", number),
        Answer::Open(number) => push_numbered(out, "refused open ", number),
        Answer::Cut => push_text(out, "cut"),
        Answer::Down => push_text(out, "refused down"),
        Answer::Noticed(side) => push_noticed(out, side),
        Answer::Whole => push_text(out, "refused whole"),
        Answer::Reference(number, place) => push_reference(out, number, place),
        Answer::Unknown => push_text(out, "refused unknown"),
        Answer::Object(object) => push_object(out, "object ", object),
        Answer::Lost => push_text(out, "lost"),
        Answer::Broken => push_text(out, "broken"),
        Answer::Nothing => push_text(out, "refused nothing"),
    }
}

/// Registers an object under the number that was drawn for it.
fn registered(sturdy: &mut Sturdy, swiss: u128, object: u32) -> Result<Answer, Memory>
    ensures { IfOk result (λ said. Does (registered object swiss (owner swiss sturdy.old)) said sturdy.old sturdy.new) }
{
    match sturdy.register(swiss, object) {
        Ok(()) => Ok(Answer::Swiss(swiss)),
        Err(SturdyFault::Taken(earlier)) => Ok(Answer::Taken(earlier)),
        Err(_) => Err(Memory),
    }
}

/// Draws a number for an object, and registers it.
fn registering(sturdy: &mut Sturdy, words: &mut Words, object: u32) -> Result<Reply, Memory>
    ensures gives { IfOk result (λ reply. Gives (outcome words.old.key words.old.count (Line.Register object) sturdy.old) reply sturdy.old sturdy.new) }
    ensures draws { IfOk result (λ reply. IfSays reply (words.new ≡ record words.old { count = words.old.count + 1 })) }
{
    match words.draw() {
        Ok(swiss) => Ok(Reply::Says(registered(sturdy, swiss, object)?)),
        Err(DrawFault::WordRepeated(first, second)) => Ok(Reply::Repeats(first, second)),
        Err(DrawFault::Memory) => Err(Memory),
    }
}

fn connected(sturdy: &mut Sturdy) -> Result<Answer, Memory>
    ensures { IfOk result (λ said. Does (connected sturdy.old) said sturdy.old sturdy.new) }
{
    match sturdy.connect() {
        Ok(number) => Ok(Answer::Connected(number)),
        Err(SturdyFault::Open(number)) => Ok(Answer::Open(number)),
        Err(_) => Err(Memory),
    }
}

fn shown(sturdy: &mut Sturdy, swiss: u128) -> Result<Answer, Memory>
    ensures { IfOk result (λ said. Does (shown swiss sturdy.old) said sturdy.old sturdy.new) }
{
    match sturdy.show(swiss) {
        Ok((number, place)) => Ok(Answer::Reference(number, place)),
        Err(SturdyFault::Down) => Ok(Answer::Down),
        Err(SturdyFault::Unknown) => Ok(Answer::Unknown),
        Err(_) => Err(Memory),
    }
}

fn used_answer(used: Used) -> Answer
    ensures { result ≡ used_answer used }
{
    match used {
        Used::Object(object) => Answer::Object(object),
        Used::Lost => Answer::Lost,
        Used::Broken => Answer::Broken,
        Used::Nothing => Answer::Nothing,
    }
}

fn cutting(sturdy: &mut Sturdy) -> Answer
    ensures { Does (cutting sturdy.old) result sturdy.old sturdy.new }
{
    if sturdy.cut() {
        Answer::Cut
    } else {
        Answer::Down
    }
}

fn noticed(sturdy: &mut Sturdy, side: Side) -> Answer
    ensures { Does (noticed side sturdy.old) result sturdy.old sturdy.new }
{
    if sturdy.notice(side) {
        Answer::Noticed(side)
    } else {
        Answer::Whole
    }
}

/// Does what a line asks for.
pub(crate) fn answered(sturdy: &mut Sturdy, words: &mut Words, line: Line) -> Result<Reply, Memory>
    ensures gives { IfOk result (λ reply. Gives (outcome words.old.key words.old.count line sturdy.old) reply sturdy.old sturdy.new) }
    ensures draws { IfOk result (λ reply. IfSays reply (words.new ≡ record words.old { count = words.old.count + draws_of line })) }
{
    match line {
        Line::Register(object) => registering(sturdy, words, object),
        Line::Connect => Ok(Reply::Says(connected(sturdy)?)),
        Line::Show(swiss) => Ok(Reply::Says(shown(sturdy, swiss)?)),
        Line::Use(generation, place) => {
            Ok(Reply::Says(used_answer(sturdy.follow(generation, place))))
        }
        Line::Cut => Ok(Reply::Says(cutting(sturdy))),
        Line::Notice(side) => Ok(Reply::Says(noticed(sturdy, side))),
    }
}
