//! The answer to an order.

ghost use Rattle.std.specs.Prelude.{◌≡◌, ◌++◌, IfOk, OnOk, decimal, string_bytes};
ghost use Rattle.std.specs.Fmt.{signed_decimal};
ghost use Rattle.ev_mint.specs.Answers.{Does, answer_text, balance, branding, content_of, depositing, issuing, minting, outcome, sealing, sprouting, unsealing};

use crate::orders::Order;
use crate::{MintFault, Mints, Seals};
use ev_base::{Memory, Value};
use std::fmt::Write;

/// What is said of an order.
#[derive(Clone, Copy, PartialEq, Eq)]
pub enum Answer {
    /// The number of a brand that was made.
    Brand(u64),
    /// The number of a box that was sealed.
    Sealed(u64),
    /// What the box holds.
    Content(i128),
    /// The box was sealed by another brand.
    OtherBrand,
    /// The number of a mint that was made.
    Mint(u64),
    /// The number of a purse that was made.
    Purse(u64),
    /// The mint, which issued so much, would issue too much.
    TooMuch(u64),
    /// The purses are of different mints.
    OtherMint,
    /// The purse has only so much.
    Short(u64),
    Done,
    Balance(u64),
    /// A number names nothing that was made.
    Unknown,
}

/// Appends an answer that has a number.
fn push_numbered(out: &mut String, word: &str, number: u64) -> Result<(), Memory>
    ensures { OnOk result (string_bytes out.new ≡ string_bytes out.old ++ (word.now ++ decimal number)) }
{
    out.push_str(word)?;
    write!(out, "{number}")?;
    Ok(())
}

/// Appends a number alone.
fn push_number(out: &mut String, number: u64) -> Result<(), Memory>
    ensures { OnOk result (string_bytes out.new ≡ string_bytes out.old ++ decimal number) }
{
    write!(out, "{number}")?;
    Ok(())
}

fn push_content(out: &mut String, content: i128) -> Result<(), Memory>
    ensures { OnOk result (string_bytes out.new ≡ string_bytes out.old ++ signed_decimal content) }
{
    write!(out, "{content}")?;
    Ok(())
}

/// Appends an answer that is one fixed text.
fn push_text(out: &mut String, text: &str) -> Result<(), Memory>
    ensures { OnOk result (string_bytes out.new ≡ string_bytes out.old ++ text.now) }
{
    out.push_str(text)?;
    Ok(())
}

/// Appends an answer.
pub(crate) fn push_answer(out: &mut String, answer: Answer) -> Result<(), Memory>
    ensures { OnOk result (string_bytes out.new ≡ string_bytes out.old ++ answer_text answer) }
{
    match answer {
        Answer::Brand(number) => push_numbered(out, "brand ", number),
        Answer::Sealed(number) => push_numbered(out, "box ", number),
        Answer::Content(content) => push_content(out, content),
        Answer::OtherBrand => push_text(out, "refused brand"),
        Answer::Mint(number) => push_numbered(out, "mint ", number),
        Answer::Purse(number) => push_numbered(out, "purse ", number),
        Answer::TooMuch(total) => push_numbered(out, "refused much ", total),
        Answer::OtherMint => push_text(out, "refused mint"),
        Answer::Short(had) => push_numbered(out, "refused short ", had),
        Answer::Done => push_text(out, "done"),
        Answer::Balance(balance) => push_number(out, balance),
        Answer::Unknown => push_text(out, "refused unknown"),
    }
}

/// Makes a brand. So many that they have no number are refused for want of memory.
fn branding(seals: &mut Seals) -> Result<Answer, Memory>
    ensures { IfOk result (λ said. Does (branding seals.old) said seals.new) }
{
    if seals.brands() < u64::MAX - 1 {
        Ok(Answer::Brand(seals.brand()))
    } else {
        Err(Memory)
    }
}

fn sealing(seals: &mut Seals, brand: u64, content: i128) -> Result<Answer, Memory>
    ensures { IfOk result (λ said. Does (sealing brand content seals.old) said seals.new) }
{
    if brand < seals.brands() {
        Ok(Answer::Sealed(seals.seal(brand, Value::Int(content))?))
    } else {
        Ok(Answer::Unknown)
    }
}

fn content_of(content: Option<Value>) -> Answer
    ensures { result ≡ content_of content }
{
    match content {
        None => Answer::OtherBrand,
        Some(Value::Int(content)) => Answer::Content(content),
        Some(_) => Answer::OtherBrand,
    }
}

fn unsealing(seals: &Seals, brand: u64, sealed: u64) -> Answer
    ensures { result ≡ unsealing brand sealed seals.now }
{
    if brand < seals.brands() && sealed < seals.boxes() {
        content_of(seals.unseal(brand, sealed))
    } else {
        Answer::Unknown
    }
}

fn minting(mints: &mut Mints) -> Result<Answer, Memory>
    ensures { IfOk result (λ said. Does (minting mints.old) said mints.new) }
{
    Ok(Answer::Mint(mints.mint()?))
}

fn issuing(mints: &mut Mints, mint: u64, amount: u64) -> Result<Answer, Memory>
    ensures { IfOk result (λ said. Does (issuing mint amount mints.old) said mints.new) }
{
    if mint >= mints.mints() {
        return Ok(Answer::Unknown);
    }
    match mints.issue(mint, amount) {
        Ok(number) => Ok(Answer::Purse(number)),
        Err(MintFault::TooMuch(total)) => Ok(Answer::TooMuch(total)),
        Err(_) => Err(Memory),
    }
}

fn sprouting(mints: &mut Mints, purse: u64) -> Result<Answer, Memory>
    ensures { IfOk result (λ said. Does (sprouting purse mints.old) said mints.new) }
{
    if purse < mints.purses() {
        Ok(Answer::Purse(mints.sprout(purse)?))
    } else {
        Ok(Answer::Unknown)
    }
}

fn depositing(mints: &mut Mints, into: u64, from: u64, amount: u64) -> Result<Answer, Memory>
    ensures { IfOk result (λ said. Does (depositing into from amount mints.old) said mints.new) }
{
    if into >= mints.purses() || from >= mints.purses() {
        return Ok(Answer::Unknown);
    }
    match mints.deposit(into, from, amount) {
        Ok(()) => Ok(Answer::Done),
        Err(MintFault::OtherMint) => Ok(Answer::OtherMint),
        Err(MintFault::Short(had)) => Ok(Answer::Short(had)),
        Err(_) => Err(Memory),
    }
}

fn balance(mints: &Mints, purse: u64) -> Answer
    ensures { result ≡ balance purse mints.now }
{
    if purse < mints.purses() {
        Answer::Balance(mints.balance(purse))
    } else {
        Answer::Unknown
    }
}

/// Does what an order asks for.
pub(crate) fn answered(seals: &mut Seals, mints: &mut Mints, order: Order) -> Result<Answer, Memory>
    ensures { IfOk result (λ said. Does (outcome order (record { made = seals.old; money = mints.old })) said (record { made = seals.new; money = mints.new })) }
{
    match order {
        Order::Brand => branding(seals),
        Order::Seal(brand, content) => sealing(seals, brand, content),
        Order::Unseal(brand, sealed) => Ok(unsealing(seals, brand, sealed)),
        Order::Mint => minting(mints),
        Order::Issue(mint, amount) => issuing(mints, mint, amount),
        Order::Sprout(purse) => sprouting(mints, purse),
        Order::Deposit(into, from, amount) => depositing(mints, into, from, amount),
        Order::Balance(purse) => Ok(balance(mints, purse)),
    }
}
