//! What the input of `mint` says.

ghost use Rattle.std.specs.Prelude.{◌≡◌, IfOk, map, option_map};
ghost use Rattle.ev_text.specs.Lines.{number};
ghost use Rattle.ev_script.specs.Json.{each};
ghost use Rattle.ev_script.specs.Script.{Reads};
ghost use Rattle.ev_mint.specs.Orders.{alone, deposit_of, issue_of, most_number, order_of, orders, orders_by, read, seal_of, told, unseal_of};

use ev_base::{Memory, Seq};
use ev_script::ScriptFault;
use ev_text::{integer, lines, number, split, text_of};
use std::alloc::Global;

/// The greatest number of what was made.
const MOST_NUMBER: u64 = 4294967295;

/// The greatest amount.
const MOST_AMOUNT: u64 = 1_000_000_000_000_000_000;

/// What a line asks for. Brands, boxes, mints and purses go by the numbers in which they were made, from 0.
#[derive(Clone, Copy, PartialEq, Eq)]
pub enum Order {
    Brand,
    /// An integer is sealed with a brand.
    Seal(u64, i128),
    /// A brand opens a box.
    Unseal(u64, u64),
    Mint,
    /// A mint issues an amount into a new purse.
    Issue(u64, u64),
    /// An empty purse is made of the mint of another.
    Sprout(u64),
    /// Into the first purse, from the second, an amount.
    Deposit(u64, u64, u64),
    Balance(u64),
}

/// What a line of one word asks for.
fn alone(word: &str) -> Option<Order>
    ensures { result ≡ alone word.now }
{
    match word {
        "brand" => Some(Order::Brand),
        "mint" => Some(Order::Mint),
        _ => None,
    }
}

fn seal_of(rest: &str) -> Option<Order>
    ensures { result ≡ seal_of rest.now }
{
    let (first, second) = split(rest)?;
    let brand = number(first, MOST_NUMBER)?;
    let content = integer(second)?;
    Some(Order::Seal(brand, content))
}

fn unseal_of(rest: &str) -> Option<Order>
    ensures { result ≡ unseal_of rest.now }
{
    let (first, second) = split(rest)?;
    let brand = number(first, MOST_NUMBER)?;
    let sealed = number(second, MOST_NUMBER)?;
    Some(Order::Unseal(brand, sealed))
}

fn issue_of(rest: &str) -> Option<Order>
    ensures { result ≡ issue_of rest.now }
{
    let (first, second) = split(rest)?;
    let mint = number(first, MOST_NUMBER)?;
    let amount = number(second, MOST_AMOUNT)?;
    Some(Order::Issue(mint, amount))
}

fn sprout_of(rest: &str) -> Option<Order>
    ensures { result ≡ option_map Order.Sprout (number most_number rest.now) }
{
    Some(Order::Sprout(number(rest, MOST_NUMBER)?))
}

fn deposit_of(rest: &str) -> Option<Order>
    ensures { result ≡ deposit_of rest.now }
{
    let (first, more) = split(rest)?;
    let (second, third) = split(more)?;
    let into = number(first, MOST_NUMBER)?;
    let from = number(second, MOST_NUMBER)?;
    let amount = number(third, MOST_AMOUNT)?;
    Some(Order::Deposit(into, from, amount))
}

fn balance_of(rest: &str) -> Option<Order>
    ensures { result ≡ option_map Order.Balance (number most_number rest.now) }
{
    Some(Order::Balance(number(rest, MOST_NUMBER)?))
}

/// What a word and the text behind it ask for.
fn told(word: &str, rest: &str) -> Option<Order>
    ensures { result ≡ told word.now rest.now }
{
    match word {
        "seal" => seal_of(rest),
        "unseal" => unseal_of(rest),
        "issue" => issue_of(rest),
        "sprout" => sprout_of(rest),
        "deposit" => deposit_of(rest),
        "balance" => balance_of(rest),
        _ => None,
    }
}

/// What a line asks for, where it is an order.
fn order_of(text: &str) -> Option<Order>
    ensures { result ≡ order_of text.now }
{
    match split(text) {
        None => alone(text),
        Some((word, rest)) => told(word, rest),
    }
}

/// What the lines ask for, where each is an order.
fn each_order(alloc: Global, texts: &[&str]) -> Result<Option<Seq<Order>>, Memory>
    ensures { IfOk result (λ found. found ≡ each order_of (map (λ text. text.now) texts.now)) }
{
    let mut found = Seq::new(alloc);
    for text in texts {
        let Some(order) = order_of(text) else {
            return Ok(None);
        };
        found.push(order)?;
    }
    Ok(Some(found))
}

/// What the lines of a text ask for, where each ends with a line feed and is an order.
fn orders(alloc: Global, text: &str) -> Result<Option<Seq<Order>>, Memory>
    ensures { IfOk result (λ found. found ≡ orders text.now) }
{
    let Some(texts) = lines(alloc, text)? else {
        return Ok(None);
    };
    each_order(alloc, texts.as_slice())
}

/// The orders of a text.
fn orders_in(alloc: Global, text: &str) -> Result<Seq<Order>, ScriptFault>
    ensures { Reads result (orders_by (orders text.now)) }
{
    match orders(alloc, text)? {
        None => Err(ScriptFault::Rule(32)),
        Some(found) => Ok(found),
    }
}

/// The orders that bytes are, or the first rule that they break: 31 where they are not UTF-8, and 32 where a line is no order
/// or the last one does not end.
pub fn read_orders(alloc: Global, bytes: &[u8]) -> Result<Seq<Order>, ScriptFault>
    ensures { Reads result (read bytes.now) }
{
    match text_of(bytes) {
        None => Err(ScriptFault::Rule(31)),
        Some(text) => orders_in(alloc, text),
    }
}
