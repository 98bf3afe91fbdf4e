//! The text of orders.

ghost use Rattle.std.specs.Prelude.{◌≡◌, ◌++◌, [], IfOk, OnOk, string_bytes};
ghost use Rattle.ev_mint.specs.Money.{no_money};
ghost use Rattle.ev_mint.specs.Seals.{none_made};
ghost use Rattle.ev_mint.specs.Answers.{answer_text, empty_books};
ghost use Rattle.ev_mint.specs.Telling.{Tells, due, last_line, telling, written_line};

use crate::answers::{Answer, answered, push_answer};
use crate::orders::{Order, read_orders};
use crate::{Mints, Seals};
use ev_base::Memory;
use ev_script::ScriptFault;
use std::alloc::Global;

/// Appends the line of an answer.
fn push_line(out: &mut String, said: Answer) -> Result<(), Memory>
    ensures { OnOk result (string_bytes out.new ≡ string_bytes out.old ++ written_line (answer_text said)) }
{
    push_answer(out, said)?;
    out.push_str("\n")?;
    Ok(())
}

/// Appends the last line.
fn push_end(out: &mut String) -> Result<(), Memory>
    ensures { OnOk result (string_bytes out.new ≡ string_bytes out.old ++ last_line) }
{
    out.push_str("end\n")?;
    Ok(())
}

/// Appends what is told of orders.
fn push_orders(
    out: &mut String,
    seals: &mut Seals,
    mints: &mut Mints,
    orders: &[Order],
) -> Result<(), Memory>
    requires empty { string_bytes out.old ≡ [] }
    requires made { seals.old ≡ none_made }
    requires money { mints.old ≡ no_money }
    ensures { OnOk result (string_bytes out.new ≡ telling empty_books orders.now) }
{
    for order in orders {
        let said = answered(seals, mints, *order)?;
        push_line(out, said)?;
    }
    push_end(out)?;
    Ok(())
}

/// What is told of orders.
fn tell_orders(alloc: Global, orders: &[Order]) -> Result<String, Memory>
    ensures { IfOk result (λ text. string_bytes text ≡ telling empty_books orders.now) }
{
    let mut text = String::new(alloc);
    let mut seals = Seals::new(alloc);
    let mut mints = Mints::new(alloc);
    push_orders(&mut text, &mut seals, &mut mints, orders)?;
    Ok(text)
}

/// The text of the orders that bytes are, or the first rule that the bytes break. An order that is refused changes nothing.
pub fn tell(alloc: Global, bytes: &[u8]) -> Result<String, ScriptFault>
    ensures { Tells result (due bytes.now) }
{
    let orders = read_orders(alloc, bytes)?;
    Ok(tell_orders(alloc, orders.as_slice())?)
}
