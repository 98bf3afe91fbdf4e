//! The spelling of an operation.

ghost use Rattle.std.specs.Prelude.{◌≡◌, ◌≤◌, ◌<◌, ◌^◌, [], ◌∷◌, ◌++◌, map, string_bytes, IfOk, OnOk};
ghost use Rattle.def_op.specs.Numbers.{bound, digits, unsigned, signed, swiss, low_first};
ghost use Rattle.def_op.specs.Frames.{ListOf, Deliver, DeliverOnly, Resolve, Accept, count, text_bytes, plain_bytes, desc_bytes, members_bytes, outcome_bytes, spelling};
ghost use Rattle.def_op.specs.Views.{described, all_described, outcome, operation};

use crate::numbers::digit;
use def_op::op::{Desc, Op, Plain, Resolved};
use ev_base::Memory;

/// The digits of a number to the base 128, the lowest first, in at most `places + 1` bytes.
#[tactic(auto, using(crate::proofs::Spelled::digits_more), unfolding(def_op::specs::Numbers::digits))]
fn put_digits(
    out: &mut Vec<u8>,
    last: u8,
    negative: bool,
    places: u32,
    number: u128,
) -> Result<(), Memory>
    requires last { last ≤ 128 }
    requires fits { number < bound places }
    ensures { OnOk result (out.new.items ≡ out.old.items ++ digits last negative places number) }
{
    if places == 0 || number < u128::from(last) {
        out.push(digit(negative, number as u8))?;
        return Ok(());
    }
    out.push(128 + digit(negative, (number % 128) as u8))?;
    put_digits(out, last, negative, places - 1, number / 128)?;
    Ok(())
}

fn put_unsigned(out: &mut Vec<u8>, number: u64) -> Result<(), Memory>
    ensures { OnOk result (out.new.items ≡ out.old.items ++ unsigned number) }
{
    put_digits(out, 128, false, 9, u128::from(number))
}

fn put_signed(out: &mut Vec<u8>, number: i128) -> Result<(), Memory>
    ensures { OnOk result (out.new.items ≡ out.old.items ++ signed number) }
{
    if number >= 0 {
        put_digits(out, 64, false, 18, number as u128)
    } else {
        put_digits(out, 64, true, 18, (-1 - number) as u128)
    }
}

/// So many bytes of a number, the lowest first.
#[tactic(auto, using(crate::proofs::Spelled::low_first_more), unfolding(def_op::specs::Numbers::low_first))]
fn put_low_first(out: &mut Vec<u8>, places: u32, number: u128) -> Result<(), Memory>
    ensures { OnOk result (out.new.items ≡ out.old.items ++ low_first places number) }
{
    if places == 0 {
        return Ok(());
    }
    out.push((number % 256) as u8)?;
    put_low_first(out, places - 1, number / 256)?;
    Ok(())
}

fn put_swiss(out: &mut Vec<u8>, number: u128) -> Result<(), Memory>
    ensures { OnOk result (out.new.items ≡ out.old.items ++ swiss number) }
{
    put_low_first(out, 16, number)
}

/// The count of the bytes of a text, and its bytes.
fn put_text(out: &mut Vec<u8>, text: &str) -> Result<(), Memory>
    ensures { OnOk result (out.new.items ≡ out.old.items ++ text_bytes text.now) }
{
    put_unsigned(out, text.len() as u64)?;
    out.extend_from_slice(text.as_bytes())?;
    Ok(())
}

/// A code alone.
fn put_code(out: &mut Vec<u8>, code: u8) -> Result<(), Memory>
    ensures { OnOk result (out.new.items ≡ out.old.items ++ code ∷ []) }
{
    out.push(code)?;
    Ok(())
}

/// A code, and a byte.
fn put_two(out: &mut Vec<u8>, code: u8, byte: u8) -> Result<(), Memory>
    ensures { OnOk result (out.new.items ≡ out.old.items ++ code ∷ byte ∷ []) }
{
    out.push(code)?;
    out.push(byte)?;
    Ok(())
}

/// A code, and a number.
fn put_counted(out: &mut Vec<u8>, code: u8, number: u64) -> Result<(), Memory>
    ensures { OnOk result (out.new.items ≡ out.old.items ++ code ∷ unsigned number) }
{
    out.push(code)?;
    put_unsigned(out, number)
}

/// A code, and a number with a sign.
fn put_coded_signed(out: &mut Vec<u8>, code: u8, number: i128) -> Result<(), Memory>
    ensures { OnOk result (out.new.items ≡ out.old.items ++ code ∷ signed number) }
{
    out.push(code)?;
    put_signed(out, number)
}

/// A code, and a text.
fn put_coded_text(out: &mut Vec<u8>, code: u8, text: &str) -> Result<(), Memory>
    ensures { OnOk result (out.new.items ≡ out.old.items ++ code ∷ text_bytes text.now) }
{
    out.push(code)?;
    put_text(out, text)
}

#[tactic(auto, unfolding(def_op::specs::Frames::plain_bytes))]
fn put_plain(out: &mut Vec<u8>, plain: &Plain) -> Result<(), Memory>
    ensures { OnOk result (out.new.items ≡ out.old.items ++ plain_bytes plain.now) }
{
    match plain {
        Plain::Null => put_code(out, 0),
        Plain::Bool(false) => put_code(out, 1),
        Plain::Bool(true) => put_code(out, 2),
        Plain::Int(integer) => put_coded_signed(out, 3, *integer),
        Plain::Char(character) => put_counted(out, 4, u64::from(u32::from(*character))),
        Plain::Text(text) => put_coded_text(out, 5, text.as_str()),
        Plain::Prim(primitive) => put_two(out, 7, primitive.0),
    }
}

/// An object of a third vat by its host and swiss number.
fn put_third(out: &mut Vec<u8>, host: u8, number: u128) -> Result<(), Memory>
    ensures { OnOk result (out.new.items ≡ out.old.items ++ 13 ∷ host ∷ swiss number) }
{
    put_two(out, 13, host)?;
    put_swiss(out, number)
}

#[cycle(writing)]
#[tactic(auto, unfolding(def_op::specs::Frames::desc_bytes))]
fn put_desc(out: &mut Vec<u8>, desc: &Desc) -> Result<(), Memory>
    ensures { OnOk result (out.new.items ≡ out.old.items ++ desc_bytes (described desc.now)) }
{
    match desc {
        Desc::Plain(plain) => put_plain(out, plain),
        Desc::ListOf(members) => put_list(out, members.as_slice()),
        Desc::Broken(problem) => put_coded_text(out, 8, problem.as_str()),
        Desc::YourExport(position) => put_counted(out, 9, *position),
        Desc::YourAnswer(question) => put_counted(out, 10, *question),
        Desc::MyExport(position) => put_counted(out, 11, *position),
        Desc::MyPromise(position) => put_counted(out, 12, *position),
        Desc::Third { host, swiss } => put_third(out, host.0, *swiss),
        Desc::MyAnswer(question) => put_counted(out, 14, *question),
    }
}

#[cycle(writing)]
#[tactic(auto, using(crate::proofs::InOrder::count_members), unfolding(def_op::specs::Frames::desc_bytes))]
fn put_list(out: &mut Vec<u8>, members: &[Desc]) -> Result<(), Memory>
    ensures { OnOk result (out.new.items ≡ out.old.items ++ desc_bytes (ListOf (all_described members.now))) }
{
    out.push(6)?;
    put_unsigned(out, members.len() as u64)?;
    put_members(out, members)?;
    Ok(())
}

/// Descriptions, one after the other.
#[cycle(writing)]
#[tactic(auto, using(crate::proofs::InOrder::one_more), unfolding(def_op::specs::Frames::desc_bytes))]
fn put_members(out: &mut Vec<u8>, members: &[Desc]) -> Result<(), Memory>
    ensures { OnOk result (out.new.items ≡ out.old.items ++ members_bytes (all_described members.now)) }
{
    for member in members {
        put_desc(out, member)?;
    }
    Ok(())
}

#[tactic(auto, unfolding(def_op::specs::Frames::outcome_bytes))]
fn put_outcome(out: &mut Vec<u8>, to: &Resolved) -> Result<(), Memory>
    ensures { OnOk result (out.new.items ≡ out.old.items ++ outcome_bytes (outcome to.now)) }
{
    match to {
        Resolved::To(desc) => put_desc(out, desc),
        Resolved::Elsewhere(host) => put_two(out, 15, host.0),
    }
}

/// An operation that is about something, under a swiss number.
fn put_under(out: &mut Vec<u8>, code: u8, target: &Desc, number: u128) -> Result<(), Memory>
    ensures { OnOk result (out.new.items ≡ out.old.items ++ code ∷ (desc_bytes (described target.now) ++ swiss number)) }
{
    out.push(code)?;
    put_desc(out, target)?;
    put_swiss(out, number)?;
    Ok(())
}

/// A message: its target, verb and arguments.
fn put_message(out: &mut Vec<u8>, target: &Desc, verb: &str, args: &[Desc]) -> Result<(), Memory>
    ensures { OnOk result (out.new.items ≡ out.old.items ++ (desc_bytes (described target.now) ++ (text_bytes verb.now ++ (unsigned (count (all_described args.now)) ++ members_bytes (all_described args.now))))) }
{
    put_desc(out, target)?;
    put_text(out, verb)?;
    put_unsigned(out, args.len() as u64)?;
    put_members(out, args)?;
    Ok(())
}

#[tactic(auto, unfolding(def_op::specs::Frames::spelling))]
fn put_deliver(
    out: &mut Vec<u8>,
    question: u64,
    target: &Desc,
    verb: &str,
    args: &[Desc],
) -> Result<(), Memory>
    ensures { OnOk result (out.new.items ≡ out.old.items ++ spelling (Deliver question (described target.now) verb.now (all_described args.now))) }
{
    out.push(1)?;
    put_unsigned(out, question)?;
    put_message(out, target, verb, args)
}

#[tactic(auto, unfolding(def_op::specs::Frames::spelling))]
fn put_deliver_only(
    out: &mut Vec<u8>,
    target: &Desc,
    verb: &str,
    args: &[Desc],
) -> Result<(), Memory>
    ensures { OnOk result (out.new.items ≡ out.old.items ++ spelling (DeliverOnly (described target.now) verb.now (all_described args.now))) }
{
    out.push(6)?;
    put_message(out, target, verb, args)
}

#[tactic(auto, unfolding(def_op::specs::Frames::spelling))]
fn put_resolve(out: &mut Vec<u8>, subject: &Desc, to: &Resolved) -> Result<(), Memory>
    ensures { OnOk result (out.new.items ≡ out.old.items ++ spelling (Resolve (described subject.now) (outcome to.now))) }
{
    out.push(2)?;
    put_desc(out, subject)?;
    put_outcome(out, to)?;
    Ok(())
}

#[tactic(auto, unfolding(def_op::specs::Frames::spelling))]
fn put_accept(out: &mut Vec<u8>, question: u64, provider: u8, number: u128) -> Result<(), Memory>
    ensures { OnOk result (out.new.items ≡ out.old.items ++ spelling (Accept question provider number)) }
{
    out.push(4)?;
    put_unsigned(out, question)?;
    out.push(provider)?;
    put_swiss(out, number)?;
    Ok(())
}

/// The spelling of an operation, at the end.
#[tactic(auto, unfolding(def_op::specs::Frames::spelling))]
pub(crate) fn put_op(out: &mut Vec<u8>, op: &Op) -> Result<(), Memory>
    ensures { OnOk result (out.new.items ≡ out.old.items ++ spelling (operation op.now)) }
{
    match op {
        Op::Deliver {
            question,
            target,
            verb,
            args,
        } => put_deliver(out, *question, target, verb.as_str(), args.as_slice()),
        Op::Resolve { subject, to } => put_resolve(out, subject, to),
        Op::Provide { target, swiss } => put_under(out, 3, target, *swiss),
        Op::Accept {
            question,
            provider,
            swiss,
        } => put_accept(out, *question, provider.0, *swiss),
        Op::Shorten { subject, swiss } => put_under(out, 5, subject, *swiss),
        Op::DeliverOnly { target, verb, args } => {
            put_deliver_only(out, target, verb.as_str(), args.as_slice())
        }
    }
}
