//! Texts at the front of the bytes.

ghost use Rattle.std.specs.Prelude.{◌≡◌, ◌≤◌, length, IfOk, IfErr};
ghost use Rattle.ev_op.specs.declared.fault.ReadError.TheVariants.{Refused};
ghost use Rattle.ev_op.specs.Gives.{Gives};
ghost use Rattle.def_op.specs.Reading.{text_at};

use crate::fault::ReadError;
use crate::numbers::unsigned_of;
use std::str;

/// A text of at most so many bytes, with its count before it, and the bytes behind it.
#[tactic(auto, using(crate::proofs::Texts::not_utf8, crate::proofs::Texts::is_text), unfolding(def_op::specs::Reading::text_at))]
pub fn text_of(room: usize, bytes: &[u8]) -> Result<(&str, &[u8]), ReadError>
    ensures exact { Gives (λ x. (x.0.now, x.1.now)) result (text_at room bytes.now) }
    ensures within { IfOk result (λ x. length x.0.now ≤ room) }
    ensures refused { IfErr result (λ e. e ≡ Refused) }
{
    let (count, rest) = unsigned_of(bytes)?;
    let count = count as usize;
    if rest.len() < count || room < count {
        return Err(ReadError::Refused);
    }
    let (text, rest) = rest.split_at(count);
    match str::from_utf8(text) {
        Ok(text) => Ok((text, rest)),
        Err(_) => Err(ReadError::Refused),
    }
}
