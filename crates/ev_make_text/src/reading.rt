//! Reading a text of vats.

ghost use Rattle.std.specs.Prelude.{◌≡◌, IfOk};
ghost use Rattle.def_vats.specs.Reading.{nothing_told, told, told_from};
ghost use Rattle.ev_make_text.specs.Reads.{Reads};

use crate::heads::with_head;
use crate::lines::{head_of, lines_of};
use def_vats::Told;
use ev_base::{Memory, Seq, Str};
use std::alloc::Global;

/// Why nothing is told by a text.
#[derive(Clone, Copy)]
pub enum TextFault {
    /// The line of this number, from 1, is the first head that says nothing.
    Line(usize),
    /// Want of memory.
    Memory,
}

impl From<Memory> for TextFault {
    ghost use Rattle.ev_make_text.specs.declared.reading.TextFault.{TextFault};

    ghost from_gives = { λ _ fault. fault ≡ TextFault.Memory };

    fn from(_memory: Memory) -> TextFault {
        TextFault::Memory
    }
}

/// The key that counts where none is told.
const NO_KEY: &str = "0000000000000000000000000000000000000000000000000000000000000000";

/// Nothing but a key of zeros.
fn nothing_told(alloc: Global) -> Result<Told, Memory>
    ensures { IfOk result (λ told. told ≡ nothing_told) }
{
    Ok(Told {
        key: Str::copy_of(alloc, NO_KEY)?,
        fuel: None,
        vats: Seq::new(alloc),
        schedule: Seq::new(alloc),
    })
}

/// What the lines say.
fn read_lines(alloc: Global, lines: &[Str]) -> Result<Told, TextFault>
    ensures { Reads result (told_from 1 nothing_told lines.now) }
{
    let mut told = nothing_told(alloc)?;
    for i in 0..lines.len() {
        if let Some(head) = head_of(lines[i].as_str()) {
            if !with_head(alloc, &mut told, head, &lines[i + 1..])? {
                return Err(TextFault::Line(i + 1));
            }
        }
    }
    Ok(told)
}

/// What a text of vats says. `Line` comes exactly where a line is a head that says nothing, and is the first such line.
/// `Memory` comes only for want of memory.
#[tactic(auto, unfolding(def_vats::specs::Reading::told))]
pub fn read_text(alloc: Global, text: &str) -> Result<Told, TextFault>
    ensures { Reads result (told text.now) }
{
    let lines = lines_of(alloc, text)?;
    read_lines(alloc, lines.as_slice())
}
