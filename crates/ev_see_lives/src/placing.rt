//! Lines with their steps.

ghost use Rattle.std.specs.Prelude.{◌≡◌, IfOk, map};
ghost use Rattle.def_see.specs.Lines.{placed};
ghost use Rattle.ev_trace_words.specs.Words.{words_of};

use def_see::Line;
use ev_base::{Memory, Seq, Str};
use ev_see_words::kinds::line_of;
use ev_trace_words::words::words_of;
use std::alloc::Global;

/// The lines of a history in words, each with its step.
pub fn place(alloc: Global, texts: &[&str]) -> Result<Seq<Line>, Memory>
    ensures { IfOk result (λ lines. lines ≡ placed (map (λ t. words_of t.now) texts.now)) }
{
    let mut lines = Seq::new(alloc);
    let mut label = Str::new(alloc);
    let mut at = Str::new(alloc);
    for text in texts {
        let words = words_of(alloc, text)?;
        let line = line_of(alloc, label.as_str(), at.as_str(), words)?;
        label = Str::copy_of(alloc, line.label.as_str())?;
        at = Str::copy_of(alloc, line.at.as_str())?;
        lines.push(line)?;
    }
    Ok(lines)
}
