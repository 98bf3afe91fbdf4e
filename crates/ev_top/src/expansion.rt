//! What is due for the bytes of a program that is to be expanded.

ghost use Rattle.std.specs.Prelude.{◌≡◌, IfOk, Ok, Err, string_bytes};
ghost use Rattle.std.specs.Result.{result_map_both};
ghost use Rattle.ev_top.specs.Expansion.{IsDueOfForm, IsDueOfText, text_from};

use crate::given::safe_names;
use crate::reply::reply_fault;
use ev_base::Memory;
use ev_io::{Reply, Status, reply_line, reply_rule};
use ev_kernel_printer::print;
use ev_reader::{Scoped, read_program};
use std::alloc::Global;
use std::str;

/// The most bytes of a program.
const MOST_PROGRAM_BYTES: usize = 65536;

/// The name of a program that is of no vat.
const NAMELESS: &str = "-";

/// The text that bytes are, or the number of the rule that they break.
#[tactic(auto, using(ev_text::proofs::LineTexts::not_utf8, ev_text::proofs::LineTexts::is_text))]
fn text_from(bytes: &[u8]) -> Result<&str, u8>
    ensures { result_map_both (λ text. text.now) (λ rule. rule) result ≡ text_from bytes.now }
{
    let Ok(text) = str::from_utf8(bytes) else {
        return Err(1);
    };
    if text.len() > MOST_PROGRAM_BYTES {
        return Err(7);
    }
    Ok(text)
}

/// The form of a program.
fn reply_form(alloc: Global, scoped: &Scoped) -> Result<Reply, Memory>
    ensures { IfOk result (λ reply. IsDueOfForm (Ok scoped.now) reply.status (string_bytes reply.text)) }
{
    let form = print(alloc, scoped.tree())?;
    reply_line(alloc, Status::Done, form.as_str())
}

/// The form of the program of a text, or its refusal.
fn reply_text(alloc: Global, text: &str) -> Result<Reply, Memory>
    ensures { IfOk result (λ reply. IsDueOfText (Ok text.now) reply.status (string_bytes reply.text)) }
{
    let given = safe_names(alloc)?;
    match read_program(alloc, text, &given) {
        Ok(scoped) => reply_form(alloc, &scoped),
        Err(fault) => reply_fault(alloc, 0, NAMELESS, fault),
    }
}

/// The form of the program that bytes spell, or the refusal of bytes that spell none.
pub fn expand_bytes(alloc: Global, bytes: &[u8]) -> Result<Reply, Memory>
    ensures { IfOk result (λ reply. IsDueOfText (text_from bytes.now) reply.status (string_bytes reply.text)) }
{
    match text_from(bytes) {
        Ok(text) => reply_text(alloc, text),
        Err(rule) => reply_rule(alloc, rule),
    }
}
