//! What is due for the commands that answer lines, and for a script that is generated.

ghost use Rattle.std.specs.Prelude.{◌≡◌, IfOk, List, ℕ, Some, string_bytes};
ghost use Rattle.ev_generate.specs.Generated.{generated};
ghost use Rattle.ev_sturdy.specs.Telling as sturdy;
ghost use Rattle.ev_mint.specs.Telling as mint;
ghost use Rattle.ev_top.specs.Lines.{IsDueOfGenerated, IsDueOfMint, IsDueOfSturdy, status_of};

use ev_base::Memory;
use ev_generate::generate;
use ev_io::{Reply, Status, reply_rule};
use ev_script::ScriptFault;
use ev_sturdy::Told;
use std::alloc::Global;

/// The script that is generated for a number.
pub fn reply_generated(alloc: Global, number: u32) -> Result<Reply, Memory>
    ensures { IfOk result (λ reply. IsDueOfGenerated number reply.status (string_bytes reply.text)) }
{
    Ok(Reply {
        status: Status::Done,
        text: generate(alloc, number)?,
    })
}

/// The reply of what was told.
fn reply_told(told: Told) -> Reply
    ensures status { result.status ≡ status_of told.repeated }
    ensures text { string_bytes result.text ≡ string_bytes told.text }
{
    let Told { text, repeated } = told;
    let status = match repeated {
        None => Status::Done,
        Some((first, second)) => Status::WordRepeated(first, second),
    };
    Reply { status, text }
}

/// The answers to the lines of `sturdy`, or the refusal of bytes that are none.
pub fn sturdy_bytes(alloc: Global, bytes: &[u8]) -> Result<Reply, Memory>
    ensures { IfOk result (λ reply. IsDueOfSturdy (sturdy.due bytes.now) reply.status (string_bytes reply.text)) }
{
    match ev_sturdy::tell(alloc, bytes) {
        Ok(told) => Ok(reply_told(told)),
        Err(ScriptFault::Rule(rule)) => reply_rule(alloc, rule),
        Err(ScriptFault::Memory) => Err(Memory),
    }
}

/// The answers to the orders of `mint`, or the refusal of bytes that are none.
pub fn mint_bytes(alloc: Global, bytes: &[u8]) -> Result<Reply, Memory>
    ensures { IfOk result (λ reply. IsDueOfMint (mint.due bytes.now) reply.status (string_bytes reply.text)) }
{
    match ev_mint::tell(alloc, bytes) {
        Ok(text) => Ok(Reply {
            status: Status::Done,
            text,
        }),
        Err(ScriptFault::Rule(rule)) => reply_rule(alloc, rule),
        Err(ScriptFault::Memory) => Err(Memory),
    }
}
