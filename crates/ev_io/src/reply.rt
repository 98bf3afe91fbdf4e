//! What a call is to answer and to write.

ghost use Rattle.std.specs.Prelude.{◌≡◌, IfOk, string_bytes};
ghost use Rattle.ev_io.specs.Debt.{IsFor, bytes_refused};
ghost use Rattle.ev_io.specs.Words.{line};

use crate::status::Status;
use ev_base::Memory;
use std::alloc::Global;

/// The most bytes that are read.
pub const MOST_BYTES: u32 = 1048576;

/// What is to be answered and written.
#[derive(Drop)]
pub struct Reply {
    pub status: Status,
    pub text: String,
}

/// Why there is no reply.
#[derive(Clone, Copy)]
pub enum Early {
    ReadFault,
    Memory,
}

impl From<Memory> for Early {
    ghost use Rattle.std.specs.Prelude.{◌≡◌};
    ghost use Rattle.ev_io.specs.declared.reply.Early.TheVariants.{Memory as NoMemory};

    ghost from_gives = { λ _ e. e ≡ NoMemory };

    fn from(_error: Memory) -> Early {
        Early::Memory
    }
}

/// A reply of one line.
pub fn reply_line(alloc: Global, status: Status, text: &str) -> Result<Reply, Memory>
    ensures { IfOk result (λ reply. IsFor reply.status (string_bytes reply.text) (record { status = status; text = line text.now })) }
{
    Ok(Reply {
        status,
        text: format!(in alloc; "{text}\n")?,
    })
}

/// The refusal of bytes that break a rule.
pub fn reply_rule(alloc: Global, rule: u8) -> Result<Reply, Memory>
    ensures { IfOk result (λ reply. IsFor reply.status (string_bytes reply.text) (bytes_refused rule)) }
{
    Ok(Reply {
        status: Status::ScriptRefused(rule),
        text: format!(in alloc; "refused script {rule}\n")?,
    })
}
