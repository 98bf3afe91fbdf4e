//! What a call owes for a script.

ghost use Rattle.std.specs.Prelude.{◌≡◌, IfOk, string_bytes};
ghost use Rattle.ev_top.specs.Programs.{IsDueOfFault, stage_of};

use ev_base::Memory;
use ev_io::{Refusal, Reply, Stage, Status};
use ev_reader::{ProgramFault, Scoped};
use ev_script::Script;
use std::alloc::Global;

/// A script whose programs were read: those of its vats, in order.
#[derive(Drop)]
pub struct Prepared {
    pub script: Script,
    pub programs: Vec<Scoped>,
    /// Whether what is told has the frames.
    pub wire: bool,
}

/// What a call owes: a reply, or the run of a script, whose text is written as it happens.
#[derive(Drop)]
pub enum Owed {
    Reply(Reply),
    Run(Prepared),
}

/// The stage of a refusal.
fn stage_of(part: ev_reader::Stage) -> Stage
    ensures { result ≡ stage_of part }
{
    match part {
        ev_reader::Stage::Lex => Stage::Lex,
        ev_reader::Stage::Parse => Stage::Parse,
        ev_reader::Stage::Nested => Stage::Nested,
        ev_reader::Stage::Expand => Stage::Expand,
        ev_reader::Stage::Scope => Stage::Scope,
    }
}

/// The refusal of a program that goes by this name, by the fault to which it is read. It is the program of the vat of that number,
/// or of no vat, where the number is 0.
pub fn reply_fault(alloc: Global, vat: u8, name: &str, fault: ProgramFault) -> Result<Reply, Memory>
    ensures { IfOk result (λ reply. IsDueOfFault vat name.now fault reply.status (string_bytes reply.text)) }
{
    let ProgramFault::At(part, kind, place) = fault else {
        return Err(Memory);
    };
    let refusal = Refusal {
        vat,
        stage: stage_of(part),
        kind,
        place,
    };
    Ok(Reply {
        status: Status::ProgramRefused(refusal),
        text: format!(in alloc; "refused program {name} {fault}\n")?,
    })
}
