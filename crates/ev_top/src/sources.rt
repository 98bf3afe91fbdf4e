//! Reading the sources of the vats of a script.

ghost use Rattle.std.specs.Prelude.{◌≡◌, ◌<◌, ◌≤◌, IfOk, [], length, string_bytes};
ghost use Rattle.ev_script.specs.Rules.{IsAdmitted};
ghost use Rattle.ev_top.specs.Programs.{AreRead, IsDueOfFault, IsRead};
ghost use Rattle.ev_top.specs.Unread.{IfRefused, IsDueHoweverRun};

use crate::given::names_for;
use crate::reply::reply_fault;
use ev_io::Reply;
use ev_reader::{ProgramFault, Scoped, read_program};
use ev_script::{Script, VatScript};
use std::alloc::Global;

/// Why the sources of a script were not all read.
#[derive(Drop)]
pub enum Unread {
    /// One was refused, which is the answer to the script.
    Refused(Reply),
    Memory,
}

/// The program of one of these vats, or why its source is refused.
fn read_source(alloc: Global, vats: &[VatScript], vat: &VatScript) -> Result<Scoped, ProgramFault>
    ensures { IsRead vats.now vat.now result }
{
    let given = names_for(alloc, vats, vat)?;
    read_program(alloc, vat.source.as_str(), &given)
}

/// The refusal of the source of the vat at that place, by the fault to which it is read.
fn refuse(alloc: Global, place: usize, vat: &VatScript, fault: ProgramFault) -> Unread
    requires { place < 16 }
    ensures { IfRefused result (λ reply. IsDueOfFault place vat.now.name fault reply.status (string_bytes reply.text)) }
{
    match reply_fault(alloc, place as u8, vat.name.as_str(), fault) {
        Ok(reply) => Unread::Refused(reply),
        Err(_) => Unread::Memory,
    }
}

/// The programs of the vats of a script, or the refusal of the first that is refused.
pub fn read_sources(alloc: Global, script: &Script) -> Result<Vec<Scoped>, Unread>
    requires { IsAdmitted script.now }
    ensures read { IfOk result (λ programs. AreRead script.now.vats script.now.vats programs.items) }
    ensures refused { IsDueHoweverRun result script.now }
{
    let vats = script.vats.as_slice();
    let mut programs = Vec::new(alloc);
    for vat in vats {
        match read_source(alloc, vats, vat) {
            Ok(scoped) => {
                if programs.push(scoped).is_err() {
                    return Err(Unread::Memory);
                }
            }
            Err(fault) => return Err(refuse(alloc, programs.len(), vat, fault)),
        }
    }
    Ok(programs)
}
