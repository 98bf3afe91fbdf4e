//! The start of a run.

ghost use Rattle.std.specs.Prelude.{◌≡◌, [], IfOk, length, map};
ghost use Rattle.def_run.specs.Numbers.{begins};
ghost use Rattle.def_run.specs.Text.{vat_names};
ghost use Rattle.def_run.specs.World.{knowers, name_at};
ghost use Rattle.ev_reader.specs.declared.accepted.Scoped.{Scoped as Tree};
ghost use Rattle.ev_script.specs.Rules.{IsAdmitted};
ghost use Rattle.ev_script.specs.declared.script.VatScript.{VatScript as Vat};
ghost use Rattle.ev_step_text.specs.Accounts.{IsAccount};
ghost use Rattle.ev_world.specs.Running.{script_of};
ghost use Rattle.ev_world.specs.Standing.{AreReady, IsWorld};
ghost use Rattle.ev_world.specs.Starting.{AreStarted, bare};

use crate::world::World;
use ev_base::{Limits, Memory, Seq, VatId, Word};
use ev_intro::Words;
use ev_reader::Scoped;
use ev_resident::Resident;
use ev_room::Program;
use ev_script::{Script, VatScript};
use ev_step_text::Account;
use ev_ways::Ways;
use std::alloc::Global;

/// The vat at that place of a script.
pub(crate) fn vat_at(place: usize) -> Result<VatId, Memory>
    ensures { IfOk result (λ vat. vat ≡ place) }
{
    match u8::try_from(place) {
        Ok(number) => Ok(VatId(number)),
        Err(_) => Err(Memory),
    }
}

/// The vats that know that one, in order.
fn knowers_of(alloc: Global, vats: &[VatScript], vat: VatId) -> Result<Vec<VatId>, Memory>
    ensures { IfOk result (λ found. found.items ≡ knowers vat 0 (bare vats.now)) }
{
    let mut found = Vec::new(alloc);
    for (place, other) in vats.iter().enumerate() {
        if other.knows.as_slice().contains(&vat) {
            found.push(vat_at(place)?)?;
        }
    }
    Ok(found)
}

/// The nouns for vats that one knows, in order: their names.
fn nouns_of(alloc: Global, vats: &[VatScript], knows: &[VatId]) -> Result<Seq<Word>, Memory>
    ensures { IfOk result (λ nouns. nouns ≡ map (name_at (bare vats.now)) knows.now) }
{
    let mut nouns = Seq::new(alloc);
    for known in knows {
        let Some(vat) = vats.get(known.0 as usize) else {
            return Err(Memory);
        };
        nouns.push(Word::copy_of(alloc, vat.name.as_str())?)?;
    }
    Ok(nouns)
}

/// The nouns of each vat.
fn all_nouns(alloc: Global, vats: &[VatScript]) -> Result<Vec<Seq<Word>>, Memory>
    ensures { IfOk result (λ nouns. nouns.items ≡ map (λ (vat : Vat). map (name_at (bare vats.now)) vat.knows) vats.now) }
{
    let mut nouns = Vec::new(alloc);
    for vat in vats {
        nouns.push(nouns_of(alloc, vats, vat.knows.as_slice())?)?;
    }
    Ok(nouns)
}

/// The vats of a script of so many, each at its start.
fn residents_of(alloc: Global, script: &Script, count: u8) -> Result<Vec<Resident>, Memory>
    requires { length script.now.vats ≡ count }
    ensures { IfOk result (λ residents. AreStarted script.now (length script.now.vats) residents.items) }
{
    let vats = script.vats.as_slice();
    let mut residents = Vec::new(alloc);
    for (place, vat) in vats.iter().enumerate() {
        let me = vat_at(place)?;
        let known_by = knowers_of(alloc, vats, me)?;
        let resident = Resident::start(
            alloc,
            me,
            count,
            vat.knows.as_slice(),
            known_by.as_slice(),
            &script.key,
            script.fuel,
        )?;
        residents.push(resident)?;
    }
    Ok(residents)
}

/// The programs of these trees, in order.
fn programs_of(alloc: Global, mut trees: Vec<Scoped>) -> Result<Vec<Program>, Memory>
    ensures { IfOk result (λ programs. programs.items ≡ map (λ (tree : Tree). tree.tree) trees.items) }
{
    let mut programs = Vec::new(alloc);
    while !trees.is_empty() {
        let tree = trees.remove(0).into_tree();
        programs.push(Program::new(alloc, tree)?)?;
    }
    Ok(programs)
}

impl World {
    /// The vats of a script at the start of its run, each with its program, to be told in that account.
    pub(crate) fn start(
        alloc: Global,
        script: &Script,
        programs: Vec<Scoped>,
        limits: Limits,
        wire: bool,
        history: Account,
    ) -> Result<World, Memory>
        requires admitted { IsAdmitted script.now }
        requires programs { length programs.items ≡ length script.now.vats }
        ensures begun { IfOk result (λ c. IsAccount (vat_names (script_of script.now programs.items limits.depth)) history [] → IsWorld (script_of script.now programs.items limits.depth) (begins (script_of script.now programs.items limits.depth)) c) }
        ensures ready { IfOk result (λ c. AreReady c.residents.items) }
        ensures wire { IfOk result (λ c. c.wire ≡ wire) }
    {
        let vats = script.vats.as_slice();
        let Ok(count) = u8::try_from(vats.len()) else {
            return Err(Memory);
        };
        let programs = programs_of(alloc, programs)?;
        let residents = residents_of(alloc, script, count)?;
        let nouns = all_nouns(alloc, vats)?;
        let ways = Ways::new(alloc, count)?;
        let words = Words::new(alloc, &script.key);
        Ok(World {
            residents,
            programs,
            nouns,
            ways,
            words,
            fuel: script.fuel,
            limits,
            wire,
            history,
        })
    }
}
