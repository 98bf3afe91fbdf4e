//! What a vat exported is told to its peers.

ghost use Rattle.std.specs.Prelude.{◌≡◌, IfOk, OnOk, Some, drop, length, slice_get, slice_set};
ghost use Rattle.ev_resident.specs.declared.resident.Resident.{Resident as Theirs};
ghost use Rattle.ev_world.specs.Exporting.{AreCounted, AreTold, object_of, objects_for, told_by, with_imports};

use ev_base::{Memory, Value, VatId};
use ev_resident::{Member, Resident, VatNames};
use std::alloc::Global;

/// The number of an object, and 0 of what is none.
#[tactic(auto, unfolding(crate::specs::Exporting::object_of))]
fn object_of(value: Value) -> u64
    ensures { result ≡ object_of value }
{
    match value {
        Value::Obj(id) => id.0,
        _ => 0,
    }
}

/// The objects that a vat exported to that peer from that position on.
#[tactic(auto, using(crate::proofs::Telling::since_next, crate::proofs::Telling::since_all))]
fn objects_since(
    alloc: Global,
    member: &Member,
    peer: VatId,
    known: u64,
) -> Result<Vec<u64>, Memory>
    ensures { IfOk result (λ objects. objects.items ≡ drop known (objects_for peer member.now)) }
{
    let mut objects = Vec::new(alloc);
    for position in known..member.exports(peer) {
        let Some(value) = member.exported(peer, position) else {
            return Err(Memory);
        };
        objects.push(object_of(value))?;
    }
    Ok(objects)
}

/// These objects of that vat come to stand at the next positions.
#[tactic(auto, using(crate::proofs::Telling::imports_next, crate::proofs::Telling::imports_all))]
fn import_all(names: &mut VatNames, vat: VatId, objects: &[u64]) -> Result<(), Memory>
    ensures { OnOk result (names.new ≡ with_imports vat objects.now names.old) }
{
    for object in objects {
        names.import(vat, *object)?;
    }
    Ok(())
}

/// What the vat of that number exported since it had exported so much to each is told to the one at a place.
fn tell_peer(
    residents: &mut Vec<Resident>,
    alloc: Global,
    vat: VatId,
    before: &[u64],
    place: usize,
) -> Result<(), Memory>
    ensures { (q r : Theirs) → slice_get residents.old.items vat ≡ Some q → slice_get residents.old.items place ≡ Some r
        → OnOk result (residents.new.items ≡ slice_set residents.old.items place (told_by vat q.member before.now place r)) }
{
    let Ok(number) = u8::try_from(place) else {
        return Err(Memory);
    };
    let Some(known) = before.get(place) else {
        return Err(Memory);
    };
    let Some(exporter) = residents.get(vat.0 as usize) else {
        return Err(Memory);
    };
    let objects = objects_since(alloc, &exporter.member, VatId(number), *known)?;
    let Some(peer) = residents.get_mut(place) else {
        return Err(Memory);
    };
    import_all(&mut peer.names, vat, objects.as_slice())
}

/// What the vat of that number exported since it had exported so much to each is told to all.
pub(crate) fn tell_exports(
    residents: &mut Vec<Resident>,
    alloc: Global,
    vat: VatId,
    before: &[u64],
) -> Result<(), Memory>
    ensures { (q : Theirs) → slice_get residents.old.items vat ≡ Some q → OnOk result (AreTold vat q.member before.now (length residents.old.items) residents.old.items residents.new.items) }
{
    for place in 0..residents.len() {
        tell_peer(residents, alloc, vat, before, place)?;
    }
    Ok(())
}

/// How much a vat exported to each of so many.
#[tactic(auto, using(crate::proofs::Telling::none_counted, crate::proofs::Telling::counted_next))]
pub(crate) fn exports_of(alloc: Global, member: &Member, count: usize) -> Result<Vec<u64>, Memory>
    ensures { IfOk result (λ counts. AreCounted member.now count counts.items) }
{
    let mut counts = Vec::with_capacity(alloc, count)?;
    for peer in 0..count {
        let Ok(number) = u8::try_from(peer) else {
            return Err(Memory);
        };
        counts.push(member.exports(VatId(number)))?;
    }
    Ok(counts)
}
