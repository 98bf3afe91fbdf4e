//! A value made fit for its receiver.

ghost use Rattle.std.specs.Prelude.{◌≡◌, ◌++◌, ◌∷◌, [], OnOk};
ghost use Rattle.ev_refs.specs.Leading.{lists_in, members_at};
ghost use Rattle.ev_pass.specs.Acts.{Shows};
ghost use Rattle.ev_pass.specs.Notes.{Many, Plain, all_parcels, parcel};
ghost use Rattle.ev_base.specs.declared.values.Value.TheVariants.{Broken};
ghost use Rattle.ev_pass.specs.Passing.{address_plain, introduce, pack, pack_end, pack_list, packs, provide};

use crate::draw::Swiss;
use crate::interior::{Interior, Stop};
use crate::measure::members_in;
use crate::note::{Note, Passed, Reference};
use ev_base::{ListId, Memory, Value, VatId};
use ev_refs::Place;

/// One more part, behind the others.
pub(crate) fn add(parts: &mut Vec<Passed>, part: Passed) -> Result<(), Memory>
    ensures { OnOk result (parts.new.items ≡ parts.old.items ++ part ∷ []) }
{
    parts.push(part)?;
    Ok(())
}

/// A list as it passes, of these members.
fn listed(parts: Vec<Passed>) -> Passed
    ensures { parcel result ≡ Many (all_parcels parts.items) }
{
    Passed::List(parts)
}

impl Interior {
    /// What passes in the place of what is too heavy.
    fn heavy(&self) -> Passed
        ensures { parcel result ≡ Plain (Broken self.now.too_heavy) }
    {
        Passed::Plain(Value::Broken(self.too_heavy))
    }

    /// A gift at that host, of which the host is told.
    #[tactic(auto, using(crate::proofs::Ends::ends), unfolding(crate::specs::Passing::provide, crate::specs::Acts::opened_acts))]
    fn provide(&mut self, host: VatId, reference: Reference) -> Result<Passed, Stop>
        ensures { Shows parcel result self.new (provide host reference self.old) }
    {
        let provider = self.refs.me();
        let word = self.draw()?;
        self.send_out(host, Note::Open(Swiss { provider, word }, reference))?;
        Ok(Passed::Gift(host, Swiss { provider, word }))
    }

    /// A name of that host passes to a vat: as itself to the host, and else as a gift.
    #[tactic(auto, unfolding(crate::specs::Passing::introduce, crate::specs::Acts::opened_acts))]
    fn introduce(
        &mut self,
        to: VatId,
        value: &Value,
        host: VatId,
        reference: Reference,
    ) -> Result<Passed, Stop>
        ensures { Shows parcel result self.new (introduce to value.now host reference self.old) }
    {
        if host == to {
            return Ok(Passed::Plain(*value));
        }
        self.provide(host, reference)
    }

    /// A followed value at this place passes to a vat, which is to be told of an unsettled promise of this vat.
    #[tactic(auto, using(crate::proofs::Ends::ends), unfolding(crate::specs::Passing::address_plain, crate::specs::Acts::opened_acts))]
    fn address_plain(&mut self, to: VatId, value: &Value, place: Place) -> Result<Passed, Stop>
        ensures { Shows parcel result self.new (address_plain to value.now place self.old) }
    {
        match place {
            Place::FarPromise(host, name) => {
                self.introduce(to, value, host, Reference::Promise(name))
            }
            Place::FarObject(host, position) => {
                self.introduce(to, value, host, Reference::Far(host, position))
            }
            Place::Mine(name) => {
                self.to_tell(to, name)?;
                Ok(Passed::Plain(*value))
            }
            Place::Near | Place::Gone(_) => Ok(Passed::Plain(*value)),
        }
    }

    /// A value passes to a vat, with at most so many lists in each other: what its promises settled to stands in their place, at
    /// any depth.
    #[cycle(packing)]
    #[tactic(auto, unfolding(crate::specs::Passing::pack))]
    fn pack(&mut self, depth: u64, to: VatId, value: Value) -> Result<Passed, Stop>
        ensures { Shows parcel result self.new (pack depth to value self.old) }
    {
        let end = self.refs.deref(value);
        self.pack_end(depth, to, end)
    }

    /// A followed value passes to a vat.
    #[cycle(packing)]
    #[tactic(auto, unfolding(crate::specs::Passing::pack_end))]
    pub(crate) fn pack_end(&mut self, depth: u64, to: VatId, end: Value) -> Result<Passed, Stop>
        ensures { Shows parcel result self.new (pack_end depth to end self.old) }
    {
        match end {
            Value::List(list) => self.pack_list(depth, to, list),
            _ => {
                let place = self.refs.place(end);
                self.address_plain(to, &end, place)
            }
        }
    }

    /// A list passes to a vat.
    #[cycle(packing)]
    #[tactic(auto, unfolding(crate::specs::Passing::pack_list))]
    fn pack_list(&mut self, depth: u64, to: VatId, list: ListId) -> Result<Passed, Stop>
        ensures { Shows parcel result self.new (pack_list depth to list self.old) }
    {
        if depth == 0 {
            return Ok(self.heavy());
        }
        let members = match Vec::from_slice(self.alloc, members_in(&self.heap, list)) {
            Ok(members) => members,
            Err(_) => return Err(Stop::Memory),
        };
        match self.pack_all(depth - 1, to, &members) {
            Ok(parts) => Ok(listed(parts)),
            Err(stop) => Err(stop),
        }
    }

    /// Values pass to a vat, from left to right.
    #[cycle(packing)]
    fn pack_all(&mut self, depth: u64, to: VatId, values: &[Value]) -> Result<Vec<Passed>, Stop>
        ensures { Shows (λ ps. all_parcels ps.items) result self.new (packs (pack depth to) values.now self.old) }
    {
        let mut parts = Vec::new(self.alloc);
        for value in values {
            match self.pack(depth, to, *value) {
                Ok(part) => add(&mut parts, part)?,
                Err(stop) => return Err(stop),
            }
        }
        Ok(parts)
    }
}
