//! Where values lead.

ghost use Rattle.std.specs.Prelude.{◌≡◌, length, suc};
ghost use Rattle.def_machine.specs.State.{is_in};
ghost use Rattle.ev_refs.specs.Follow.{followed, hosted, host_of, led_on, place_of, severed, severed_by, step_of};

use crate::known::{Standing, is_among};
use crate::refs::Refs;
use ev_base::{PromId, TextId, Value, VatId};

/// Where a followed value is.
#[derive(Clone, Copy)]
pub enum Place {
    /// Data that is not broken, or an object of this vat.
    Near,
    /// An unsettled promise of this vat.
    Mine(PromId),
    /// An unsettled promise of another vat.
    FarPromise(VatId, PromId),
    /// An object of another vat, by its position.
    FarObject(VatId, u64),
    /// Broken, with its problem.
    Gone(TextId),
}

/// Where a name leads in one step.
#[derive(Clone, Copy)]
enum Step {
    Stays,
    /// To another name.
    Leads(u64),
    /// To what is no name.
    Ends(Value),
}

impl Refs {
    /// Whether the link with that vat is noticed as cut.
    pub fn is_noticed(&self, peer: VatId) -> bool
        ensures { result ≡ is_in peer self.now.noticed }
    {
        is_among(peer, self.noticed.as_slice())
    }

    /// Where a name leads in one step. Waits are not followed.
    #[tactic(auto, unfolding(crate::specs::Follow::step_of, crate::specs::Follow::step_found))]
    fn step(&self, name: u64) -> Step
        ensures { result ≡ step_of self.now.known name }
    {
        let Some(known) = self.known.get(name as usize) else {
            return Step::Stays;
        };
        match known.standing {
            Standing::Unsettled | Standing::WaitsOn(_) => Step::Stays,
            Standing::Viewed(gift) => Step::Leads(gift.0),
            Standing::Settled(Value::Prom(next)) => Step::Leads(next.0),
            Standing::Settled(target) => Step::Ends(target),
        }
    }

    /// Where a name leads in at most so many steps.
    #[tactic(auto, using(crate::proofs::Follows::stays, crate::proofs::Follows::leads, crate::proofs::Follows::ends))]
    fn led_on(&self, name: PromId) -> Value
        ensures { result ≡ led_on (suc (length self.now.known)) self.now.known name }
    {
        let mut at = name.0;
        for _ in 0..self.known.len() + 1 {
            match self.step(at) {
                Step::Stays => return Value::Prom(PromId(at)),
                Step::Leads(next) => at = next,
                Step::Ends(target) => return target,
            }
        }
        Value::Prom(PromId(at))
    }

    /// The vat that tells of a name. A name that is not known is the vat's own.
    #[tactic(auto, unfolding(crate::specs::Follow::host_of, crate::specs::Follow::host_found))]
    fn host_of(&self, name: PromId) -> VatId
        ensures { result ≡ host_of self.now name }
    {
        match self.known.get(name.0 as usize) {
            None => self.me,
            Some(known) => known.host,
        }
    }

    /// Broken `partition` in place of a value, where its host is noticed.
    #[tactic(auto, unfolding(crate::specs::Follow::severed_by))]
    fn severed_by(&self, host: VatId, value: Value) -> Value
        ensures { result ≡ severed_by self.now host value }
    {
        if self.is_noticed(host) {
            Value::Broken(self.partition)
        } else {
            value
        }
    }

    #[tactic(auto, unfolding(crate::specs::Follow::severed))]
    #[inline(always)]
    fn severed(&self, value: Value) -> Value
        ensures { result ≡ severed self.now value }
    {
        match value {
            Value::Prom(name) => self.severed_by(self.host_of(name), value),
            Value::Far(host, _) => self.severed_by(host, value),
            _ => value,
        }
    }

    /// What a value is followed to: by what names settled to and by their views, as far as the vat knows; and to broken
    /// `partition`, where that has a host whose link is noticed as cut.
    #[tactic(auto, unfolding(crate::specs::Follow::followed, crate::specs::Follow::led))]
    #[inline(always)]
    pub fn deref(&self, value: Value) -> Value
        ensures { result ≡ followed self.now value }
    {
        match value {
            Value::Prom(name) => self.severed(self.led_on(name)),
            _ => self.severed(value),
        }
    }

    #[tactic(auto, unfolding(crate::specs::Follow::hosted))]
    fn hosted(&self, name: PromId, host: VatId) -> Place
        ensures { result ≡ hosted self.now name host }
    {
        if self.me == host {
            Place::Mine(name)
        } else {
            Place::FarPromise(host, name)
        }
    }

    /// Where a followed value is.
    #[tactic(auto, unfolding(crate::specs::Follow::place_of))]
    pub fn place(&self, value: Value) -> Place
        ensures { result ≡ place_of self.now value }
    {
        match value {
            Value::Prom(name) => self.hosted(name, self.host_of(name)),
            Value::Far(host, position) => Place::FarObject(host, position),
            Value::Broken(problem) => Place::Gone(problem),
            _ => Place::Near,
        }
    }
}
