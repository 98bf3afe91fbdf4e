//! Chains of names that wait on one another.

ghost use Rattle.std.specs.Prelude.{◌≡◌, length};
ghost use Rattle.ev_refs.specs.Waiting.{awaited, is_open, waits_lead};

use crate::known::Standing;
use crate::refs::Refs;
use ev_base::PromId;

impl Refs {
    /// The name on which a name waits, by its view too.
    #[tactic(auto, unfolding(crate::specs::Waiting::awaited, crate::specs::Waiting::awaited_found))]
    fn awaited(&self, name: u64) -> Option<u64>
        ensures { result ≡ awaited self.now.known name }
    {
        let Some(known) = self.known.get(name as usize) else {
            return None;
        };
        match known.standing {
            Standing::Unsettled | Standing::Settled(_) => None,
            Standing::WaitsOn(other) | Standing::Viewed(other) => Some(other.0),
        }
    }

    /// Whether the chain of waits inside this vat leads from a name to another.
    #[tactic(auto, using(crate::proofs::Chains::found, crate::proofs::Chains::stops))]
    fn waits_lead(&self, from: u64, to: u64) -> bool
        ensures { result ≡ waits_lead (length self.now.known) self.now.known to from }
    {
        let mut at = from;
        for _ in 0..self.known.len() {
            if at == to {
                return true;
            }
            match self.awaited(at) {
                None => return false,
                Some(next) => at = next,
            }
        }
        at == to
    }

    /// Whether a wait of one name on another would lead back to it.
    pub fn leads_back(&self, name: PromId, other: PromId) -> bool
        ensures { result ≡ waits_lead (length self.now.known) self.now.known name other }
    {
        self.waits_lead(other.0, name.0)
    }

    /// Whether a name neither settled nor waits.
    #[tactic(auto, unfolding(crate::specs::Waiting::is_open, crate::specs::Waiting::open_found))]
    pub fn is_open(&self, name: PromId) -> bool
        ensures { result ≡ is_open self.now name }
    {
        let Some(known) = self.known.get(name.0 as usize) else {
            return true;
        };
        match known.standing {
            Standing::Unsettled => true,
            Standing::WaitsOn(_) | Standing::Viewed(_) | Standing::Settled(_) => false,
        }
    }
}
