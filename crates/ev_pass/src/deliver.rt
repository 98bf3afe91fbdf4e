//! Messages that go out, and vats that are told what a name settled to.

ghost use Rattle.std.specs.Prelude.{◌≡◌};
ghost use Rattle.ev_pass.specs.Acts.{Gives};
ghost use Rattle.ev_pass.specs.Delivering.{deliver, inform, inform_at, inform_plainly};

use crate::interior::{Interior, Stop};
use crate::note::{Note, Reference};
use ev_base::{MsgId, PromId, Value, VatId, Word};
use ev_heap::Happened;
use ev_refs::Place;

impl Interior {
    /// A message goes out to that vat, on what it is sent on there, and asks for the answer that this vat knows as that name, if it does: its arguments pass, and then
    /// the note is put.
    #[tactic(auto, using(crate::proofs::Ends::ends), unfolding(crate::specs::Delivering::deliver, crate::specs::Acts::opened_acts))]
    pub fn deliver(
        &mut self,
        message: MsgId,
        answer: Option<PromId>,
        verb: Word,
        args: &[Value],
        host: VatId,
        target: Reference,
    ) -> Result<(), Stop>
        ensures { Gives result self.new (deliver message answer verb args.now host target self.old) }
    {
        let args = self.pass_all(host, args)?;
        self.tell(Happened::Posted(host, message))?;
        self.send_out(
            host,
            Note::Deliver {
                message,
                answer,
                target,
                verb,
                args,
            },
        )
    }

    /// A vat is told what a name settled to, which passes.
    #[tactic(auto, using(crate::proofs::Ends::ends), unfolding(crate::specs::Delivering::inform_plainly, crate::specs::Acts::opened_acts))]
    fn inform_plainly(&mut self, name: PromId, vat: VatId, end: &Value) -> Result<(), Stop>
        ensures { Gives result self.new (inform_plainly name vat end.now self.old) }
    {
        let passed = self.pass(vat, *end)?;
        self.send_out(vat, Note::Settled(name, passed))
    }

    /// A vat is told what a name settled to, at this place.
    #[tactic(auto, unfolding(crate::specs::Delivering::inform_at))]
    fn inform_at(&mut self, name: PromId, vat: VatId, end: &Value, place: Place) -> Result<(), Stop>
        ensures { Gives result self.new (inform_at name vat end.now place self.old) }
    {
        match place {
            Place::FarObject(host, _) => self.send_out(vat, Note::Elsewhere(name, host)),
            Place::Near | Place::Mine(_) | Place::FarPromise(_, _) | Place::Gone(_) => {
                self.inform_plainly(name, vat, end)
            }
        }
    }

    /// A vat is told what a name settled to: what it is followed to, or of which vat it is an object. A vat whose link is noticed as
    /// cut is told nothing.
    #[tactic(auto, unfolding(crate::specs::Delivering::inform, crate::specs::Acts::give))]
    pub fn inform(&mut self, name: PromId, vat: VatId) -> Result<(), Stop>
        ensures { Gives result self.new (inform name vat self.old) }
    {
        if self.refs.is_noticed(vat) {
            return Ok(());
        }
        let end = self.refs.deref(Value::Prom(name));
        let place = self.refs.place(end);
        self.inform_at(name, vat, &end, place)
    }
}
