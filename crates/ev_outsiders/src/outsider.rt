//! How many things the frames of one hostile vat made.

ghost use Rattle.std.specs.Prelude.{◌≡◌, ◌+◌, ℕ, IfOk};
ghost use Rattle.def_hostile.specs.Outsiders.{counted, messages_in, nobody};
ghost use Rattle.def_machine.specs.State.{Note};
ghost use Rattle.def_machine.specs.Values.{Name};
ghost use Rattle.ev_outsiders.specs.Counting.{made_more, messages_of, outsider_of, with_one};

use ev_base::Memory;

/// How many things the frames of a hostile vat made, over all its links in order of arrival. It has no other state.
#[derive(Clone, Copy)]
pub struct Outsider {
    pub objects: u64,
    pub promises: u64,
    pub messages: u64,
}

/// One more of such a thing. What cannot be counted is answered as want of memory.
fn one_more(count: u64) -> Result<u64, Memory>
    ensures { IfOk result (λ next. next ≡ count + 1) }
{
    match count.checked_add(1) {
        Some(next) => Ok(next),
        None => Err(Memory),
    }
}

/// A frame made an object, or else a promise.
#[tactic(auto, unfolding(crate::specs::Counting::with_one))]
fn with_one(outsider: Outsider, is_object: bool) -> Result<Outsider, Memory>
    ensures { IfOk result (λ o. outsider_of o ≡ with_one is_object (outsider_of outsider)) }
{
    if is_object {
        let objects = one_more(outsider.objects)?;
        return Ok(Outsider {
            objects,
            ..outsider
        });
    }
    let promises = one_more(outsider.promises)?;
    Ok(Outsider {
        promises,
        ..outsider
    })
}

/// A frame made such things at new positions, in order: objects, and promises.
fn with_things(outsider: Outsider, kinds: &[bool]) -> Result<Outsider, Memory>
    ensures { IfOk result (λ o. outsider_of o ≡ made_more kinds.now 0 (outsider_of outsider)) }
{
    let mut found = outsider;
    for kind in kinds {
        found = with_one(found, *kind)?;
    }
    Ok(found)
}

impl Outsider {
    /// One whose frames made nothing.
    #[tactic(auto, unfolding(def_hostile::specs::Outsiders::nobody))]
    pub fn nobody() -> Outsider
        ensures { outsider_of result ≡ nobody }
    {
        Outsider {
            objects: 0,
            promises: 0,
            messages: 0,
        }
    }

    /// What there is once a frame made such things at new positions, in order, and brought a message, or none. What cannot be counted is
    /// answered as want of memory.
    pub fn counted(self, kinds: &[bool], is_message: bool) -> Result<Outsider, Memory>
        ensures counted { (n : Note Name) → messages_in n ≡ messages_of is_message → IfOk result (λ o. outsider_of o ≡ counted kinds.now n (outsider_of self)) }
    {
        let found = with_things(self, kinds)?;
        if is_message {
            let messages = one_more(found.messages)?;
            return Ok(Outsider { messages, ..found });
        }
        Ok(found)
    }
}
