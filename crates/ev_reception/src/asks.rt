//! What a vat asks for it learns as a gift.

ghost use Rattle.std.specs.Prelude.{◌≡◌, List, OnOk, map};
ghost use Rattle.def_hostile.specs.Arrivals.{learnt_after};
ghost use Rattle.def_machine.specs.Values.{Words};
ghost use Rattle.ev_pass.specs.Reading.{put_by};
ghost use Rattle.ev_reception.specs.Asks.{ask_in, learnt_anew, learnt_if, puts_learnt};
ghost use Rattle.ev_wire.specs.Reading.{learnt_of};

use ev_base::{Memory, PromId, VatId};
use ev_pass::note::Note;
use ev_pass::post::Put;
use ev_pass::{Interior, Swiss};
use ev_wire::LearntTable;

/// A gift at that host is learnt, unless it was.
fn learn_anew(
    learnt: &mut LearntTable,
    host: VatId,
    swiss: Swiss,
    name: PromId,
) -> Result<(), Memory>
    ensures { OnOk result (learnt.new ≡ learnt_anew (record { host = host; provider = swiss.provider; word = swiss.word; name = name }) learnt.old) }
{
    match learnt.find(host, swiss.provider, swiss.word) {
        Some(_name) => Ok(()),
        None => learnt.learn(host, swiss.provider, swiss.word, name),
    }
}

/// So is the gift that a note asks for of its host, if one.
fn learn_ask(learnt: &mut LearntTable, put: &Put) -> Result<(), Memory>
    ensures { OnOk result (learnt.new ≡ learnt_if (ask_in put.now) learnt.old) }
{
    match &put.note {
        Note::Ask(_provider, swiss, name) => learn_anew(learnt, put.to, *swiss, *name),
        Note::Deliver { .. }
        | Note::Open(_, _)
        | Note::Settled(_, _)
        | Note::Elsewhere(_, _)
        | Note::Shorten(_, _, _) => Ok(()),
    }
}

/// So are those that notes ask for.
fn learn_asks(learnt: &mut LearntTable, puts: &[Put]) -> Result<(), Memory>
    ensures { OnOk result (learnt.new ≡ puts_learnt puts.now learnt.old) }
{
    for put in puts {
        learn_ask(learnt, put)?;
    }
    Ok(())
}

/// What the step at hand asks for is learnt as a gift, since a hostile vat may tell of it again. Where no vat is hostile (`alone`) none does,
/// and it is not kept. After want of memory some of it is learnt.
#[tactic(auto, using(crate::proofs::Asked::none_learnt, crate::proofs::Asked::all_asked))]
pub fn learn_put(inside: &Interior, learnt: &mut LearntTable, alone: bool) -> Result<(), Memory>
    ensures { (texts : List Words) → OnOk result (map learnt_of learnt.new ≡ learnt_after alone (map (put_by texts) inside.now.post) (map learnt_of learnt.old)) }
{
    if alone {
        return Ok(());
    }
    learn_asks(learnt, inside.post.puts())
}
