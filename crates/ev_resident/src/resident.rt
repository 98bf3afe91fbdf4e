//! A vat of a run.

ghost use Rattle.std.specs.Prelude.{◌≡◌, ◌∷◌, [], ℕ, List, IfOk, IfSome, None, OnOk, map};
ghost use Rattle.def_run.specs.Names.{Names};
ghost use Rattle.def_run.specs.Names.{Told as TheirTold};
ghost use Rattle.def_run.specs.Numbers.{Vats, link_of};
ghost use Rattle.def_run.specs.Vats.{Member as Theirs};
ghost use Rattle.def_machine.specs.Arrive as arriving;
ghost use Rattle.def_machine.specs.Eval.{opening, taking};
ghost use Rattle.def_machine.specs.State as machine;
ghost use Rattle.def_machine.specs.Values.{Local, Name, Prom, Root};
ghost use Rattle.ev_room.specs.Reading.{roots_from};
ghost use Rattle.ev_vat.specs.Hearing.{BringsSo, Hears, frame_heard};
ghost use Rattle.ev_vat.specs.Standing.{IsFound, IsMember};
ghost use Rattle.ev_vat.specs.Starting.{rooted_member};
ghost use Rattle.ev_vat.specs.MemberSteps.{Having, Steps, Turns, own};
ghost use Rattle.ev_vat.specs.declared.member.Member.{Member as Finding};
ghost use Rattle.ev_resident.specs.Names.{carried_mails, names_first};
ghost use Rattle.ev_resident.specs.Printing.{TellsCuts};
ghost use Rattle.ev_resident.specs.NamesStanding.{Says, mails_of};
ghost use Rattle.ev_resident.specs.OutcomeStanding.{NamesStand, ObjectsStand};
ghost use Rattle.ev_pass.specs.Acts.{words_by};
ghost use Rattle.ev_pass.specs.Reading.{names_under};
ghost use Rattle.ev_resident.specs.Standing.{IsStepped};
ghost use Rattle.ev_resident.specs.Starting.{with_roots};
ghost use Rattle.ev_resident.specs.Telling.{IsTold};
ghost use Rattle.ev_vat.specs.Vat.{IsReady};

use crate::outgoing::Outgoing;
use crate::starting::first_names;
use crate::telling::tell_step;
use crate::{Told, VatNames};
use ev_base::{Limits, Memory, Msg, VatId, Word};
use ev_intro::Words;
use ev_room::Program;
use ev_step_text::Account;
use ev_vat::{Arrival, Member, Sending, VatStop};
use std::alloc::Global;

/// A vat of a run, with its connections and the names of its numbers.
///
/// A step goes so: `first_turn`, `turn`, `notice` or `hear` takes fuel and the words of the run, then `finish` tells what it did, and
/// `rest` gives fuel and words back. After an error it is of no use any more.
pub struct Resident {
    pub member: Member,
    pub names: VatNames,
}

impl Drop for Resident {
    fn drop(self) {
        let Self {
            member: _member,
            names: _names,
        } = self;
    }
}

impl Resident {
    /// A vat of a run of so many vats at its start, with so much fuel: it knows the roots of some, and some know its own. It draws words
    /// under that key.
    pub fn start(
        alloc: Global,
        me: VatId,
        count: u8,
        knows: &[VatId],
        known_by: &[VatId],
        key: &[u8; 32],
        fuel: u32,
    ) -> Result<Resident, Memory>
        ensures begins { IfOk result (λ r. (t : Names) → IsMember (rooted_member fuel me count knows.now known_by.now t) r.member) }
        ensures ready { IfOk result (λ r. IsReady r.member.vat) }
        ensures key { IfOk result (λ r. r.member.vat.host.inside.words.key ≡ key.now) }
        ensures names { (ds : List ℕ) (s : machine.Vat Local) → s.promises ≡ 0 → s.messages ≡ 0 → s.gifts ≡ []
            → IfOk result (λ r. NamesStand ds me s (record { known = Root me ∷ map Root knows.now; mails = [] }) r.names) }
        ensures objects { IfOk result (λ r. r.names ≡ with_roots knows.now (names_first me knows.now count)) }
    {
        let member = Member::start(alloc, me, count, knows, known_by, key, fuel)?;
        let names = first_names(alloc, me, count, knows)?;
        Ok(Resident { member, names })
    }

    /// The opening turn of that program; the nouns are those of the vats that it knows, in order. It answers the frames of what it put.
    pub fn first_turn(
        &mut self,
        fuel: u32,
        words: &mut Words,
        program: &Program,
        nouns: &[Word],
        limits: Limits,
    ) -> Result<Vec<Sending>, VatStop>
        requires ready { IsReady self.old.member.vat }
        ensures step { (m : Theirs) → words.old.key ≡ self.old.member.vat.host.inside.words.key → IsMember m self.old.member
            → Steps fuel (words_by words.old.key words.old.count) m (own m) (λ xs. xs.items) result self.new.member (opening (names_under words.old.key) program.now limits.depth (Prom 0) (roots_from 1 nouns.now)) }
        ensures names { self.new.names ≡ self.old.names }
        ensures lent { words.new ≡ self.old.member.vat.host.inside.words }
        ensures ready { IsReady self.new.member.vat }
        ensures key { self.old.member.vat.stopped ≡ None → OnOk result (self.new.member.vat.host.inside.words.key ≡ words.old.key) }
    {
        self.member.ready(fuel, words);
        self.member.first_turn(program, nouns, limits)
    }

    /// A turn takes the first message of the queue, with that program. It answers the frames of what it put, or none where the queue is
    /// empty: then it did nothing.
    pub fn turn(
        &mut self,
        fuel: u32,
        words: &mut Words,
        program: &Program,
        limits: Limits,
    ) -> Result<Option<Vec<Sending>>, VatStop>
        requires ready { IsReady self.old.member.vat }
        ensures step { (m : Theirs) → words.old.key ≡ self.old.member.vat.host.inside.words.key → IsMember m self.old.member
            → (found : Finding) × IsFound fuel (words_by words.old.key words.old.count) m found
            × Turns fuel (words_by words.old.key words.old.count) m (λ xs. xs.items) result found self.new.member (λ x. taking (names_under words.old.key) program.now limits.depth x) m.vat.queue }
        ensures names { self.new.names ≡ self.old.names }
        ensures lent { words.new ≡ self.old.member.vat.host.inside.words }
        ensures ready { IsReady self.new.member.vat }
        ensures key { self.old.member.vat.stopped ≡ None → OnOk result (self.new.member.vat.host.inside.words.key ≡ words.old.key) }
    {
        self.member.ready(fuel, words);
        self.member.turn(program, limits)
    }

    /// The link with that vat is noticed as cut. It answers the frames of what the vat put.
    pub fn notice(
        &mut self,
        fuel: u32,
        words: &mut Words,
        peer: VatId,
    ) -> Result<Vec<Sending>, VatStop>
        requires ready { IsReady self.old.member.vat }
        ensures step { (m : Theirs) → words.old.key ≡ self.old.member.vat.host.inside.words.key → IsMember m self.old.member
            → Steps fuel (words_by words.old.key words.old.count) m (own m) (λ xs. xs.items) result self.new.member (arriving.notice (names_under words.old.key) peer) }
        ensures names { self.new.names ≡ self.old.names }
        ensures lent { words.new ≡ self.old.member.vat.host.inside.words }
        ensures ready { IsReady self.new.member.vat }
        ensures key { self.old.member.vat.stopped ≡ None → OnOk result (self.new.member.vat.host.inside.words.key ≡ words.old.key) }
    {
        self.member.ready(fuel, words);
        self.member.notice(peer)
    }

    /// A frame of that vat comes in. It answers the frames of what the vat put, and what the frame brought, or none where it is malformed:
    /// then it did nothing.
    pub fn hear(
        &mut self,
        fuel: u32,
        words: &mut Words,
        from: VatId,
        frame: &[u8],
    ) -> Result<Option<Arrival>, VatStop>
        requires ready { IsReady self.old.member.vat }
        ensures step { (m : Theirs) → words.old.key ≡ self.old.member.vat.host.inside.words.key → IsMember m self.old.member
            → (found : Finding) × IsFound fuel (words_by words.old.key words.old.count) m found
            × Hears (names_under words.old.key) fuel (words_by words.old.key words.old.count) from m (λ a. a.sendings.items) result found self.new.member (frame_heard from m frame.now) }
        ensures news { (m : Theirs) → words.old.key ≡ self.old.member.vat.host.inside.words.key → IsMember m self.old.member
            → IfOk result (λ o. IfSome o (λ a. BringsSo from m (frame_heard from m frame.now) a.news)) }
        ensures names { self.new.names ≡ self.old.names }
        ensures lent { words.new ≡ self.old.member.vat.host.inside.words }
        ensures ready { OnOk result (IsReady self.new.member.vat) }
        ensures key { self.old.member.vat.stopped ≡ None → OnOk result (self.new.member.vat.host.inside.words.key ≡ words.old.key) }
    {
        self.member.ready(fuel, words);
        self.member.hear(from, frame)
    }

    /// What a step did is told: the names of the vat's numbers, its lines where those links are cut, and the frames of what it put. A note
    /// brought that message, if one, and told those numbers.
    pub fn finish(
        &mut self,
        alloc: Global,
        cut: &[bool],
        carried: Option<Msg>,
        told: Told,
        sendings: Vec<Sending>,
        account: &mut Account,
    ) -> Result<Vec<Outgoing>, Memory>
        ensures told { (w : Vats) (u : ℕ) (m : Theirs) (b : Having) (s : machine.Vat Local) (messages : List Name) (brought : List TheirTold)
            → IsStepped b s sendings.items self.old.member → NamesStand s.drawn u m.vat m.names self.old.names → ObjectsStand w.members u self.old.names.naming.objects
            → mails_of (carried_mails carried) ≡ messages → Says self.old.member.vat.host.inside.words told brought → TellsCuts u (map link_of w.ways) cut.now
            → IfOk result (λ ys. IsTold w u m.names s m.vat b.connections messages brought account.old account.new ys.items self.new.names) }
        ensures member { self.new.member ≡ self.old.member }
        ensures objects { OnOk result (self.new.names.naming.objects ≡ self.old.names.naming.objects) }
    {
        let host = self.member.vat().host();
        let outgoing = tell_step(
            alloc,
            host,
            &mut self.names,
            cut,
            carried,
            told,
            sendings,
            account,
        )?;
        Ok(outgoing)
    }

    /// The words of the run are given back for those that the vat had before, with the fuel that is left. What the step told is forgotten.
    pub fn rest(&mut self, words: &mut Words) -> u32
        ensures fuel { result ≡ self.old.member.vat.host.inside.micro.fuel }
        ensures words { words.new ≡ self.old.member.vat.host.inside.words }
        ensures member { (m : Theirs) → words.old.key ≡ self.old.member.vat.host.inside.words.key → IsMember m self.old.member → IsMember m self.new.member }
        ensures key { self.new.member.vat.host.inside.words ≡ words.old }
        ensures ready { IsReady self.old.member.vat → IsReady self.new.member.vat }
        ensures names { self.new.names ≡ self.old.names }
    {
        self.member.give_back(words)
    }
}
