//! What the numbers of a vat are called, by what its steps tell.

ghost use Rattle.std.specs.Prelude.{◌≡◌, ◌-◌, ◌++◌, ◌∷◌, [], List, IfOk, OnErr, OnOk, drop, length, map, slice_get};
ghost use Rattle.ev_base.specs.declared.names.Name.TheVariants as name;
ghost use Rattle.ev_heap.specs.Told.{Fits};
ghost use Rattle.ev_resident.specs.Names.{all_named, counted, answer_name, asked_tells, answer_tells, carried_mails, event_tells, events_tell, gift_at, gift_tells, gifts_tell, host_in, line_tells, names_first, note_tells, one_named, own_messages, puts_tell, some_tells, step_tells, stepped, mailed, with_mails};
ghost use Rattle.def_run.specs.Names.{Names, Told as Local, names_after};
ghost use Rattle.def_machine.specs.State.{Vat};
ghost use Rattle.def_machine.specs.Values.{Local as Number, Root, word_of};
ghost use Rattle.ev_arrive.specs.Reading.{with_gifts};
ghost use Rattle.ev_intro.specs.Word.{Drawn};
ghost use Rattle.ev_resident.specs.NamesStanding.{Counts, Says, Stands, mails_of, new_names, printed};
ghost use Rattle.ev_pass.specs.Notes.{key_of, noted, sent};
ghost use Rattle.ev_room.specs.Reading.{World, vat_of};
ghost use Rattle.ev_step_lines.specs.Lines.{with_import};

use crate::told::Told;
use ev_arrive::Host;
use ev_base::{Memory, Msg, MsgId, Name, PromId, VatId};
use ev_heap::lines::Line;
use ev_heap::{Cursor, Happened, Lines};
use ev_intro::{GiftTable, Words};
use ev_pass::Interior;
use ev_pass::draw::Swiss;
use ev_pass::note::Note;
use ev_pass::post::Put;
use ev_refs::Refs;
use ev_step_lines::Table;
use std::alloc::Global;
use std::marker::Model;

/// The name of the gift at a vat under a word, among the words that were drawn.
pub fn gift_name(host: VatId, word: u128, words: &Words) -> Name
    ensures { result ≡ gift_at words.now host word }
{
    Name::Gift(host, words.place(word))
}

/// The name of the gift at a vat that is told by its provider and a word.
pub fn name_of_gift(host: VatId, swiss: Swiss, words: &Words) -> Name
    ensures { result ≡ gift_at words.now host (word_of (key_of swiss)) }
{
    gift_name(host, swiss.word, words)
}

/// The answer of a message at a host. One that is not there stands for no name.
fn answer_name(host: VatId, message: Option<Msg>) -> Name
    ensures { result ≡ answer_name host message }
{
    match message {
        Some(message) => Name::Answer(host, message),
        None => Name::Root(VatId(0)),
    }
}

/// The host of a name, and vat 0 where there is none of that number.
fn host_of(refs: &Refs, name: PromId) -> VatId
    ensures { result ≡ host_in refs.now name }
{
    let Ok(index) = usize::try_from(name.0) else {
        return VatId(0);
    };
    match refs.known().get(index) {
        Some(known) => known.host,
        None => VatId(0),
    }
}

/// The names of a vat's numbers, and how many promises, messages and gifts it had as its last step left it.
pub struct VatNames {
    table: Table,
    promises: u64,
    messages: u64,
    gifts: usize,
}

impl Drop for VatNames {
    fn drop(self) {
        let Self {
            table: _table,
            promises: _,
            messages: _,
            gifts: _,
        } = self;
    }
}

impl Model for VatNames {
    ghost use Rattle.ev_resident.specs.Names.{Named};

    ghost Value = { Named };

    ghost view = { λ n. record { naming = n.table; promises = n.promises; messages = n.messages; gifts = n.gifts } };
}

impl VatNames {
    /// The names of a vat at its start: its root, and those of the vats that it knows. There are so many vats.
    pub fn new(alloc: Global, me: VatId, knows: &[VatId], vats: u8) -> Result<VatNames, Memory>
        ensures names { IfOk result (λ names. names ≡ names_first me knows.now vats) }
        ensures stands { (d : Drawn) → IfOk result (λ names. Stands d (record { known = Root me ∷ map Root knows.now; mails = [] }) names) }
    {
        let names = VatNames::first(alloc, me, knows, vats)?;
        Ok(names)
    }

    fn first(alloc: Global, me: VatId, knows: &[VatId], vats: u8) -> Result<VatNames, Memory>
        ensures { IfOk result (λ names. names ≡ names_first me knows.now vats) }
    {
        let mut table = Table::new(alloc, me);
        table.open(alloc, vats)?;
        table.learn(Name::Root(me))?;
        for vat in knows {
            table.learn(Name::Root(*vat))?;
        }
        Ok(VatNames {
            table,
            promises: 0,
            messages: 0,
            gifts: 0,
        })
    }

    /// The table of the names.
    pub fn table(&self) -> &Table
        ensures { result.now ≡ self.now.naming }
    {
        &self.table
    }

    /// What a vat exported comes to stand at the next position: that object, or any number for a promise. A vat for which there is no
    /// room is answered as want of memory. A refusal changes nothing.
    pub fn import(&mut self, host: VatId, object: u64) -> Result<(), Memory>
        ensures ok { OnOk result (self.new ≡ record self.old { naming = with_import host object self.old.naming }) }
        ensures err { OnErr result (self.new ≡ self.old) }
    {
        self.table.import(host, object)
    }

    /// A message of the vat asks for an answer as that number.
    #[tactic(auto, unfolding(crate::specs::Names::asked_tells))]
    fn tell_asked(
        &self,
        refs: &Refs,
        message: MsgId,
        answer: Option<PromId>,
        told: &mut Told,
    ) -> Result<(), Memory>
        ensures { OnOk result (told.new ≡ asked_tells refs.now self.now.naming.mails message answer told.old) }
    {
        let Some(answer) = answer else {
            return Ok(());
        };
        let name = answer_name(host_of(refs, answer), self.table.mailed(message));
        told.tell(answer, name)
    }

    #[tactic(auto, unfolding(crate::specs::Names::event_tells))]
    fn tell_event(&self, refs: &Refs, event: &Happened, told: &mut Told) -> Result<(), Memory>
        ensures { OnOk result (told.new ≡ event_tells refs.now self.now.naming.mails event.now told.old) }
    {
        match event {
            Happened::Send {
                activation: _,
                message,
                target: _,
                verb: _,
                args: _,
                answer,
            } => self.tell_asked(refs, *message, *answer, told),
            Happened::When {
                activation: _,
                message,
                value: _,
                reaction: _,
                near: _,
                answer,
            } => self.tell_asked(refs, *message, Some(*answer), told),
            _ => Ok(()),
        }
    }

    /// What a small line tells, whatever its values.
    #[tactic(auto, unfolding(crate::specs::Names::line_tells))]
    fn tell_line(
        &self,
        refs: &Refs,
        read: &Cursor<'_>,
        line: Line,
        told: &mut Told,
    ) -> Result<(), Memory>
        requires { Fits read.now.verbs read.now.rare line }
        ensures { OnOk result (told.new ≡ line_tells refs.now self.now.naming.mails read.now.rare line told.old) }
    {
        match line {
            Line::Rare(place) => self.tell_event(refs, read.rare(place), told),
            _ => Ok(()),
        }
    }

    /// What the lines of a step tell.
    fn tell_events(&self, refs: &Refs, events: &Lines, told: &mut Told) -> Result<(), Memory>
        ensures { OnOk result (told.new ≡ events_tell refs.now self.now.naming.mails events.now told.old) }
    {
        let (lines, read) = events.skim();
        for line in lines {
            self.tell_line(refs, &read, *line, told)?;
        }
        Ok(())
    }

    /// A note that asks for an answer at that vat.
    #[tactic(auto, unfolding(crate::specs::Names::answer_tells))]
    fn tell_answer(
        &self,
        to: VatId,
        message: MsgId,
        answer: Option<PromId>,
        told: &mut Told,
    ) -> Result<(), Memory>
        ensures { OnOk result (told.new ≡ answer_tells self.now.naming.mails to message answer told.old) }
    {
        let Some(answer) = answer else {
            return Ok(());
        };
        let name = answer_name(to, self.table.mailed(message));
        told.tell(answer, name)
    }

    /// What a note says that the vat calls something.
    #[tactic(auto, unfolding(crate::specs::Names::note_tells))]
    fn tell_put(&self, words: &Words, put: &Put, told: &mut Told) -> Result<(), Memory>
        ensures { OnOk result (told.new ≡ note_tells words.now self.now.naming.mails put.now.to (noted put.now.note) told.old) }
    {
        match &put.note {
            Note::Deliver {
                message,
                answer,
                target: _,
                verb: _,
                args: _,
            } => self.tell_answer(put.to, *message, *answer, told),
            Note::Ask(_, swiss, name) => told.tell(*name, name_of_gift(put.to, *swiss, words)),
            _ => Ok(()),
        }
    }

    /// What the notes of a step tell.
    fn tell_puts(&self, words: &Words, puts: &[Put], told: &mut Told) -> Result<(), Memory>
        ensures { OnOk result (told.new ≡ puts_tell words.now self.now.naming.mails (map sent puts.now) told.old) }
    {
        for put in puts {
            self.tell_put(words, put, told)?;
        }
        Ok(())
    }

    /// The gift at a place is one that the vat hosts.
    #[tactic(auto, unfolding(crate::specs::Names::some_tells))]
    fn tell_gift(
        &self,
        words: &Words,
        gifts: &GiftTable,
        index: usize,
        told: &mut Told,
    ) -> Result<(), Memory>
        ensures { OnOk result (told.new ≡ some_tells (gift_tells words.now self.now.naming.vat) (slice_get gifts.now index) told.old) }
    {
        match gifts.entry(index) {
            Some((word, name)) => told.tell(name, gift_name(self.table.vat(), word, words)),
            None => Ok(()),
        }
    }

    /// The gifts that came since the last step.
    fn tell_gifts(&self, words: &Words, gifts: &GiftTable, told: &mut Told) -> Result<(), Memory>
        ensures { OnOk result (told.new ≡ gifts_tell words.now self.now.naming.vat (drop self.now.gifts gifts.now) told.old) }
    {
        for index in self.gifts..gifts.len() {
            self.tell_gift(words, gifts, index, told)?;
        }
        Ok(())
    }

    /// A note brought a message, or none.
    fn mail_carried(&mut self, carried: Option<Msg>) -> Result<(), Memory>
        ensures { OnOk result (self.new ≡ with_mails (carried_mails carried) self.old) }
    {
        match carried {
            Some(message) => self.table.mail(message),
            None => Ok(()),
        }
    }

    /// The vat's own message of that number.
    fn mail_one(&mut self, number: u64) -> Result<(), Memory>
        ensures { OnOk result (self.new ≡ with_mails (record { sender = self.old.naming.vat; number = number } ∷ []) self.old) }
    {
        let sender = self.table.vat();
        self.table.mail(Msg { sender, number })
    }

    /// The vat's own messages since the last step.
    fn mail_own(&mut self, messages: u64) -> Result<(), Memory>
        ensures { OnOk result (self.new ≡ with_mails (own_messages self.old.naming.vat self.old.messages (messages - self.old.messages)) self.old) }
    {
        for number in self.messages..messages {
            self.mail_one(number)?;
        }
        Ok(())
    }

    /// The name of the next number: as it was told, or the next promise that the vat made.
    #[tactic(auto, unfolding(crate::specs::Names::one_named, crate::specs::Names::named_as, crate::specs::Names::with_name))]
    fn name_next(&mut self, told: &Told) -> Result<(), Memory>
        ensures { OnOk result (self.new ≡ one_named told.now self.old) }
    {
        if let Some(name) = told.at(PromId(self.table.count())) {
            return self.table.learn(name);
        }
        let Some(promises) = self.promises.checked_add(1) else {
            return Err(Memory);
        };
        self.table
            .learn(Name::Own(self.table.vat(), self.promises))?;
        self.promises = promises;
        Ok(())
    }

    /// The names of all numbers below that one.
    fn fill(&mut self, told: &Told, known: u64) -> Result<(), Memory>
        ensures { OnOk result (self.new ≡ all_named told.now (known - length self.old.naming.names) self.old) }
    {
        for _ in self.table.count()..known {
            self.name_next(told)?;
        }
        Ok(())
    }

    /// What a step tells that left the inside so.
    fn tell_step(
        &self,
        inside: &Interior,
        gifts: &GiftTable,
        words: &Words,
        told: &mut Told,
    ) -> Result<(), Memory>
        ensures { OnOk result (told.new ≡ step_tells words.now self.now.naming.vat self.now.naming.mails inside.now (drop self.now.gifts gifts.now) told.old) }
    {
        self.tell_events(&inside.refs, &inside.micro.events, told)?;
        self.tell_puts(words, inside.post.puts(), told)?;
        self.tell_gifts(words, gifts, told)
    }

    /// How much the vat had of each as the step left it.
    fn count(&mut self, inside: &Interior, gifts: &GiftTable)
        ensures { self.new ≡ counted inside.now gifts.now self.old }
    {
        self.promises = inside.refs.promises();
        self.messages = inside.refs.messages();
        self.gifts = gifts.len();
    }

    /// What a step makes of the names that left the inside so.
    fn step(
        &mut self,
        inside: &Interior,
        gifts: &GiftTable,
        words: &Words,
        carried: Option<Msg>,
        told: Told,
    ) -> Result<(), Memory>
        ensures { OnOk result (self.new ≡ stepped words.now carried told inside.now gifts.now self.old) }
    {
        let mut told = told;
        self.mail_carried(carried)?;
        self.mail_own(inside.refs.messages())?;
        self.tell_step(inside, gifts, words, &mut told)?;
        self.fill(&told, inside.refs.count())?;
        self.count(inside, gifts);
        Ok(())
    }

    /// The names after a step that left the vat so. A note brought that message, if one, and told those numbers.
    ///
    /// Names of earlier steps stay as they are. The new ones are those of the machine's step in numbers, printed by the words that are
    /// drawn now; nothing is asked of the numbers that the step tells: one that is not there is called what the machine calls it.
    pub fn after_step(
        &mut self,
        host: &Host,
        words: &Words,
        carried: Option<Msg>,
        told: Told,
    ) -> Result<(), Memory>
        ensures names { (w : World) → w.before.outbox ≡ [] → w.before.happened ≡ [] → (brought : List Local) → Says words.now told brought
            → OnOk result (self.new.naming.names ≡ self.old.naming.names ++ map (printed words.now) (new_names self.old (mails_of self.new.naming.mails) brought (with_gifts host.now.gifts (vat_of w host.now.inside)))) }
        ensures stands { (w : World) → w.before.outbox ≡ [] → w.before.happened ≡ [] → (brought : List Local) → Says words.now told brought → (t : Names) → Stands words.now t self.old → (before : Vat Number) → Counts before self.old
            → OnOk result (Stands words.now (names_after self.old.naming.vat t before (mails_of (carried_mails carried)) brought (with_gifts host.now.gifts (vat_of w host.now.inside))) self.new) }
        ensures counts { (w : World) → OnOk result (Counts (with_gifts host.now.gifts (vat_of w host.now.inside)) self.new) }
        ensures mails { OnOk result (self.new.naming.mails ≡ (self.old.naming.mails ++ carried_mails carried) ++ own_messages self.old.naming.vat self.old.messages (host.now.inside.refs.messages - self.old.messages)) }
        ensures vat { OnOk result (self.new.naming.vat ≡ self.old.naming.vat) }
        ensures objects { OnOk result (self.new.naming.objects ≡ self.old.naming.objects) }
    {
        self.step(&host.inside, &host.gifts, words, carried, told)?;
        Ok(())
    }
}
