//! The names that the numbers of a vat stand for.

ghost use Rattle.std.specs.Prelude.{◌≡◌, ◌++◌, ◌∷◌, [], OnErr, OnOk, length, replicate, slice_get};
ghost use Rattle.ev_step_lines.specs.Lines.{mail_at, name_at, no_names, object_at, with_import};

use ev_base::{Memory, Msg, MsgId, Name, PromId, Seq, VatId};
use std::alloc::Global;
use std::marker::Model;

/// The names that a vat knows and the messages that it has had, by their numbers there, and the objects of other vats by their positions.
/// A number that is not there reads as the vat's root, as a message of its own, or as the object of that number.
pub struct Table {
    vat: VatId,
    names: Seq<Name>,
    mails: Seq<Msg>,
    objects: Vec<Seq<u64>>,
}

impl Drop for Table {
    fn drop(self) {
        let Self {
            vat: _,
            names: _names,
            mails: _mails,
            objects: _objects,
        } = self;
    }
}

impl Model for Table {
    ghost use Rattle.ev_step_lines.specs.Lines.{Naming};

    ghost Value = { Naming };

    ghost view = { λ t. record { vat = t.vat; names = t.names; mails = t.mails; objects = t.objects.items } };
}

impl Table {
    /// The table of a vat that knows no name.
    pub fn new(alloc: Global, vat: VatId) -> Table
        ensures { result ≡ no_names vat }
    {
        Table {
            vat,
            names: Seq::new(alloc),
            mails: Seq::new(alloc),
            objects: Vec::new(alloc),
        }
    }

    /// Makes room for what so many vats export.
    pub fn open(&mut self, alloc: Global, vats: u8) -> Result<(), Memory>
        ensures { OnOk result (self.new ≡ record self.old { objects = self.old.objects ++ replicate vats [] }) }
    {
        for _ in 0..vats {
            if let Err(_full) = self.objects.push(Seq::new(alloc)) {
                return Err(Memory);
            }
        }
        Ok(())
    }

    /// What that vat exported comes to stand at the next position: that object, or any number for a promise. A vat for which there is no
    /// room is answered as want of memory. A refusal changes nothing.
    pub fn import(&mut self, host: VatId, object: u64) -> Result<(), Memory>
        ensures ok { OnOk result (self.new ≡ with_import host object self.old) }
        ensures err { OnErr result (self.new ≡ self.old) }
    {
        match self.objects.get_mut(host.0 as usize) {
            Some(objects) => objects.push(object),
            None => Err(Memory),
        }
    }

    /// Which object of that vat stands at a position.
    pub fn object(&self, host: VatId, position: u64) -> u64
        ensures { result ≡ object_at self.now host position }
    {
        let Some(objects) = self.objects.get(host.0 as usize) else {
            return position;
        };
        let Ok(index) = usize::try_from(position) else {
            return position;
        };
        match objects.as_slice().get(index) {
            Some(object) => *object,
            None => position,
        }
    }

    /// The next name that the vat comes to know. A refusal changes nothing.
    pub fn learn(&mut self, name: Name) -> Result<(), Memory>
        ensures ok { OnOk result (self.new ≡ record self.old { names = self.old.names ++ name ∷ [] }) }
        ensures err { OnErr result (self.new ≡ self.old) }
    {
        self.names.push(name)
    }

    /// The next message that comes to be there. A refusal changes nothing.
    pub fn mail(&mut self, message: Msg) -> Result<(), Memory>
        ensures ok { OnOk result (self.new ≡ record self.old { mails = self.old.mails ++ message ∷ [] }) }
        ensures err { OnErr result (self.new ≡ self.old) }
    {
        self.mails.push(message)
    }

    /// How many names the vat knows.
    pub fn count(&self) -> u64
        ensures { result ≡ length self.now.names }
    {
        self.names.len() as u64
    }

    /// The vat whose lines these are.
    pub fn vat(&self) -> VatId
        ensures { result ≡ self.now.vat }
    {
        self.vat
    }

    /// What a name of that number is called.
    pub fn name(&self, number: PromId) -> Name
        ensures { result ≡ name_at self.now number }
    {
        let Ok(index) = usize::try_from(number.0) else {
            return Name::Root(self.vat);
        };
        match self.names.as_slice().get(index) {
            Some(name) => *name,
            None => Name::Root(self.vat),
        }
    }

    /// The message of that number, where there is one.
    pub fn mailed(&self, number: MsgId) -> Option<Msg>
        ensures { result ≡ slice_get self.now.mails number }
    {
        let index = usize::try_from(number.0).ok()?;
        self.mails.as_slice().get(index).copied()
    }

    /// What a message of that number is called.
    pub fn message(&self, number: MsgId) -> Msg
        ensures { result ≡ mail_at self.now number }
    {
        let own = Msg {
            sender: self.vat,
            number: number.0,
        };
        let Ok(index) = usize::try_from(number.0) else {
            return own;
        };
        match self.mails.as_slice().get(index) {
            Some(message) => *message,
            None => own,
        }
    }
}
