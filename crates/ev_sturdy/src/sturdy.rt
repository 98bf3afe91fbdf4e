//! The host's objects, and the connections of host and guest one after the other.

ghost use Rattle.std.specs.Prelude.{◌≡◌, ◌+◌, true, not, None, IfOk, IfErr, OnOk, OnErr, if◌then◌else◌};
ghost use Rattle.ev_sturdy.specs.Kept.{IsConnectFault, IsRegisterFault, IsShowFault, IsShown, connects, cuts, digest, generation, is_noticed_by, is_over, may_notice, notices, object_shown, opened, owner, registers, used, used_now};

use ev_base::Memory;
use indexmap::{IndexMap, IndexSet};
use sha2::{Digest, Sha256};
use std::alloc::Global;
use std::marker::Model;

/// The two sides of a connection.
#[derive(Clone, Copy, PartialEq, Eq)]
pub enum Side {
    Host,
    Guest,
}

/// What the use of a reference comes to.
#[derive(Clone, Copy, PartialEq, Eq)]
pub enum Used {
    /// It reaches this object.
    Object(u32),
    /// Its connection is cut, and the guest has not noticed it.
    Lost,
    /// Its connection is over for the guest.
    Broken,
    /// There is no such reference.
    Nothing,
}

/// Why nothing was done.
#[derive(Clone, Copy, PartialEq, Eq)]
pub enum SturdyFault {
    /// This object was registered under the same digest.
    Taken(u32),
    /// This connection is not over for both sides.
    Open(u64),
    /// There is no connection, or it is cut.
    Down,
    /// No object is registered under this digest.
    Unknown,
    Memory,
}

impl From<Memory> for SturdyFault {
    ghost use Rattle.std.specs.Prelude.{◌≡◌};
    ghost use Rattle.ev_sturdy.specs.declared.sturdy.SturdyFault.TheVariants.{Memory as NoMemory};

    ghost from_gives = { λ _ e. e ≡ NoMemory };

    fn from(_error: Memory) -> SturdyFault {
        SturdyFault::Memory
    }
}

/// The objects of a host, and what became of its connections with a guest.
#[derive(Drop)]
pub struct Sturdy {
    objects: IndexMap<[u8; 32], u32>,
    /// How many objects were shown in each earlier connection, the time before the first being one too.
    earlier: Vec<u64>,
    /// The objects shown in this connection, in the order in which each was first shown.
    shown: IndexSet<u32>,
    is_cut: bool,
    is_noticed_by_host: bool,
    is_noticed_by_guest: bool,
}

impl Model for Sturdy {
    ghost use Rattle.ev_sturdy.specs.Kept.{Kept};

    ghost Value = { Kept };

    ghost view = { λ s. record {
      objects = s.objects.entries;
      earlier = s.earlier.items;
      shown = s.shown.keys;
      is_cut = s.is_cut;
      is_noticed_by_host = s.is_noticed_by_host;
      is_noticed_by_guest = s.is_noticed_by_guest;
    } };
}

/// The digest under which the object of a number is found.
fn digest_of(swiss: u128) -> [u8; 32]
    ensures { result ≡ digest swiss }
{
    Sha256::digest(swiss.to_le_bytes())
}

impl Sturdy {
    /// No objects, and no connection. It takes no memory.
    pub fn new(alloc: Global) -> Sturdy
        ensures { result ≡ opened }
    {
        Sturdy {
            objects: IndexMap::new(alloc),
            earlier: Vec::new(alloc),
            shown: IndexSet::new(alloc),
            is_cut: true,
            is_noticed_by_host: true,
            is_noticed_by_guest: true,
        }
    }

    /// The object that was registered under the digest of a number.
    fn owner(&self, swiss: u128) -> Option<u32>
        ensures { result ≡ owner swiss self.now }
    {
        self.objects.get(&digest_of(swiss)).copied()
    }

    /// How many connections were made.
    pub fn generation(&self) -> u64
        ensures { result ≡ generation self.now }
    {
        self.earlier.len() as u64
    }

    /// Adds an object under the digest of a number, which no object has. A refusal changes nothing.
    fn add(&mut self, swiss: u128, object: u32) -> Result<(), Memory>
        requires { owner swiss self.now ≡ None }
        ensures ok { OnOk result (self.new ≡ registers swiss object self.old) }
        ensures err { OnErr result (self.new ≡ self.old) }
    {
        let key = digest_of(swiss);
        self.objects.insert(key, object)?;
        Ok(())
    }

    /// Registers an object under the digest of a number. A refusal changes nothing.
    pub fn register(&mut self, swiss: u128, object: u32) -> Result<(), SturdyFault>
        ensures ok { OnOk result ((owner swiss self.old ≡ None) × (self.new ≡ registers swiss object self.old)) }
        ensures fault { IfErr result (λ e. IsRegisterFault (owner swiss self.old) e) }
        ensures err { OnErr result (self.new ≡ self.old) }
    {
        if let Some(earlier) = self.owner(swiss) {
            return Err(SturdyFault::Taken(earlier));
        }
        self.add(swiss, object)?;
        Ok(())
    }

    /// Connects host and guest, where the last connection is over for both, and gives the number of the connection. A refusal
    /// changes nothing.
    pub fn connect(&mut self) -> Result<u64, SturdyFault>
        ensures ok { IfOk result (λ number. (is_over self.old ≡ true) × (number ≡ generation self.old + 1) × (self.new ≡ connects self.old)) }
        ensures fault { IfErr result (λ e. IsConnectFault self.old (is_over self.old) e) }
        ensures err { OnErr result (self.new ≡ self.old) }
    {
        if !(self.is_noticed_by_host && self.is_noticed_by_guest) {
            return Err(SturdyFault::Open(self.generation()));
        }
        if self.earlier.push(self.shown.len() as u64).is_err() {
            return Err(SturdyFault::Memory);
        }
        self.shown.clear();
        self.is_cut = false;
        self.is_noticed_by_host = false;
        self.is_noticed_by_guest = false;
        Ok(self.generation())
    }

    /// The object that a number shows.
    fn object_shown(&self, swiss: u128) -> Result<u32, SturdyFault>
        ensures { result ≡ object_shown swiss self.now }
    {
        if self.is_cut {
            return Err(SturdyFault::Down);
        }
        match self.owner(swiss) {
            Some(object) => Ok(object),
            None => Err(SturdyFault::Unknown),
        }
    }

    /// Gives a reference to the object of a number: the connection's number, and the rank of the object among those first shown in
    /// it. A refusal changes nothing.
    pub fn show(&mut self, swiss: u128) -> Result<(u64, u64), SturdyFault>
        ensures ok { IfOk result (λ reference. IsShown (object_shown swiss self.old) reference self.old self.new) }
        ensures fault { IfErr result (λ e. IsShowFault (object_shown swiss self.old) e) }
        ensures err { OnErr result (self.new ≡ self.old) }
    {
        let object = self.object_shown(swiss)?;
        match self.shown.insert_full(object) {
            Ok((rank, _)) => Ok((self.generation(), rank as u64)),
            Err(_) => Err(SturdyFault::Memory),
        }
    }

    /// Cuts the connection, if it is not cut, and tells whether it was. It takes no memory.
    pub fn cut(&mut self) -> bool
        ensures answer { result ≡ not self.old.is_cut }
        ensures after { self.new ≡ cuts self.old }
    {
        let was_whole = !self.is_cut;
        self.is_cut = true;
        was_whole
    }

    /// Whether a side has noticed the cut.
    fn has_noticed(&self, side: Side) -> bool
        ensures { result ≡ is_noticed_by side self.now }
    {
        match side {
            Side::Host => self.is_noticed_by_host,
            Side::Guest => self.is_noticed_by_guest,
        }
    }

    /// A side notices the cut, if there is one that it has not noticed, and it is told whether it was so. It takes no memory.
    pub fn notice(&mut self, side: Side) -> bool
        ensures answer { result ≡ may_notice side self.old }
        ensures after { self.new ≡ (if may_notice side self.old then notices side self.old else self.old) }
    {
        if !self.is_cut || self.has_noticed(side) {
            return false;
        }
        match side {
            Side::Host => self.is_noticed_by_host = true,
            Side::Guest => self.is_noticed_by_guest = true,
        }
        true
    }

    /// What the use of a reference of this connection comes to, by the object that was shown at its rank.
    fn follow_now(&self, object: Option<u32>) -> Used
        ensures { result ≡ used_now self.now object }
    {
        match object {
            None => Used::Nothing,
            Some(_) if self.is_noticed_by_guest => Used::Broken,
            Some(_) if self.is_cut => Used::Lost,
            Some(object) => Used::Object(object),
        }
    }

    /// What the use of a reference comes to: one of this connection or of an earlier one. It takes no memory.
    pub fn follow(&self, generation: u64, position: u64) -> Used
        ensures { result ≡ used generation position self.now }
    {
        if generation == self.generation() {
            return self.follow_now(self.shown.get_index(position as usize).copied());
        }
        match self.earlier.get(generation as usize) {
            Some(count) if position < *count => Used::Broken,
            _ => Used::Nothing,
        }
    }
}
