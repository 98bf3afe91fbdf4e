//! What is told of a script, before any rule of scripts is asked.

use ev_base::{Seq, Str};

/// What is told of a vat.
pub struct ToldVat {
    pub name: Str,
    /// The names of the vats that it knows.
    pub knows: Seq<Str>,
    pub source: Str,
}

impl Drop for ToldVat {
    fn drop(self) {
        let Self {
            name: _name,
            knows: _knows,
            source: _source,
        } = self;
    }
}

/// What is told of a script.
pub struct Told {
    /// The key, in its digits.
    pub key: Str,
    /// The fuel, where it is told.
    pub fuel: Option<u64>,
    pub vats: Seq<ToldVat>,
    /// The entries, as they are spelled.
    pub schedule: Seq<Str>,
}

impl Drop for Told {
    fn drop(self) {
        let Self {
            key: _key,
            fuel: _,
            vats: _vats,
            schedule: _schedule,
        } = self;
    }
}
