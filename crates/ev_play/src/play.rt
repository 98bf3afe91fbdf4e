//! What a play is.

use ev_base::{Seq, VatId};
use ev_script::{Entry, Script};

/// One thing that is done in a play.
#[derive(Drop)]
pub enum Doing {
    /// An entry as of every script.
    Does(Entry),
    /// A frame of any bytes is put on the link of two vats.
    Inject {
        /// The vat that says it, which is hostile.
        from: VatId,
        /// The vat to which it goes.
        to: VatId,
        /// The bytes, from 1 to 4,096 of them.
        bytes: Seq<u8>,
    },
}

/// A script with the vats of it that are hostile, and what is done in the place of its schedule.
pub struct Play {
    /// The script. Its schedule has the entries of what is done, without the frames that are injected.
    pub script: Script,
    /// The vats that are hostile, each once, in the order in which they are named.
    pub hostile: Seq<VatId>,
    /// What is done, one after another: at most 100,000, drains written out.
    pub doings: Seq<Doing>,
}

impl Drop for Play {
    fn drop(self) {
        let Self {
            script: _script,
            hostile: _hostile,
            doings: _doings,
        } = self;
    }
}
