//! What a frame brings besides its note.

ghost use Rattle.std.specs.Prelude.{◌≡◌};
ghost use Rattle.ev_wire.specs.Hearing.{no_news};

use crate::learnt::LearntTable;
use ev_arrive::Heard;
use ev_base::{Seq, Str, Value};
use ev_pass::Interior;

/// What comes to be had by a frame. Nothing of it is there until it is taken in.
pub struct News {
    /// What comes to stand at the next positions.
    pub imports: Seq<Value>,
    /// The gifts that are learnt, with the names that they come to have.
    pub gifts: LearntTable,
    /// The texts that come to be kept, with the next numbers.
    pub texts: Seq<Str>,
    /// How many names are known by then.
    pub known: u64,
}

impl Drop for News {
    fn drop(self) {
        let Self {
            imports: _imports,
            gifts: _gifts,
            texts: _texts,
            known: _,
        } = self;
    }
}

impl News {
    /// What is there before a frame is read: nothing but the names that the vat knows.
    pub fn new(inside: &Interior) -> News
        ensures { result ≡ no_news inside.now }
    {
        News {
            imports: Seq::new(inside.alloc),
            gifts: LearntTable::new(inside.alloc),
            texts: Seq::new(inside.alloc),
            known: inside.refs.count(),
        }
    }
}

/// A note that was heard, and what its frame brings besides.
#[derive(Drop)]
pub struct Hearing {
    pub note: Heard,
    pub news: News,
}
