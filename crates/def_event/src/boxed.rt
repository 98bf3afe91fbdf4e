//! A value that lies in memory of its own, so that what holds it stays small.

ghost use Rattle.std.specs.Prelude.{◌≡◌, IfOk};

use ev_base::Memory;
use std::alloc::Global;
use std::marker::Model;

/// A value in memory of its own. Contracts see the value.
pub struct Boxed<T> {
    place: Box<T>,
}

impl<T: Drop> Drop for Boxed<T> {
    fn drop(self) {
        let Self { place: _place } = self;
    }
}

impl<T> Model for Boxed<T> {
    ghost Value = { T };

    ghost view = { λ b. b.place.value };
}

impl<T> Boxed<T> {
    /// Puts a value into memory of its own.
    pub fn new(alloc: Global, value: T) -> Result<Boxed<T>, Memory>
    where
        T: Drop,
        ensures { IfOk result (λ b. b ≡ value) }
    {
        let place = Box::new(alloc, value)?;
        Ok(Boxed { place })
    }

    /// The value, lent.
    pub fn get(&self) -> &T
        ensures { result.now ≡ self.now }
    {
        &self.place
    }
}
