//! A list that several may hold.

ghost use Rattle.std.specs.Prelude.{◌≡◌, List, length, IfOk};

use ev_base::{Memory, Seq};
use std::alloc::Global;
use std::marker::Model;
use std::rc::Rc;

/// A list that several may hold, and that never changes. Contracts see the list of its items.
pub struct Shared<T> {
    items: Rc<Seq<T>>,
}

impl<T: Drop> Drop for Shared<T> {
    fn drop(self) {
        let Self { items: _items } = self;
    }
}

impl<T> Model for Shared<T> {
    ghost Value = { List T };

    ghost view = { λ s. s.items.value };
}

impl<T> Shared<T>
where
    T: Drop,
{
    /// This list, which several may now hold.
    pub fn of(alloc: Global, items: Seq<T>) -> Result<Shared<T>, Memory>
        ensures { IfOk result (λ shared. shared ≡ items) }
    {
        Ok(Shared {
            items: Rc::new(alloc, items)?,
        })
    }

    /// The same list, for one more holder.
    pub fn share(&self) -> Result<Shared<T>, Memory>
        ensures { IfOk result (λ shared. shared ≡ self.now) }
    {
        let items = self.items.clone()?;
        Ok(Shared { items })
    }

    /// How many items there are.
    pub fn len(&self) -> usize
        ensures { result ≡ length self.now }
    {
        Rc::as_ref(&self.items).len()
    }

    /// The items, lent in order.
    pub fn as_slice(&self) -> &[T]
        ensures { result.now ≡ self.now }
    {
        Rc::as_ref(&self.items).as_slice()
    }
}
