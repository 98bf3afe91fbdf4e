//! A text that several may hold.

ghost use Rattle.std.specs.Prelude.{◌≡◌, List, ℕ, IfOk, length, Bool};
ghost use Rattle.std.specs.Str.{bytes_eq};

use crate::{Memory, Str};
use std::alloc::Global;
use std::marker::Model;
use std::rc::Rc;

/// A text in UTF-8 that several may hold, and that never changes. Contracts see the list of its bytes.
pub struct Text {
    text: Rc<Str>,
}

impl Drop for Text {
    fn drop(self) {
        let Self { text: _text } = self;
    }
}

impl Model for Text {
    ghost Value = { List ℕ };

    ghost view = { λ t. t.text.value };
}

impl Text {
    /// This text, which several may now hold.
    pub fn of(alloc: Global, text: Str) -> Result<Text, Memory>
        ensures { IfOk result (λ shared. shared ≡ text) }
    {
        Ok(Text {
            text: Rc::new(alloc, text)?,
        })
    }

    /// A copy of a text.
    pub fn copy_of(alloc: Global, text: &str) -> Result<Text, Memory>
        ensures { IfOk result (λ copy. copy ≡ text.now) }
    {
        let text = Str::copy_of(alloc, text)?;
        Text::of(alloc, text)
    }

    /// The same text, for one more holder.
    pub fn share(&self) -> Result<Text, Memory>
        ensures { IfOk result (λ shared. shared ≡ self.now) }
    {
        let text = self.text.clone()?;
        Ok(Text { text })
    }

    /// The text, lent.
    pub fn as_str(&self) -> &str
        ensures { result.now ≡ self.now }
    {
        Rc::as_ref(&self.text).as_str()
    }

    /// How many bytes there are.
    pub fn len(&self) -> usize
        ensures { result ≡ length self.now }
    {
        self.as_str().len()
    }
}
