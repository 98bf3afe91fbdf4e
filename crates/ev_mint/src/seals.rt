//! Brands, and boxes that were sealed with them.

ghost use Rattle.std.specs.Prelude.{◌≡◌, ◌+◌, ◌-◌, ◌^◌, ◌<◌, length, IfOk, OnOk, OnErr};
ghost use Rattle.ev_mint.specs.Seals.{branded, none_made, sealed, unsealed};

use ev_base::{Memory, Value};
use std::alloc::Global;
use std::marker::Model;

/// What a box holds, and the brand that sealed it.
#[derive(Clone, Copy, PartialEq, Eq)]
struct Sealed {
    brand: u64,
    content: Value,
}

/// Brands and boxes, each numbered from 0 in the order of making.
#[derive(Drop)]
pub struct Seals {
    brands: u64,
    boxes: Vec<Sealed>,
}

impl Model for Seals {
    ghost use Rattle.std.specs.Prelude.{map};
    ghost use Rattle.ev_mint.specs.Seals.{Made};

    ghost Value = { Made };

    ghost view = { λ s. record { brands = s.brands; boxes = map (λ b. (b.brand, b.content)) s.boxes.items } };
}

impl Seals {
    /// No brands and no boxes. It takes no memory.
    pub fn new(alloc: Global) -> Seals
        ensures { result ≡ none_made }
    {
        Seals {
            brands: 0,
            boxes: Vec::new(alloc),
        }
    }

    /// How many brands were made. It takes no memory.
    pub fn brands(&self) -> u64
        ensures { result ≡ self.now.brands }
    {
        self.brands
    }

    /// How many boxes were made. It takes no memory.
    pub fn boxes(&self) -> u64
        ensures { result ≡ length self.now.boxes }
    {
        self.boxes.len() as u64
    }

    /// Makes a brand, and gives its number. It takes no memory.
    pub fn brand(&mut self) -> u64
        requires { self.now.brands < 2 ^ 64 - 1 }
        ensures number { result ≡ self.old.brands }
        ensures after { self.new ≡ branded self.old }
    {
        let number = self.brands;
        self.brands = number + 1;
        number
    }

    /// Seals a value in a new box with a brand, and gives the number of the box. A refusal changes nothing.
    pub fn seal(&mut self, brand: u64, content: Value) -> Result<u64, Memory>
        requires { brand < self.now.brands }
        ensures number { IfOk result (λ number. number ≡ length self.old.boxes) }
        ensures ok { OnOk result (self.new ≡ sealed brand content self.old) }
        ensures err { OnErr result (self.new ≡ self.old) }
    {
        let number = self.boxes.len() as u64;
        self.boxes.push(Sealed { brand, content })?;
        Ok(number)
    }

    /// What a box holds, where it was sealed with this brand. It takes no memory.
    pub fn unseal(&self, brand: u64, number: u64) -> Option<Value>
        requires { number < length self.now.boxes }
        ensures { result ≡ unsealed brand number self.now }
    {
        match self.boxes.get(number as usize) {
            Some(sealed) if sealed.brand == brand => Some(sealed.content),
            _ => None,
        }
    }
}
