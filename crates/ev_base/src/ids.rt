//! Numbers of things. A clause sees each as its number.

use std::marker::Model;

/// The place of a vat in its script, from 0 to 15.
#[derive(Clone, Copy, PartialEq, Eq, Hash)]
pub struct VatId(pub u8);

impl Model for VatId {
    ghost use Rattle.std.specs.Prelude.{ℕ};

    ghost Value = { ℕ };

    ghost view = { λ id. id.0 };

    ghost inverse = { λ n. record { 0 = n } };
}

/// The number of a primitive of the safe scope.
#[derive(Clone, Copy, PartialEq, Eq)]
pub struct PrimId(pub u8);

impl Model for PrimId {
    ghost use Rattle.std.specs.Prelude.{ℕ};

    ghost Value = { ℕ };

    ghost view = { λ id. id.0 };

    ghost inverse = { λ n. record { 0 = n } };
}

/// The number of an object, ejector, resolver or audition in the heap of its vat.
#[derive(Clone, Copy, PartialEq, Eq)]
pub struct ObjId(pub u64);

impl Model for ObjId {
    ghost use Rattle.std.specs.Prelude.{ℕ};

    ghost Value = { ℕ };

    ghost view = { λ id. id.0 };

    ghost inverse = { λ n. record { 0 = n } };
}

/// The number of a name of a promise or a far reference in its vat, by the order in which the vat came to know it.
#[derive(Clone, Copy, PartialEq, Eq)]
pub struct PromId(pub u64);

impl Model for PromId {
    ghost use Rattle.std.specs.Prelude.{ℕ};

    ghost Value = { ℕ };

    ghost view = { λ id. id.0 };

    ghost inverse = { λ n. record { 0 = n } };
}

/// The number of a var slot in the heap of its vat.
#[derive(Clone, Copy)]
pub struct SlotId(pub u64);

impl Model for SlotId {
    ghost use Rattle.std.specs.Prelude.{ℕ};

    ghost Value = { ℕ };

    ghost view = { λ id. id.0 };

    ghost inverse = { λ n. record { 0 = n } };
}

/// The number of a list in the heap of its vat.
#[derive(Clone, Copy, PartialEq, Eq)]
pub struct ListId(pub u64);

impl Model for ListId {
    ghost use Rattle.std.specs.Prelude.{ℕ};

    ghost Value = { ℕ };

    ghost view = { λ id. id.0 };

    ghost inverse = { λ n. record { 0 = n } };
}

/// The number of a text in the heap of its vat.
#[derive(Clone, Copy, PartialEq, Eq)]
pub struct TextId(pub u64);

impl Model for TextId {
    ghost use Rattle.std.specs.Prelude.{ℕ};

    ghost Value = { ℕ };

    ghost view = { λ id. id.0 };

    ghost inverse = { λ n. record { 0 = n } };
}

/// The number of a message in its vat.
#[derive(Clone, Copy)]
pub struct MsgId(pub u64);

impl Model for MsgId {
    ghost use Rattle.std.specs.Prelude.{ℕ};

    ghost Value = { ℕ };

    ghost view = { λ id. id.0 };

    ghost inverse = { λ n. record { 0 = n } };
}

/// The number of an activation of its vat.
#[derive(Clone, Copy)]
pub struct ActId(pub u64);

impl Model for ActId {
    ghost use Rattle.std.specs.Prelude.{ℕ};

    ghost Value = { ℕ };

    ghost view = { λ id. id.0 };

    ghost inverse = { λ n. record { 0 = n } };
}

/// The number of a node in its kernel tree.
#[derive(Clone, Copy, Debug)]
pub struct NodeId(pub u64);

impl Model for NodeId {
    ghost use Rattle.std.specs.Prelude.{ℕ};

    ghost Value = { ℕ };

    ghost view = { λ id. id.0 };

    ghost inverse = { λ n. record { 0 = n } };
}
