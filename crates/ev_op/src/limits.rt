//! How great a list may be.

ghost use Rattle.std.specs.Prelude.{◌≡◌};
ghost use Rattle.def_op.specs.Reading.{free_room};

/// The greatest weight of a list.
pub const WEIGHT: usize = 65536;

/// How many lists may stand in each other.
pub const HEIGHT: u32 = 100;

/// The weight that a description round which no list stands may have.
pub fn free_room(bytes: &[u8]) -> usize
    ensures { result ≡ free_room bytes.now }
{
    match bytes.first() {
        None => 0,
        Some(6) => WEIGHT,
        Some(_) => bytes.len(),
    }
}
