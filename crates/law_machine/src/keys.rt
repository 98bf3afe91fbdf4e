//! The keys by which gifts are named.

ghost use Rattle.law_machine.specs.Machine.Laws.{KeysTell};

/// The key of a gift tells its provider and its word, and each number is the key of one provider and one word.
pub fn keys_tell()
    ensures { KeysTell }
{}
