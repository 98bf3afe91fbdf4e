//! Words are told apart as texts are.

ghost use Rattle.std.specs.Prelude.{◌≡◌};
ghost use Rattle.def_machine.specs.Free.{same_words};

/// Whether a word is this one. The clause keeps both as texts; a test by `==` where it is used becomes one on each byte.
#[tactic(auto, using(crate::proofs::Told::same_turned))]
pub(crate) fn is_word(word: &str, name: &str) -> bool
    ensures { result ≡ same_words name.now word.now }
{
    word == name
}
