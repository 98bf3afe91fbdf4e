//! The verbs of texts and lists.

ghost use Rattle.std.specs.Prelude.{◌≡◌};
ghost use Rattle.def_machine.specs.Free.{same_words};
ghost use Rattle.ev_prims.specs.Verbs.{list_verb_named, text_verb_named};

/// Whether a verb has this name. Its clause keeps the name as one text, and a test by `==` becomes one on each byte: for a long
/// name that is too much for the proofs of what a verb answers.
#[tactic(auto, using(crate::proofs::VerbLemmas::same_turned))]
pub(crate) fn is_verb(verb: &str, name: &str) -> bool
    ensures { result ≡ same_words name.now verb.now }
{
    verb == name
}

/// A verb of a text or a list with one argument.
#[derive(Clone, Copy)]
pub(crate) enum SeqVerb {
    /// The member at an index.
    Get,
    /// Another text or list behind it.
    Add,
    /// One more member behind it.
    With,
    Iterate,
}

/// The verb of a text that a verb is.
#[tactic(auto, unfolding(crate::specs::Verbs::text_verb_named))]
pub(crate) fn text_verb(verb: &str) -> Option<SeqVerb>
    ensures { result ≡ text_verb_named verb.now }
{
    match verb {
        "get" => Some(SeqVerb::Get),
        "add" => Some(SeqVerb::Add),
        "iterate" => Some(SeqVerb::Iterate),
        _ => None,
    }
}

/// The verb of a list that a verb is.
#[tactic(auto, unfolding(crate::specs::Verbs::list_verb_named))]
pub(crate) fn list_verb(verb: &str) -> Option<SeqVerb>
    ensures { result ≡ list_verb_named verb.now }
{
    match verb {
        "get" => Some(SeqVerb::Get),
        "add" => Some(SeqVerb::Add),
        "with" => Some(SeqVerb::With),
        "iterate" => Some(SeqVerb::Iterate),
        _ => None,
    }
}
