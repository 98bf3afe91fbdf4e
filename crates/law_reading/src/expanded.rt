//! What a text of E expands to is a kernel tree.

ghost use Rattle.law_reading.specs.Expansion.Expansions.{ExpandsToATree};
ghost use Rattle.law_reading.specs.Expansion.Laws.{PlacedIsATree, SpelledIsFair};

/// Law: a piece of the expansion that is one expression wherever it lies, placed as a tree of its own, is a kernel tree.
#[tactic(auto, using(crate::proofs::Expansion::Fitting::placed_tree))]
pub fn a_placed_piece_is_a_tree()
    ensures { PlacedIsATree }
{}

/// Law: in a tree that tokens spell, each part of a node is of the kind that the node's shape wants there.
#[tactic(auto, using(crate::proofs::Expansion::SpelledTrees::spelled_is_fair))]
pub fn what_is_spelled_is_fair()
    ensures { SpelledIsFair }
{}

/// Law: what a text in UTF-8 expands to is a kernel tree, where its tokens are spelled as their kinds say: its parts are of
/// the kinds that its nodes want, its names are identifiers, its verbs and texts are in UTF-8, its characters are those of
/// Unicode, and its integers are within 128 bits.
#[tactic(auto, using(crate::proofs::Expansion::Texts::expands_to_a_tree))]
pub fn what_a_text_expands_to_is_a_tree()
    ensures { ExpandsToATree }
{}
