//! What is told of the messages of worked histories, by computing.
#![tactic(auto)]

ghost use Rattle.test_see.specs.Introduction.{IntroductionIsTold, MiddleIsTold};

/// The messages of an introduction, and those of its first entries.
#[tactic(auto, unfolding(crate::specs::Introduction::opened_introduction))]
pub fn introduction_is_told()
    ensures whole { IntroductionIsTold }
    ensures middle { MiddleIsTold }
{}
