//! Which lines are about which message or name.

ghost use Rattle.std.specs.Prelude.{◌≡◌, ℕ, List, [], ◌++◌, IfOk, OnOk, map, filter, bytes_eq, string_bytes};
ghost use Rattle.std.specs.Option.{option_map_or};
ghost use Rattle.std.specs.HashMap.{get_by_text};
ghost use Rattle.def_see.specs.Lines.{about, life, subjects_from};
ghost use Rattle.def_see.specs.Words.{subject};
ghost use Rattle.ev_see_lives.specs.Lives.{numbers_of, spelled};

use def_see::Line;
use ev_base::{Memory, Str};
use ev_see_words::subject;
use std::alloc::Global;
use std::collections::HashMap;

/// The numbers of the lines about each message and each name, in order.
pub struct Lives {
    numbers: HashMap<String, Vec<usize>>,
}

impl Drop for Lives {
    fn drop(self) {
        let Self { numbers: _numbers } = self;
    }
}

/// Adds what a line is about, with its number, where it is about something.
#[tactic(auto, using(crate::proofs::LifeLemmas::pair_pushed, crate::proofs::LifeLemmas::none_pushed))]
fn add_subject(
    alloc: Global,
    pairs: &mut Vec<(String, usize)>,
    words: &[Str],
    number: usize,
) -> Result<(), Memory>
    ensures { OnOk result (map spelled pairs.new.items ≡ map spelled pairs.old.items ++ about (subject words.now) number) }
{
    let Some(name) = subject(words) else {
        return Ok(());
    };
    pairs.push((String::from_str(alloc, name)?, number))?;
    Ok(())
}

/// What each line is about, with its number.
fn subjects(alloc: Global, lines: &[Line]) -> Result<Vec<(String, usize)>, Memory>
    ensures { IfOk result (λ pairs. map spelled pairs.items ≡ subjects_from 0 lines.now) }
{
    let mut pairs = Vec::new(alloc);
    for (number, line) in lines.iter().enumerate() {
        add_subject(alloc, &mut pairs, line.words.as_slice(), number)?;
    }
    Ok(pairs)
}

/// The numbers of each name, in order.
fn grouped(alloc: Global, pairs: &[(String, usize)]) -> Result<HashMap<String, Vec<usize>>, Memory>
    ensures { IfOk result (λ groups. (q : List ℕ) → option_map_or (λ g. g.items) (get_by_text groups q) [] ≡ map (λ p. p.1) (filter (λ p. bytes_eq q (string_bytes p.0)) pairs.now)) }
{
    let mut groups: HashMap<String, Vec<usize>> = HashMap::new(alloc);
    for (name, number) in pairs {
        groups.entry(name.clone()?)?.or_default().push(*number)?;
    }
    Ok(groups)
}

impl Lives {
    /// The numbers of the lines about each message and name of these lines. Time grows with the lines.
    #[tactic(auto, unfolding(crate::specs::Lives::numbers_of))]
    pub fn of(alloc: Global, lines: &[Line]) -> Result<Lives, Memory>
        ensures { IfOk result (λ lives. (q : List ℕ) → numbers_of lives q ≡ life lines.now q) }
    {
        let pairs = subjects(alloc, lines)?;
        let numbers = grouped(alloc, &pairs)?;
        Ok(Lives { numbers })
    }

    /// The numbers of the lines about one of them.
    #[tactic(auto, unfolding(crate::specs::Lives::numbers_of))]
    pub fn life(&self, name: &str) -> &[usize]
        ensures { result.now ≡ numbers_of self.now name.now }
    {
        match self.numbers.get(name) {
            Some(numbers) => numbers.as_slice(),
            None => &[],
        }
    }
}
