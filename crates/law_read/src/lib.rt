//! What the texts of scripts and histories are read as, and that scripts which are generated are read.
#![tactic(auto)]

pub mod astray;
pub mod frames;
pub mod runs;
pub mod scripts;
pub mod telling;
pub mod texts;

ghost use Rattle.law_read.specs.Generated.Accepted.{GeneratedScriptsAreLong, GeneratedScriptsAreRead};
ghost use Rattle.law_read.specs.ReadOrder.Order.{OrderIsKeptAsRead, TextsKeepOrder};
ghost use Rattle.law_read.specs.ReadUses.Uses.{TextsHoldUses, UsesAreJudgedAsRead};

// Read.

// Read uses.

/// The history that is read of the text of the run of a script that is read, of programs that are read, is judged as the
/// history of the machine's run: each of the four points of what a line may use holds of each line of the one exactly if it
/// does of each of the other.
pub fn uses_are_judged_as_read()
    ensures { UsesAreJudgedAsRead }
{}

/// In the history of the run of a script that is read, of programs that are read, and in what is read of its text, the judge
/// of uses finds no line that fails: each line uses only what is known, by the lines before it, to who uses it, calls give
/// back what is known, and messages are taken and carried with what they were sent with. So it is of a run that stops, too.
pub fn texts_hold_uses()
    ensures { TextsHoldUses }
{}

// Read order.

/// Where the history of the run of a script that is read, of programs that are read, is in order as the judge of texts has
/// it, so is what is read of the text of the run, also of a run that stops.
pub fn order_is_kept_as_read()
    ensures { OrderIsKeptAsRead }
{}

/// Where the run of a script that is read, of programs that are read, is in order as the machine has it, the judge of order
/// finds no message that is taken too early, neither in the history of the run nor in what is read of its text. So it is of
/// a run that stops, too.
pub fn texts_keep_order()
    ensures { TextsKeepOrder }
{}

// Generated.

/// The bytes of the script that is generated for a number of at most 3,000 break no rule, and what they are read to is told by the number:
/// its key, three vats, and the chosen entries with so many rounds behind them.
pub fn generated_scripts_are_read()
    ensures { GeneratedScriptsAreRead }
{}

/// That script has three vats and, drains written out, 28 times the number and 90 entries.
pub fn generated_scripts_are_long()
    ensures { GeneratedScriptsAreLong }
{}
