//! What the text of a history tells of it, and the text of the run of a script of that run.
#![tactic(auto)]

pub mod histories;
pub mod kinds;
pub mod lines;
pub mod names;
pub mod values;
pub mod words;

ghost use Rattle.law_text.specs.RunTexts.Laws.{TextsTellRunsOfScripts};

// Text runs.

/// Two runs of scripts with the same vats that have one text have histories that are alike, event by
/// event, and both go to their ends or stop by one line. Of texts without frames it is said of all
/// events but these.
///
/// The names of the vats differ and are of letters, digits, `_` and what is not ASCII; each program is
/// a kernel tree of texts shorter than 2^64, of a vat that knows vats of the script, and the entries
/// are of these and fewer than 2^64. Of the runs it is asked that no vat made 2^64 things by their
/// ends, lists counted with their members, and that fewer words were drawn.
pub fn texts_tell_runs_of_scripts()
    ensures { TextsTellRunsOfScripts }
{}
