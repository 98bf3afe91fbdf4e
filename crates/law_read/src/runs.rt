//! Texts of runs.

ghost use Rattle.law_read.specs.ReadTexts.Runs.{EventsOfRunsAreRead, TextsOfRunsAreRead};
ghost use Rattle.law_read.specs.ReadTexts.Scripts.{EventsOfReadScriptsAreRead, TextsOfReadScriptsAreRead};

/// Law: the line of each event of a run, but for frames, is read again: of kernel trees of texts shorter than 2^64, where no vat
/// made 2^64 things, lists counted with their members, and fewer words were drawn.
pub fn events_of_runs_are_read()
    ensures { EventsOfRunsAreRead }
{}

/// Law: so is the text of such a run, of at most 16 vats whose names differ and may be so named, and fewer than 2^64 steps. It is
/// read as what is seen of its events, each vat with the place of its name among those that are found, and with the line of its
/// stop. It does not stop as astray, and where it stops for a word that was drawn before, the two have numbers below 2^64.
pub fn texts_of_runs_are_read()
    ensures { TextsOfRunsAreRead }
{}

/// Law: the line of each event of the run of a script that is read, but for frames, is read again, where the program of each vat
/// is read under names of the safe scope and of vats that this vat knows.
pub fn events_of_read_scripts_are_read()
    ensures { EventsOfReadScriptsAreRead }
{}

/// Law: so is the text of its run: as what is seen of its events, each vat with the place of its name among those that are found,
/// and with the line of its stop. It asks that where the run stops for a word that was drawn before, the two have numbers below
/// 2^64; nothing else.
pub fn texts_of_read_scripts_are_read()
    ensures { TextsOfReadScriptsAreRead }
{}
