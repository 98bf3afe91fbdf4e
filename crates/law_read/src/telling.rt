//! That the text of the run of a script that is read tells its history.

ghost use Rattle.law_read.specs.ReadScripts.Texts.{AcceptedRunsAreBounded, TextsTellAcceptedScripts, TextsTellRunsOfAcceptedScripts};
ghost use Rattle.law_read.specs.ReadScripts.ReadTexts.{ReadRunsAreBounded, TextsTellReadScripts};

/// Two runs of scripts that are read and have the same vats, which have one text, have histories that
/// are alike, event by event, and both go to their ends or stop by one line; of texts without frames,
/// all events but these.
///
/// Of the scripts it is asked that the program of each vat is a kernel tree of texts shorter than
/// 2^64; of the runs, that no vat made 2^64 things by their ends, lists counted with their members,
/// and that fewer words were drawn.
pub fn texts_tell_runs_of_accepted_scripts()
    ensures { TextsTellRunsOfAcceptedScripts }
{}

/// In the run of a script that is read no vat makes 2^64 things, lists counted with their members, and
/// fewer words are drawn: its fuel does not pay for more. The program of each vat is a kernel tree of no
/// more than 2^32 nodes.
pub fn accepted_runs_are_bounded()
    ensures { AcceptedRunsAreBounded }
{}

/// So two runs of scripts that are read and have the same vats, which have one text, have histories
/// that are alike, event by event, and both go to their ends or stop by one line; of texts without
/// frames, all events but these. Nothing is asked of the runs.
///
/// The program of each vat is a kernel tree of texts shorter than 2^64, and of no more than 2^32 nodes.
pub fn texts_tell_accepted_scripts()
    ensures { TextsTellAcceptedScripts }
{}

/// Law: in the run of a script that is read no vat makes 2^64 things, lists counted with their members, and fewer words are
/// drawn, where the program of each vat is read under names of the safe scope and of vats that this vat knows.
pub fn read_runs_are_bounded()
    ensures { ReadRunsAreBounded }
{}

/// Law: two runs of scripts that are read and have the same vats, which have one text, have histories that are alike, event by
/// event, and both go to their ends or stop by one line; of texts without frames, all events but these. The program of each
/// vat is read under names of the safe scope and of vats that this vat knows; nothing else is asked.
pub fn texts_tell_read_scripts()
    ensures { TextsTellReadScripts }
{}
