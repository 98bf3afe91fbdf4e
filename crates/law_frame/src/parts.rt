//! Where the two runs stand for one another: at the start, after a cut and after an idle entry, in the closing list, and in the text.

ghost use Rattle.law_frame.specs.Local.Statements.{StatesAreNamed, StartMirrors, CutsMirror, IdlesMirror, ClosingsMirror, TextsMirror};
ghost use Rattle.law_frame.specs.Local.Writing.{EachPutsSo, WritingsMirror};
ghost use Rattle.law_frame.specs.Local.Naming.{NamesMirror};

/// Where a vat in numbers stands for a vat in names, the state in names is the state in numbers with the name of
/// each number in its place.
pub fn states_are_named()
    ensures { StatesAreNamed }
{}

/// The text of a run in numbers is that of the machine's run that it stands for, with its frames and without them.
pub fn texts_mirror()
    ensures { TextsMirror }
{}

/// An idle entry is one in both runs.
pub fn idles_mirror()
    ensures { IdlesMirror }
{}

/// The closing list of the run in numbers is that of the machine's run: what each vat has in its queue, what is held and what waits, and
/// what is left on the links.
pub fn closings_mirror()
    ensures { ClosingsMirror }
{}

/// A cut takes the same notes off both links, and loses the same messages, in both runs.
pub fn cuts_mirror()
    ensures { CutsMirror }
{}

/// At the start the one stands for the other, whatever the script.
pub fn start_mirrors()
    ensures { StartMirrors }
{}

/// What a step puts is written by the numbers of its vat as in names: the frames on the links are the machine's, and the connections after it
/// stand for one another. It is said of every table, and of what a step leaves whether a note came before it or not.
pub fn writings_mirror()
    ensures { WritingsMirror }
{}

/// In every world of every run each vat has put what the law on what a step puts asks for: it is in its place and knows true hosts, no note names or
/// asks for a message as a reference, and each says what the answer that it asks for is called.
///
/// No vat of the script may be told twice that it knows a vat, or that it knows itself.
pub fn each_puts_so()
    ensures { EachPutsSo }
{}

/// The names that numbers have after a step are those that the vat knows, in order, and the messages that it has had: where the step in names
/// tells each name that comes to be known in it, or it is the next promise of the vat.
pub fn names_mirror()
    ensures { NamesMirror }
{}
