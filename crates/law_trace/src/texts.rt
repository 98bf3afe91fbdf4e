//! The text of a run that is printed is read again.

ghost use Rattle.law_trace.specs.Trace.Found.{VatsAreFound};
ghost use Rattle.law_trace.specs.Trace.Placed.{TextsAreNumbered, VatsHavePlaces};
ghost use Rattle.law_trace.specs.Trace.Texts.{HistoriesAreReadAgain, TextsAreReadAgain};

/// A text is cut into its lines, and these are read, by the names of all vats, as what is seen of the events.
pub fn histories_are_read_again()
    ensures { HistoriesAreReadAgain }
{}

/// The text of a run that ends or stops is read as what is seen of its events, with vats numbered by where their names first stand in it, and with the line of its stop.
pub fn texts_are_read_again()
    ensures { TextsAreReadAgain }
{}

/// Each vat of an event is found in its line by its name.
pub fn vats_are_found()
    ensures { VatsAreFound }
{}

/// Where no more than 16 names are found in the lines of events, each vat of the events has a place among these.
pub fn vats_have_places()
    ensures { VatsHavePlaces }
{}

/// The text of a run that ends or stops is read as what is seen of its events, each vat with the place of its name among those that are found, where these are no more than 16.
pub fn texts_are_numbered()
    ensures { TextsAreNumbered }
{}
