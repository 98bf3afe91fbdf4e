//! Texts of events that can be read.

ghost use Rattle.law_read.specs.ReadTexts.Found.{LinesNameVats, OnlyVatsAreFound};
ghost use Rattle.law_read.specs.ReadTexts.Texts.{TextsAreRead, TextsAreUtf8};

/// Law: no name is found in the line of an event but that of a vat.
pub fn lines_name_vats()
    ensures { LinesNameVats }
{}

/// Law: no names are found in the lines of events but those of vats, and no more than there are vats.
pub fn only_vats_are_found()
    ensures { OnlyVatsAreFound }
{}

/// Law: the text of events is UTF-8.
pub fn texts_are_utf8()
    ensures { TextsAreUtf8 }
{}

/// Law: the bytes of the text of a run of at most 16 vats, that ends or stops, are read as what is seen of its events, each vat
/// with the place of its name among those that are found, and with the line of its stop.
pub fn texts_are_read()
    ensures { TextsAreRead }
{}
