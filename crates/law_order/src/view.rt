//! A name of another vat comes to have a gift as its view.

ghost use Rattle.law_order.specs.Arrivals.Views.{ElsewhereArrivalsKeep};

/// Order is kept as a note arrives that tells that a name settled to an object of a third vat. The vat makes a draw,
/// asks the name's host to let a gift go, asks the third vat for the gift, and has it as the view of the name. What
/// was sent on the name before stands in front of the note to the host, and what is sent on it from then on
/// waits behind that note.
///
/// It asks that the vat is ready, that it did not notice the third vat, that the three vats are others and honest, that
/// the gift is new to both who may know it, that the link to the host is there and not cut, and that the name
/// leads over a link at its host, or nowhere; and what `told_names_keep` asks, once the gift is asked for. Of a
/// name that settled to an object of the receiver itself it says nothing.
pub fn elsewhere_arrivals_keep()
    ensures { ElsewhereArrivalsKeep }
{}
