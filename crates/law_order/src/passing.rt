//! What is ahead of a reference is ahead of its passing.

ghost use Rattle.law_order.specs.Ordering.OrderSendPassing.{OpenNamesLeadHome, PassedGiftIsBehind, PassedHomeIsBehind, PassedNameIsBehind};

/// Where a name passes to its host, what is ahead of all that would be sent there on it is ahead of the
/// passing, which is behind all that stands on the link.
pub fn passed_home_is_behind()
    ensures { PassedHomeIsBehind }
{}

/// Where a name of a vat passes to another, what is ahead of the reference at its host is ahead of the
/// passing, wherever that stands on the link.
///
/// It is said of every world, also of one in the middle of a step. It asks that both vats are honest, and
/// that the receiver would send on the name to its host, or that what it sends there is lost.
pub fn passed_name_is_behind()
    ensures { PassedNameIsBehind }
{}

/// A vat would send to its host on a name of another vat that it does not know, or that it knows with that
/// host and that waits; or what it sends there is lost, where it noticed that vat. Objects are among the names
/// that no vat knows.
pub fn open_names_lead_home()
    ensures { OpenNamesLeadHome }
{}

/// Where a name of a third vat passes as a gift, what is ahead of all that would be sent there on it is
/// ahead of the passing, wherever that stands on the link: the note that lets the gift go stands behind it.
///
/// It is said of the middle of a step. It asks that the vat is ready, that the three vats are others and
/// honest, that the link on which the gift is let go is there, and that neither the receiver nor
/// the host knows the gift of that draw.
pub fn passed_gift_is_behind()
    ensures { PassedGiftIsBehind }
{}
