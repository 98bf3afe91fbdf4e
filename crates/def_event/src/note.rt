//! Notes as the lines of a history print them.

use crate::shown::Shown;
use ev_base::{Msg, Name, Seq, Str, VatId};

/// A note on a link.
pub enum ShownNote {
    /// `deliver M NAME VERB ARGS`
    Deliver {
        message: Msg,
        target: Name,
        verb: Str,
        args: Seq<Shown>,
    },
    /// `deliveronly M NAME VERB ARGS`: the message has no answer.
    DeliverOnly {
        message: Msg,
        target: Name,
        verb: Str,
        args: Seq<Shown>,
    },
    /// `settled NAME X`
    Settled(Name, Shown),
    /// `elsewhere NAME V`
    Elsewhere(Name, VatId),
    /// `open GIFT NAME`
    Open(Name, Name),
    /// `ask GIFT PROVIDER`
    Ask(Name, VatId),
    /// `shorten NAME GIFT`
    Shorten(Name, Name),
}

impl Drop for ShownNote {
    fn drop(self) {
        match self {
            Self::Deliver {
                message: _,
                target: _,
                verb: _verb,
                args: _args,
            } => {}
            Self::DeliverOnly {
                message: _,
                target: _,
                verb: _verb,
                args: _args,
            } => {}
            Self::Settled(_, _shown) => {}
            Self::Elsewhere(_, _) => {}
            Self::Open(_, _) => {}
            Self::Ask(_, _) => {}
            Self::Shorten(_, _) => {}
        }
    }
}
