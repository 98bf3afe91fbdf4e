//! The places of a trace, each of which leads to those that come next.

ghost use Rattle.std.specs.Prelude.{◌≡◌, IfOk};
ghost use Rattle.ev_order.specs.Graph.{IsGraph};
ghost use Rattle.ev_order.specs.Walk.{HoldsSent, HoldsTaken};

use crate::mentions::Mentions;
use crate::over::join_all;
use crate::spread::Place;
use crate::walk::{Walk, walk_all};
use def_event::Event;
use ev_base::Memory;
use std::alloc::Global;

/// The places of a trace, and the first send and take of each message.
pub struct Graph {
    pub places: Vec<Place>,
    pub sent: Mentions,
    pub taken: Mentions,
}

impl Drop for Graph {
    fn drop(self) {
        let Self {
            places: _places,
            sent: _sent,
            taken: _taken,
        } = self;
    }
}

/// The places of a trace. Time grows with its length.
pub fn graph_of(alloc: Global, events: &[Event]) -> Result<Graph, Memory>
    ensures places { IfOk result (λ graph. IsGraph events.now graph.places.items) }
    ensures sent { IfOk result (λ graph. HoldsSent events.now graph.sent) }
    ensures taken { IfOk result (λ graph. HoldsTaken events.now graph.taken) }
{
    let Walk {
        here: _,
        chains,
        sent,
        carried,
        taken,
    } = walk_all(alloc, events)?;
    let (mut places, references) = chains.into_parts();
    join_all(&mut places, &references, &sent, &carried);
    Ok(Graph {
        places,
        sent,
        taken,
    })
}
