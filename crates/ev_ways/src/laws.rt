//! The ways that are kept stand for those of the machine's run in numbers.

ghost use Rattle.ev_ways.specs.Statements.{CarryStands, CutStands, CutsStand, DrawsStand, LeftStands, LoseStands, PushStands, StartStands};

/// `Ways::new` stands for the ways of a run at its start.
pub fn start_stands()
    ensures { StartStands }
{}

/// They stay so where a frame is pushed that stands for one of the run's.
pub fn push_stands()
    ensures { PushStands }
{}

/// What `carry` answers stands for the first frame on the way, where that is not cut, and the ways stand for those without it. None is
/// answered where none can be carried.
pub fn carry_stands()
    ensures { CarryStands }
{}

/// So it is of `lose`, whether the way is cut or not.
pub fn lose_stands()
    ensures { LoseStands }
{}

/// Where a link is cut, the way there first and then the way back, the ways stand for those of the run after it, and the messages of the
/// frames that `cut` answers are those that are lost, in order.
pub fn cut_stands()
    ensures { CutStands }
{}

/// They stand under other draws where each frame under way is told alike.
pub fn draws_stand()
    ensures { DrawsStand }
{}

/// What the closing list tells of frames that were not carried is told by going through the rows.
pub fn left_stands()
    ensures { LeftStands }
{}

/// Which ways are cut is what `is_cut` and `cuts_of` answer.
pub fn cuts_stand()
    ensures { CutsStand }
{}
