//! Each message is delivered at most once and after every message before it in E-order: of each step, of runs, and of histories.
#![tactic(auto)]

pub mod arrive;
pub mod beginning;
pub mod carry;
pub mod carrying;
pub mod cut;
pub mod example;
pub mod letting;
pub mod message;
pub mod order;
pub mod owning;
pub mod passing;
pub mod reaching;
pub mod send;
pub mod settle;
pub mod tell;
pub mod telling;
pub mod view;

ghost use Rattle.law_order.specs.AskTales.Tales.{AsksAreTales, ShortensAreTales};
ghost use Rattle.law_order.specs.Asked.Asked.{AskedForAreNew, AskedForAreOpened};
ghost use Rattle.law_order.specs.Asks.Shortens.{ShortenCarriesKeep, ShortenCarriesKeepInRuns, ShortensAreTrue};
ghost use Rattle.law_order.specs.Came.Came.{HeldMessagesCame};
ghost use Rattle.law_order.specs.History.Laws.{SmallStepsKeep, TalesAreOrdered};
ghost use Rattle.law_order.specs.History.Passings.{ArgumentsPassBehind};
ghost use Rattle.law_order.specs.History.Reactions.{ReactionsAreSmallSteps};
ghost use Rattle.law_order.specs.History.Sends.{SendsAreSmallSteps};
ghost use Rattle.law_order.specs.History.Takes.{TakesAreSmallSteps};
ghost use Rattle.law_order.specs.MessageTales.Reorder.{LatePutsGrow};
ghost use Rattle.law_order.specs.MessageTales.Tales.{CarriesOfMessagesAreTales};
ghost use Rattle.law_order.specs.NewsTales.Tales.{ElsewhereAreTales};
ghost use Rattle.law_order.specs.NoticeTales.Tales.{NoticesAreTales};
ghost use Rattle.law_order.specs.Notices.Marks.{MarksKeep};
ghost use Rattle.law_order.specs.Notices.Notices.{NoticesKeepOrderInRuns};
ghost use Rattle.law_order.specs.OpenTales.Tales.{OpensAreTales};
ghost use Rattle.law_order.specs.Rows.Decided.{OrderIsDecided};
ghost use Rattle.law_order.specs.Sending.Agree.{EarlierStatesAgree, WorldsAgree};
ghost use Rattle.law_order.specs.Sending.Came.{WhatIsHadCame, WhatIsSentCame};
ghost use Rattle.law_order.specs.Sending.New.{NextMessagesAreNew};
ghost use Rattle.law_order.specs.Sending.Passing.{VatsCanPass};
ghost use Rattle.law_order.specs.SettledTales.Tales.{SettledCarriesAreTales};
ghost use Rattle.law_order.specs.Tales.Entries.{KindsAreEnough};
ghost use Rattle.law_order.specs.Tales.Middle.{BeginningIsSmall, EndingIsSmall, GrowingIsSmall, SilentLeavingIsSmall};
ghost use Rattle.law_order.specs.Tales.Resting.{RestingIsSmall};
ghost use Rattle.law_order.specs.Tales.Tales.{CutsAreTales};
ghost use Rattle.law_order.specs.ToldOnce.New.{NewsIsNew};
ghost use Rattle.law_order.specs.ToldOnce.Opened.{OpenedGiftsAreNew};
ghost use Rattle.law_order.specs.ToldOnce.Told.{EachIsToldOnce};
ghost use Rattle.law_order.specs.TurnTales.Tales.{RunTurnsAreTales, RunOpeningsAreTales};
ghost use Rattle.law_order.specs.Views.Led.{SeveredNamesBreakQuietly, ViewedNamesSettleSo, ViewsSettleQuietly};
ghost use Rattle.law_order.specs.Views.Wholes.{LedSettlingsKeep};
ghost use Rattle.law_order.specs.Waits.Answers.{AnswersAreOpenInRuns, WaitersWaitInRuns};
ghost use Rattle.law_order.specs.Whole.Ordered.{RunsAreOrdered};

// Order steps.

// Views.

/// As a name that holds nothing settles to the data or the object to which its view settled, no way changes: each
/// reference of each vat leads where it led, and a vat that was ready is ready.
pub fn views_settle_quietly()
    ensures { ViewsSettleQuietly }
{}

/// So the machine has a name settle whose view settled to data or to an object, if the name holds nothing and the vat
/// follows what it knows to an end.
pub fn viewed_names_settle_so()
    ensures { ViewedNamesSettleSo }
{}

/// As a name breaks whose host the vat noticed, no reference leads elsewhere: each to it led nowhere. The ways only grow,
/// and a vat that was ready is ready.
///
/// It asks that the name held nothing and was unsettled, that it is no object and no gift of the vat, and that the vat
/// follows all to an end after it.
pub fn severed_names_break_quietly()
    ensures { SeveredNamesBreakQuietly }
{}

/// What is ahead of a reference or of a message stays ahead of it, and what is doomed stays doomed, through a whole
/// settling to data, to an object, or to what is broken: also where names with views settle in it, as their views did.
///
/// It asks of each name that settles without a view what `law_order::settlings_keep` asks; and of one with a view that
/// its view settled so, that it holds nothing, and that no vat is to be told of it.
pub fn led_settlings_keep()
    ensures { LedSettlingsKeep }
{}

// Asks.

/// As a note is carried by which the provider of a gift is asked to open it, what is ahead of a reference or of a message
/// stays ahead of it, and what is doomed stays doomed; and each message stands where it stood.
///
/// It asks that the receiver is ready, and that the note's name is none that it makes next; that at most one note under
/// way lets each gift go, and each was logged; and that the name leads over no link but the one to the host of the gift.
pub fn shorten_carries_keep()
    ensures { ShortenCarriesKeep }
{}

/// Where a note under way asks the provider of a gift to open its name as that, the name settled there to an object of
/// the gift's host.
///
/// No vat of the script may be told twice that it knows a vat, or that it knows itself.
pub fn shortens_are_true()
    ensures { ShortensAreTrue }
{}

/// So order is kept in every run, as an entry carries such a note from an honest vat to an honest vat.
///
/// No vat of the script may be told twice that it knows a vat, or that it knows itself.
pub fn shorten_carries_keep_in_runs()
    ensures { ShortenCarriesKeepInRuns }
{}

// Asked.

/// Where a note under way asks for the gift under a key, each gift under that key that stands at any vat was opened.
///
/// No vat of the script may be told twice that it knows a vat, or that it knows itself.
pub fn asked_for_are_opened()
    ensures { AskedForAreOpened }
{}

/// Where the first note of a link asks for a gift that does not stand at its receiver, the receiver does not know the name of
/// that gift.
///
/// It is said of runs in which each notice stands behind a cut of the same two vats. No vat of the script may be told twice
/// that it knows a vat, or that it knows itself.
pub fn asked_for_are_new()
    ensures { AskedForAreNew }
{}

// Order history.

// History.

/// Where the lines so far say that a message is before a reference or a message, it is ahead of its place or was taken, and no
/// object took a message too early. This is kept by each small step: one in which at most one line counts, and by which what was
/// ahead of a thing is ahead of it.
pub fn small_steps_keep()
    ensures { SmallStepsKeep }
{}

/// So the history of a run is in order, up to a stop too, where each of its opening turns and entries is made of small steps: an
/// object takes no message before each that is before it was taken.
pub fn tales_are_ordered()
    ensures { TalesAreOrdered }
{}

/// As the arguments of a message pass to another vat, what is ahead of each reference in them is ahead of what passes for it: of
/// a name, of a gift, and of the members of lists, also of lists to which names settled, at any depth.
///
/// It asks that all vats are honest; that the receiver knows no object, and each name of the sender's that waits either not, or as
/// one that waits for the sender; that the references of the sender lead to vats that are there; that no vat knows a gift under
/// the words that are drawn next; and that the arguments came as the history tells.
pub fn arguments_pass_behind()
    ensures { ArgumentsPassBehind }
{}

/// A whole send in the middle of a step, with an answer or without, is a small step: the message comes last where its target
/// leads, and what its note brings stands behind all that was ahead of the references in its arguments.
///
/// It asks that all vats are honest; that the target is in hand and not broken; that it leads to a vat that is there, to which the
/// arguments can pass as `arguments_pass_behind` asks; and that the message is new.
pub fn sends_are_small_steps()
    ensures { SendsAreSmallSteps }
{}

/// As the first message of a queue is taken, that is a small step: all that was ahead of a thing stays ahead of it, but for the
/// message itself.
pub fn takes_are_small_steps()
    ensures { TakesAreSmallSteps }
{}

/// As an object is to react on a value, that is a small step.
///
/// It asks that the vat is ready, and that the history tells of no send of the message that the vat numbers next.
pub fn reactions_are_small_steps()
    ensures { ReactionsAreSmallSteps }
{}

// Came.

/// In every world of a run, each message that a name of a vat holds came to that vat by a line of the history, and its
/// arguments are those that came by the first such line.
pub fn held_messages_came()
    ensures { HeldMessagesCame }
{}

// Told once.

/// Of all the notes that one vat ever put for another, no two tell where the same name settled: neither what it settled
/// to, nor at which vat, be the two cut off from one another or not.
///
/// So where such a note is under way, none that came before it told of its name.
///
/// It is said of each world of a run in which each notice stands behind a cut of the same two vats. No vat of the script
/// may be told twice that it knows a vat, or that it knows itself.
pub fn each_is_told_once()
    ensures { EachIsToldOnce }
{}

/// Where a note under way to a vat, on a link that is not cut, tells that a name settled, the name is unsettled there: it
/// waits for nothing, has no view, and did not settle, but to a broken reference.
///
/// Runs and scripts are as above.
pub fn news_is_new()
    ensures { NewsIsNew }
{}

/// Where a note under way opens a gift, the gift is unsettled at its host: it waits for nothing, has no view, and did not
/// settle, but to a broken reference. No note came before that opened it (`law_order::each_gift_is_opened_once`).
///
/// This asks nothing of notices. No vat of the script may be told twice that it knows a vat, or that it knows itself.
pub fn opened_gifts_are_new()
    ensures { OpenedGiftsAreNew }
{}

// Ordered.

// Waits.

/// A name of which a message that waits at a vat is to give the value, be it in the queue, held, or reacting, is that of
/// no other such message. It did neither settle nor wait there, has no view, and is among no names that wait on another.
///
/// It is said of each world of a run in which each notice stands behind a cut of the same two vats. No vat of the script
/// may be told twice that it knows a vat, or that it knows itself.
pub fn answers_are_open()
    ensures { AnswersAreOpenInRuns }
{}

/// What is among the names that wait on another, at a vat, waits on that one, has it as its view, or settled: be it the
/// vat's root, the answer of a message, a gift, a name of another vat, or a promise that the vat made.
///
/// Runs and scripts are as above.
pub fn waiters_wait()
    ensures { WaitersWaitInRuns }
{}

// Notices.

/// As a vat marks another as cut off, what is ahead of a reference or of a message stays ahead of it, and what is doomed
/// stays doomed. References that led over the link to that vat lead nowhere; all others lead where they led, and each
/// message stands where it stood.
///
/// It asks that the vat has its number and is another than that which it marks; and that the link to that leads nowhere, as
/// one that is cut does.
pub fn marks_keep()
    ensures { MarksKeep }
{}

/// In every run, as an entry is the notice of one honest vat that another was cut off, what is ahead of a reference or of a
/// message stays ahead of it, and what is doomed stays doomed. Each reference leads where it led, or nowhere. A name of the
/// vat holds what it held, or broke; then it holds nothing, and what comes there is lost. No other message leaves its
/// place, and none comes but reactions, to the end of the vat's queue.
///
/// Each notice stands behind a cut of the same two vats. No vat of the script may be told twice that it knows a vat, or
/// that it knows itself.
pub fn notices_keep_order_in_runs()
    ensures { NoticesKeepOrderInRuns }
{}

// Tales.

/// Where no message moves, no line counts that is told, what is ahead stays ahead, and each reference leads where it led or
/// nowhere, the step is a small step.
pub fn resting_is_small()
    ensures { RestingIsSmall }
{}

/// In every run a cut of the links between two vats is a small step.
pub fn cuts_are_tales()
    ensures { CutsAreTales }
{}

/// In the middle of a step of a vat, what makes the ways grow and moves no message is a small step: a name that comes to be
/// known, a note that is put and delivers nothing, a line that counts for nothing.
pub fn growing_is_small()
    ensures { GrowingIsSmall }
{}

/// A step of a vat begins by a small step, where its own lines do not count.
pub fn beginning_is_small()
    ensures { BeginningIsSmall }
{}

/// It ends by a small step, as the notes that it put are written.
pub fn ending_is_small()
    ensures { EndingIsSmall }
{}

/// A note that delivers nothing and lets nothing go leaves its link by a small step, in the middle of the step of its
/// receiver.
pub fn silent_leaving_is_small()
    ensures { SilentLeavingIsSmall }
{}

/// Where opening turns, turns that take a message, carries of the first note of a link that is not cut, and notices are made
/// of small steps, each step of the run of a script is: so the run is in order (`law_order::tales_are_ordered`).
pub fn kinds_are_enough()
    ensures { KindsAreEnough }
{}

// Sending.

/// What a vat has for the arguments with which a message came, came as the history of the run tells: a name as the name that
/// it has, and a list, or a name that settled to one, with the members that the vat has, at any depth of lists.
///
/// It asks that the vat agrees with all that the history tells by any time, that no view leads to a list, and that it has the
/// members of its lists in hand.
pub fn what_is_had_came()
    ensures { WhatIsHadCame }
{}

/// So does what a vat sends as it has it.
pub fn what_is_sent_came()
    ensures { WhatIsSentCame }
{}

/// In the middle of a step of a run, of each message that the vat numbers from then on no line tells, and it stands nowhere.
///
/// It asks that from how the step began to that state each place of a message and each line of it was paid by the message
/// with which the step began, and by what was sent, as it is in all that a vat does.
pub fn next_messages_are_new()
    ensures { NextMessagesAreNew }
{}

/// What a vat has in any world that a run comes to agrees with all that the history of the run tells by any time: each line
/// that tells of a list which the vat has tells its members, and a name of which a line tells that it settled to a list
/// settled to that, where it settled.
pub fn worlds_agree()
    ensures { WorldsAgree }
{}

/// So does each state before, whose lists and settled names are those of a later one that agrees.
pub fn earlier_states_agree()
    ensures { EarlierStatesAgree }
{}

/// In every run, as a step of a vat begins, the vat can pass what it has in hand to each other vat: what leads on leads over
/// links that are there, or to vats that are not; no vat knows a gift under a word that was not drawn; and each name of its
/// own that waits is unknown to the other vat, or unsettled there, or broken.
///
/// No vat of the script may be told twice that it knows a vat, or that it knows itself.
pub fn vats_can_pass()
    ensures { VatsCanPass }
{}

// Ask tales.

/// In every run a note that asks for a gift is carried by small steps: the gift stands there, or comes to be, and breaks where
/// its provider was noticed; and the asker is told, or is to be told.
///
/// It is said of scripts that meet what is asked of those that are read, with every vat honest.
pub fn asks_are_tales()
    ensures { AsksAreTales }
{}

/// In every run a note by which a vat is asked to open its name as a gift is carried by small steps.
///
/// It is said of scripts that meet what is asked of those that are read, with every vat honest.
pub fn shortens_are_tales()
    ensures { ShortensAreTales }
{}

// Message tales.

/// A note that lets nothing go may as well be put on its link after notes there that deliver nothing and let nothing go, and
/// after notes on other links: the same stands on each link, and the same gifts are let go.
pub fn late_puts_grow()
    ensures { LatePutsGrow }
{}

/// In a run the carry of a message is made of small steps, where the history so far tells of places as it should.
///
/// No vat of the script may be told twice that it knows a vat, or that it knows itself, each vat knows vats of the script
/// alone, notices follow cuts, and nothing hostile is.
pub fn carries_of_messages_are_tales()
    ensures { CarriesOfMessagesAreTales }
{}

// Notice tales.

/// In every run, the notice of one honest vat that another was cut off is made of small steps (`law_order`): what it
/// tells counts for no order, each message stood where it stands or was never sent, and what was ahead of it is ahead of it
/// still.
///
/// Each notice stands behind a cut of the same two vats. No vat of the script may be told twice that it knows a vat, or
/// that it knows itself.
pub fn notices_are_tales()
    ensures { NoticesAreTales }
{}

// News tales.

/// In every run, as an entry carries the first note of a link that is not cut, and the note tells that a name settled to an
/// object of another vat than its host, that is made of small steps (`law_order`): the name has a gift as its view
/// from then on, at the receiver or at a third vat; or it breaks, where the receiver noticed that vat, with all that waits
/// on it.
///
/// It is said of scripts that are read, where all vats are honest: each knows only vats of the script, none is told twice
/// that it knows a vat, or that it knows itself, and each notice stands behind a cut of the same two vats.
pub fn elsewhere_are_tales()
    ensures { ElsewhereAreTales }
{}

// Turn tales.

/// In every run a turn that takes a message is made of small steps: the message is taken, each message that is sent goes to the
/// end of its lane, each reaction that is asked for waits or is queued, and what settles lets go what it held.
///
/// It is said of scripts that meet what is asked of those that are read, with every vat honest.
pub fn turns_are_tales()
    ensures { RunTurnsAreTales }
{}

/// In every run the turn by which a vat opens is made of such small steps too, but that no message is taken.
///
/// It is said of scripts that meet what is asked of those that are read, with every vat honest.
pub fn openings_are_tales()
    ensures { RunOpeningsAreTales }
{}

// Settled tales.

/// In every run, as an entry carries the first note of a link that is not cut, and the note tells to what a name settled, that
/// is made of small steps (`law_order`): what the note brings is learnt, the name settles, and then the names that
/// wait for it, and what reacts on it is queued.
///
/// It is said of scripts that are read, where all vats are honest: each knows only vats of the script, none is told twice
/// that it knows a vat, or that it knows itself, and each notice stands behind a cut of the same two vats.
pub fn settled_carries_are_tales()
    ensures { SettledCarriesAreTales }
{}

// Open tales.

/// In every run, as an entry carries the first note of a link that is not cut, and the note opens a gift, that is made of
/// small steps (`law_order`): the gift comes to wait for the note's name, and then waits for the name to which that
/// is followed, settles to what it is followed to, or breaks, where its name waits for the gift; with all that waits on the
/// gift, and what it held going on. A gift that had broken stays so.
///
/// It is said of scripts that are read, where all vats are honest: each knows only vats of the script, none is told twice
/// that it knows a vat, or that it knows itself, and each notice stands behind a cut of the same two vats. Of the gift and
/// the note's name nothing is asked: either may come to be known as the note arrives.
pub fn opens_are_tales()
    ensures { OpensAreTales }
{}

// Whole.

/// For each message that an object takes in a run, each message before it in E-order was taken earlier: what was sent first on
/// a reference, also by who handed that reference on (`law_order::Ordered`). It holds of the history of every run, up to a
/// stop too.
///
/// It is said of scripts that meet what is asked of those that are read: each vat knows only vats of the script, none is told
/// twice that it knows a vat, or that it knows itself, and each notice stands behind a cut of the same two vats.
pub fn runs_are_ordered()
    ensures { RunsAreOrdered }
{}

// Order rows.

/// A history is in order exactly if of no two of the messages that its lines send one was taken too early. So it is decided by
/// computing.
pub fn order_is_decided()
    ensures { OrderIsDecided }
{}
