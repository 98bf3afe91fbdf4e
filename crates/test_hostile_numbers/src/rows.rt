//! Each run of `test_hostile` has one text in names and in numbers.

ghost use Rattle.test_hostile_numbers.specs.Agrees.{TellsFramesSo, TellsSo};
ghost use Rattle.test_hostile.specs.MessageOfAFrame.{due as messageofaframe_due, play as messageofaframe_play};
ghost use Rattle.test_hostile.specs.CutByAFrame.{due as cutbyaframe_due, play as cutbyaframe_play};
ghost use Rattle.test_hostile.specs.FramesShown.{due as framesshown_due, play as framesshown_play};
ghost use Rattle.test_hostile.specs.GiftKnownAlready.{due as giftknownalready_due, play as giftknownalready_play};
ghost use Rattle.test_hostile.specs.GiftKnownTwice.{due as giftknowntwice_due, play as giftknowntwice_play};
ghost use Rattle.test_hostile.specs.NewNamesWire.{due as newnameswire_due, play as newnameswire_play};
ghost use Rattle.test_hostile.specs.MalformedOffsets.{due as malformedoffsets_due, play as malformedoffsets_play};
ghost use Rattle.test_hostile.specs.ThirdAndAsk.{due as thirdandask_due, play as thirdandask_play};
ghost use Rattle.test_hostile.specs.ElsewhereCycle.{due as elsewherecycle_due, play as elsewherecycle_play};
ghost use Rattle.test_hostile.specs.ShortenNothing.{due as shortennothing_due, play as shortennothing_play};
ghost use Rattle.test_hostile.specs.ToHostile.{due as tohostile_due, play as tohostile_play};
ghost use Rattle.test_hostile.specs.OpenTwice.{due as opentwice_due, play as opentwice_play};
ghost use Rattle.test_hostile.specs.KnowsAGiftTwiceWire.{due as knowsagifttwicewire_due, play as knowsagifttwicewire_play};
ghost use Rattle.test_hostile.specs.ListHeight.{due as listheight_due, play as listheight_play};
ghost use Rattle.test_hostile.specs.ElsewhereSelfAndShortenWire.{due as elsewhereselfandshortenwire_due, play as elsewhereselfandshortenwire_play};
ghost use Rattle.test_hostile.specs.ObjectThroughAnHonestVatWire.{due as objectthroughanhonestvatwire_due, play as objectthroughanhonestvatwire_play};
ghost use Rattle.test_hostile.specs.MalformedThenPartition.{due as malformedthenpartition_due, play as malformedthenpartition_play};
ghost use Rattle.test_hostile.specs.MalformedListNew.{due as malformedlistnew_due, play as malformedlistnew_play};
ghost use Rattle.test_hostile.specs.MalformedP1EmptyOp.{due as malformedp1emptyop_due, play as malformedp1emptyop_play};
ghost use Rattle.test_hostile.specs.MalformedP1Prim.{due as malformedp1prim_due, play as malformedp1prim_play};
ghost use Rattle.test_hostile.specs.MalformedP1Short.{due as malformedp1short_due, play as malformedp1short_play};
ghost use Rattle.test_hostile.specs.MalformedP1Tail.{due as malformedp1tail_due, play as malformedp1tail_play};
ghost use Rattle.test_hostile.specs.MalformedP1Utf8.{due as malformedp1utf8_due, play as malformedp1utf8_play};
ghost use Rattle.test_hostile.specs.MalformedP2Above.{due as malformedp2above_due, play as malformedp2above_play};
ghost use Rattle.test_hostile.specs.MalformedP2ExportKind.{due as malformedp2exportkind_due, play as malformedp2exportkind_play};
ghost use Rattle.test_hostile.specs.MalformedP2Myanswer.{due as malformedp2myanswer_due, play as malformedp2myanswer_play};
ghost use Rattle.test_hostile.specs.MalformedP2Question.{due as malformedp2question_due, play as malformedp2question_play};
ghost use Rattle.test_hostile.specs.MalformedP2Youranswer.{due as malformedp2youranswer_due, play as malformedp2youranswer_play};
ghost use Rattle.test_hostile.specs.MalformedP2Yourexport.{due as malformedp2yourexport_due, play as malformedp2yourexport_play};
ghost use Rattle.test_hostile.specs.MalformedP3Provider.{due as malformedp3provider_due, play as malformedp3provider_play};
ghost use Rattle.test_hostile.specs.MalformedP3Vat.{due as malformedp3vat_due, play as malformedp3vat_play};
ghost use Rattle.test_hostile.specs.MalformedP4Accept.{due as malformedp4accept_due, play as malformedp4accept_play};
ghost use Rattle.test_hostile.specs.MalformedP4Elsewhere.{due as malformedp4elsewhere_due, play as malformedp4elsewhere_play};
ghost use Rattle.test_hostile.specs.MalformedP4ThirdPeer.{due as malformedp4thirdpeer_due, play as malformedp4thirdpeer_play};
ghost use Rattle.test_hostile.specs.MalformedP4ThirdSelf.{due as malformedp4thirdself_due, play as malformedp4thirdself_play};
ghost use Rattle.test_hostile.specs.MalformedP5.{due as malformedp5_due, play as malformedp5_play};
ghost use Rattle.test_hostile.specs.MalformedP5Own.{due as malformedp5own_due, play as malformedp5own_play};
ghost use Rattle.test_hostile.specs.MalformedP5Third.{due as malformedp5third_due, play as malformedp5third_play};
ghost use Rattle.test_hostile.specs.Random01.{due as random01_due, play as random01_play};
ghost use Rattle.test_hostile.specs.Random02.{due as random02_due, play as random02_play};
ghost use Rattle.test_hostile.specs.Random03.{due as random03_due, play as random03_play};
ghost use Rattle.test_hostile.specs.Random04.{due as random04_due, play as random04_play};
ghost use Rattle.test_hostile.specs.Random05.{due as random05_due, play as random05_play};
ghost use Rattle.test_hostile.specs.Random06.{due as random06_due, play as random06_play};
ghost use Rattle.test_hostile.specs.Random07.{due as random07_due, play as random07_play};
ghost use Rattle.test_hostile.specs.Random08.{due as random08_due, play as random08_play};
ghost use Rattle.test_hostile.specs.Random09.{due as random09_due, play as random09_play};
ghost use Rattle.test_hostile.specs.Random10.{due as random10_due, play as random10_play};
ghost use Rattle.test_hostile.specs.Random11.{due as random11_due, play as random11_play};
ghost use Rattle.test_hostile.specs.Random12.{due as random12_due, play as random12_play};
ghost use Rattle.test_hostile.specs.Random13.{due as random13_due, play as random13_play};
ghost use Rattle.test_hostile.specs.Random14.{due as random14_due, play as random14_play};
ghost use Rattle.test_hostile.specs.Random15.{due as random15_due, play as random15_play};
ghost use Rattle.test_hostile.specs.Random16.{due as random16_due, play as random16_play};
ghost use Rattle.test_hostile.specs.Random17.{due as random17_due, play as random17_play};
ghost use Rattle.test_hostile.specs.Random18.{due as random18_due, play as random18_play};
ghost use Rattle.test_hostile.specs.Random19.{due as random19_due, play as random19_play};
ghost use Rattle.test_hostile.specs.Random20.{due as random20_due, play as random20_play};
ghost use Rattle.test_hostile.specs.Random21.{due as random21_due, play as random21_play};
ghost use Rattle.test_hostile.specs.Random22.{due as random22_due, play as random22_play};
ghost use Rattle.test_hostile.specs.Random23.{due as random23_due, play as random23_play};
ghost use Rattle.test_hostile.specs.Random24.{due as random24_due, play as random24_play};
ghost use Rattle.test_hostile.specs.Random25.{due as random25_due, play as random25_play};
ghost use Rattle.test_hostile.specs.Random26.{due as random26_due, play as random26_play};
ghost use Rattle.test_hostile.specs.AgainTold.{due as againtold_due, play as againtold_play};
ghost use Rattle.test_hostile.specs.ClaimedBeforeTheDraw.{due as claimedbeforethedraw_due, play as claimedbeforethedraw_play};
ghost use Rattle.test_hostile.specs.FrameWithoutAnswer.{due as framewithoutanswer_due, play as framewithoutanswer_play};
ghost use Rattle.test_hostile.specs.HostilePair.{due as hostilepair_due, play as hostilepair_play};
ghost use Rattle.test_hostile.specs.OneWordForTwoGifts.{due as onewordfortwogifts_due, play as onewordfortwogifts_play};
ghost use Rattle.test_hostile.specs.ShortenOfAnUnsettledName.{due as shortenofanunsettledname_due, play as shortenofanunsettledname_play};
ghost use Rattle.test_hostile.specs.ShortenToANoticedVat.{due as shortentoanoticedvat_due, play as shortentoanoticedvat_play};
ghost use Rattle.test_hostile.specs.ToldAgainAndThenDrawn.{due as toldagainandthendrawn_due, play as toldagainandthendrawn_play};
ghost use Rattle.test_hostile.specs.Replayed.{due as replayed_due, play as replayed_play};
ghost use Rattle.test_hostile.specs.AListThatLeadsBack.{due as alistthatleadsback_due, play as alistthatleadsback_play};
ghost use Rattle.test_hostile.specs.AWordOfTwoProviders.{due as awordoftwoproviders_due, play as awordoftwoproviders_play};
ghost use Rattle.test_hostile.specs.AskedForAndNotOpened.{due as askedforandnotopened_due, play as askedforandnotopened_play};
ghost use Rattle.test_hostile.specs.AskedForByAGuessedWord.{due as askedforbyaguessedword_due, play as askedforbyaguessedword_play};
ghost use Rattle.test_hostile.specs.EachGiftIsOpenedOnce.{due as eachgiftisopenedonce_due, play as eachgiftisopenedonce_play};
ghost use Rattle.test_hostile.specs.KnownTwiceByOneHostileVat.{due as knowntwicebyonehostilevat_due, play as knowntwicebyonehostilevat_play};
ghost use Rattle.test_hostile.specs.LeadsBackByAGuessedWord.{due as leadsbackbyaguessedword_due, play as leadsbackbyaguessedword_play};
ghost use Rattle.test_hostile.specs.ListsOf100.{due as listsof100_due, play as listsof100_play};
ghost use Rattle.test_hostile.specs.MalformedAndUnopenedGifts.{due as malformedandunopenedgifts_due, play as malformedandunopenedgifts_play};
ghost use Rattle.test_hostile.specs.OrderByAGuessedWord.{due as orderbyaguessedword_due, play as orderbyaguessedword_play};
ghost use Rattle.test_hostile.specs.OrderHandedOn.{due as orderhandedon_due, play as orderhandedon_play};
ghost use Rattle.test_hostile.specs.OrderLostOnTheWay.{due as orderlostontheway_due, play as orderlostontheway_play};
ghost use Rattle.test_hostile.specs.OrderUnderWayAllSettled.{due as orderunderwayallsettled_due, play as orderunderwayallsettled_play};
ghost use Rattle.test_hostile.specs.OrderUnderWayLedOn.{due as orderunderwayledon_due, play as orderunderwayledon_play};
ghost use Rattle.test_hostile.specs.NamedTwiceInNothing.{due as namedtwiceinnothing_due, play as namedtwiceinnothing_play};
ghost use Rattle.test_hostile.specs.NamedToItsSender.{due as namedtoitssender_due, play as namedtoitssender_play};

/// MessageOfAFrame
#[tactic(auto, unfolding(def_hostile::specs::NumbersText::opened_numbers_text, test_hostile::specs::Lines::opened_more, test_hostile::specs::MessageOfAFrame::opened))]
pub fn messageofaframe()
    ensures told { TellsSo messageofaframe_play messageofaframe_due }
{}

/// CutByAFrame
#[tactic(auto, unfolding(def_hostile::specs::NumbersText::opened_numbers_text, test_hostile::specs::Lines::opened_more, test_hostile::specs::CutByAFrame::opened))]
pub fn cutbyaframe()
    ensures told { TellsSo cutbyaframe_play cutbyaframe_due }
{}

/// FramesShown
#[tactic(auto, unfolding(def_hostile::specs::NumbersText::opened_numbers_text, test_hostile::specs::Lines::opened_more, test_hostile::specs::FramesShown::opened))]
pub fn framesshown()
    ensures told { TellsFramesSo framesshown_play framesshown_due }
{}

/// GiftKnownAlready
#[tactic(auto, unfolding(def_hostile::specs::NumbersText::opened_numbers_text, test_hostile::specs::Lines::opened_more, test_hostile::specs::GiftKnownAlready::opened))]
pub fn giftknownalready()
    ensures told { TellsSo giftknownalready_play giftknownalready_due }
{}

/// GiftKnownTwice
#[tactic(auto, unfolding(def_hostile::specs::NumbersText::opened_numbers_text, test_hostile::specs::Lines::opened_more, test_hostile::specs::GiftKnownTwice::opened))]
pub fn giftknowntwice()
    ensures told { TellsFramesSo giftknowntwice_play giftknowntwice_due }
{}

/// NewNamesWire
#[tactic(auto, unfolding(def_hostile::specs::NumbersText::opened_numbers_text, test_hostile::specs::Lines::opened_more, test_hostile::specs::NewNamesWire::opened))]
pub fn newnameswire()
    ensures told { TellsFramesSo newnameswire_play newnameswire_due }
{}

/// MalformedOffsets
#[tactic(auto, unfolding(def_hostile::specs::NumbersText::opened_numbers_text, test_hostile::specs::Lines::opened_more, test_hostile::specs::MalformedOffsets::opened))]
pub fn malformedoffsets()
    ensures told { TellsSo malformedoffsets_play malformedoffsets_due }
{}

/// ThirdAndAsk
#[tactic(auto, unfolding(def_hostile::specs::NumbersText::opened_numbers_text, test_hostile::specs::Lines::opened_more, test_hostile::specs::ThirdAndAsk::opened))]
pub fn thirdandask()
    ensures told { TellsSo thirdandask_play thirdandask_due }
{}

/// ElsewhereCycle
#[tactic(auto, unfolding(def_hostile::specs::NumbersText::opened_numbers_text, test_hostile::specs::Lines::opened_more, test_hostile::specs::ElsewhereCycle::opened))]
pub fn elsewherecycle()
    ensures told { TellsSo elsewherecycle_play elsewherecycle_due }
{}

/// ShortenNothing
#[tactic(auto, unfolding(def_hostile::specs::NumbersText::opened_numbers_text, test_hostile::specs::Lines::opened_more, test_hostile::specs::ShortenNothing::opened))]
pub fn shortennothing()
    ensures told { TellsSo shortennothing_play shortennothing_due }
{}

/// ToHostile
#[tactic(auto, unfolding(def_hostile::specs::NumbersText::opened_numbers_text, test_hostile::specs::Lines::opened_more, test_hostile::specs::ToHostile::opened))]
pub fn tohostile()
    ensures told { TellsSo tohostile_play tohostile_due }
{}

/// OpenTwice
#[tactic(auto, unfolding(def_hostile::specs::NumbersText::opened_numbers_text, test_hostile::specs::Lines::opened_more, test_hostile::specs::OpenTwice::opened))]
pub fn opentwice()
    ensures told { TellsSo opentwice_play opentwice_due }
{}

/// KnowsAGiftTwiceWire
#[tactic(auto, unfolding(def_hostile::specs::NumbersText::opened_numbers_text, test_hostile::specs::Lines::opened_more, test_hostile::specs::KnowsAGiftTwiceWire::opened))]
pub fn knowsagifttwicewire()
    ensures told { TellsFramesSo knowsagifttwicewire_play knowsagifttwicewire_due }
{}

/// ListHeight
#[tactic(auto, unfolding(def_hostile::specs::NumbersText::opened_numbers_text, test_hostile::specs::Lines::opened_more, test_hostile::specs::ListHeight::opened))]
pub fn listheight()
    ensures told { TellsSo listheight_play listheight_due }
{}

/// ElsewhereSelfAndShortenWire
#[tactic(auto, unfolding(def_hostile::specs::NumbersText::opened_numbers_text, test_hostile::specs::Lines::opened_more, test_hostile::specs::ElsewhereSelfAndShortenWire::opened))]
pub fn elsewhereselfandshortenwire()
    ensures told { TellsFramesSo elsewhereselfandshortenwire_play elsewhereselfandshortenwire_due }
{}

/// ObjectThroughAnHonestVatWire
#[tactic(auto, unfolding(def_hostile::specs::NumbersText::opened_numbers_text, test_hostile::specs::Lines::opened_more, test_hostile::specs::ObjectThroughAnHonestVatWire::opened))]
pub fn objectthroughanhonestvatwire()
    ensures told { TellsFramesSo objectthroughanhonestvatwire_play objectthroughanhonestvatwire_due }
{}

/// MalformedThenPartition
#[tactic(auto, unfolding(def_hostile::specs::NumbersText::opened_numbers_text, test_hostile::specs::Lines::opened_more, test_hostile::specs::MalformedThenPartition::opened))]
pub fn malformedthenpartition()
    ensures told { TellsSo malformedthenpartition_play malformedthenpartition_due }
{}

/// MalformedListNew
#[tactic(auto, unfolding(def_hostile::specs::NumbersText::opened_numbers_text, test_hostile::specs::Lines::opened_more, test_hostile::specs::MalformedListNew::opened))]
pub fn malformedlistnew()
    ensures told { TellsSo malformedlistnew_play malformedlistnew_due }
{}

/// MalformedP1EmptyOp
#[tactic(auto, unfolding(def_hostile::specs::NumbersText::opened_numbers_text, test_hostile::specs::Lines::opened_more, test_hostile::specs::MalformedP1EmptyOp::opened))]
pub fn malformedp1emptyop()
    ensures told { TellsSo malformedp1emptyop_play malformedp1emptyop_due }
{}

/// MalformedP1Prim
#[tactic(auto, unfolding(def_hostile::specs::NumbersText::opened_numbers_text, test_hostile::specs::Lines::opened_more, test_hostile::specs::MalformedP1Prim::opened))]
pub fn malformedp1prim()
    ensures told { TellsSo malformedp1prim_play malformedp1prim_due }
{}

/// MalformedP1Short
#[tactic(auto, unfolding(def_hostile::specs::NumbersText::opened_numbers_text, test_hostile::specs::Lines::opened_more, test_hostile::specs::MalformedP1Short::opened))]
pub fn malformedp1short()
    ensures told { TellsSo malformedp1short_play malformedp1short_due }
{}

/// MalformedP1Tail
#[tactic(auto, unfolding(def_hostile::specs::NumbersText::opened_numbers_text, test_hostile::specs::Lines::opened_more, test_hostile::specs::MalformedP1Tail::opened))]
pub fn malformedp1tail()
    ensures told { TellsSo malformedp1tail_play malformedp1tail_due }
{}

/// MalformedP1Utf8
#[tactic(auto, unfolding(def_hostile::specs::NumbersText::opened_numbers_text, test_hostile::specs::Lines::opened_more, test_hostile::specs::MalformedP1Utf8::opened))]
pub fn malformedp1utf8()
    ensures told { TellsSo malformedp1utf8_play malformedp1utf8_due }
{}

/// MalformedP2Above
#[tactic(auto, unfolding(def_hostile::specs::NumbersText::opened_numbers_text, test_hostile::specs::Lines::opened_more, test_hostile::specs::MalformedP2Above::opened))]
pub fn malformedp2above()
    ensures told { TellsSo malformedp2above_play malformedp2above_due }
{}

/// MalformedP2ExportKind
#[tactic(auto, unfolding(def_hostile::specs::NumbersText::opened_numbers_text, test_hostile::specs::Lines::opened_more, test_hostile::specs::MalformedP2ExportKind::opened))]
pub fn malformedp2exportkind()
    ensures told { TellsSo malformedp2exportkind_play malformedp2exportkind_due }
{}

/// MalformedP2Myanswer
#[tactic(auto, unfolding(def_hostile::specs::NumbersText::opened_numbers_text, test_hostile::specs::Lines::opened_more, test_hostile::specs::MalformedP2Myanswer::opened))]
pub fn malformedp2myanswer()
    ensures told { TellsSo malformedp2myanswer_play malformedp2myanswer_due }
{}

/// MalformedP2Question
#[tactic(auto, unfolding(def_hostile::specs::NumbersText::opened_numbers_text, test_hostile::specs::Lines::opened_more, test_hostile::specs::MalformedP2Question::opened))]
pub fn malformedp2question()
    ensures told { TellsSo malformedp2question_play malformedp2question_due }
{}

/// MalformedP2Youranswer
#[tactic(auto, unfolding(def_hostile::specs::NumbersText::opened_numbers_text, test_hostile::specs::Lines::opened_more, test_hostile::specs::MalformedP2Youranswer::opened))]
pub fn malformedp2youranswer()
    ensures told { TellsSo malformedp2youranswer_play malformedp2youranswer_due }
{}

/// MalformedP2Yourexport
#[tactic(auto, unfolding(def_hostile::specs::NumbersText::opened_numbers_text, test_hostile::specs::Lines::opened_more, test_hostile::specs::MalformedP2Yourexport::opened))]
pub fn malformedp2yourexport()
    ensures told { TellsSo malformedp2yourexport_play malformedp2yourexport_due }
{}

/// MalformedP3Provider
#[tactic(auto, unfolding(def_hostile::specs::NumbersText::opened_numbers_text, test_hostile::specs::Lines::opened_more, test_hostile::specs::MalformedP3Provider::opened))]
pub fn malformedp3provider()
    ensures told { TellsSo malformedp3provider_play malformedp3provider_due }
{}

/// MalformedP3Vat
#[tactic(auto, unfolding(def_hostile::specs::NumbersText::opened_numbers_text, test_hostile::specs::Lines::opened_more, test_hostile::specs::MalformedP3Vat::opened))]
pub fn malformedp3vat()
    ensures told { TellsSo malformedp3vat_play malformedp3vat_due }
{}

/// MalformedP4Accept
#[tactic(auto, unfolding(def_hostile::specs::NumbersText::opened_numbers_text, test_hostile::specs::Lines::opened_more, test_hostile::specs::MalformedP4Accept::opened))]
pub fn malformedp4accept()
    ensures told { TellsSo malformedp4accept_play malformedp4accept_due }
{}

/// MalformedP4Elsewhere
#[tactic(auto, unfolding(def_hostile::specs::NumbersText::opened_numbers_text, test_hostile::specs::Lines::opened_more, test_hostile::specs::MalformedP4Elsewhere::opened))]
pub fn malformedp4elsewhere()
    ensures told { TellsSo malformedp4elsewhere_play malformedp4elsewhere_due }
{}

/// MalformedP4ThirdPeer
#[tactic(auto, unfolding(def_hostile::specs::NumbersText::opened_numbers_text, test_hostile::specs::Lines::opened_more, test_hostile::specs::MalformedP4ThirdPeer::opened))]
pub fn malformedp4thirdpeer()
    ensures told { TellsSo malformedp4thirdpeer_play malformedp4thirdpeer_due }
{}

/// MalformedP4ThirdSelf
#[tactic(auto, unfolding(def_hostile::specs::NumbersText::opened_numbers_text, test_hostile::specs::Lines::opened_more, test_hostile::specs::MalformedP4ThirdSelf::opened))]
pub fn malformedp4thirdself()
    ensures told { TellsSo malformedp4thirdself_play malformedp4thirdself_due }
{}

/// MalformedP5
#[tactic(auto, unfolding(def_hostile::specs::NumbersText::opened_numbers_text, test_hostile::specs::Lines::opened_more, test_hostile::specs::MalformedP5::opened))]
pub fn malformedp5()
    ensures told { TellsSo malformedp5_play malformedp5_due }
{}

/// MalformedP5Own
#[tactic(auto, unfolding(def_hostile::specs::NumbersText::opened_numbers_text, test_hostile::specs::Lines::opened_more, test_hostile::specs::MalformedP5Own::opened))]
pub fn malformedp5own()
    ensures told { TellsSo malformedp5own_play malformedp5own_due }
{}

/// MalformedP5Third
#[tactic(auto, unfolding(def_hostile::specs::NumbersText::opened_numbers_text, test_hostile::specs::Lines::opened_more, test_hostile::specs::MalformedP5Third::opened))]
pub fn malformedp5third()
    ensures told { TellsSo malformedp5third_play malformedp5third_due }
{}

/// Random01
#[tactic(auto, unfolding(def_hostile::specs::NumbersText::opened_numbers_text, test_hostile::specs::Lines::opened_more, test_hostile::specs::Random01::opened))]
pub fn random01()
    ensures told { TellsSo random01_play random01_due }
{}

/// Random02
#[tactic(auto, unfolding(def_hostile::specs::NumbersText::opened_numbers_text, test_hostile::specs::Lines::opened_more, test_hostile::specs::Random02::opened))]
pub fn random02()
    ensures told { TellsFramesSo random02_play random02_due }
{}

/// Random03
#[tactic(auto, unfolding(def_hostile::specs::NumbersText::opened_numbers_text, test_hostile::specs::Lines::opened_more, test_hostile::specs::Random03::opened))]
pub fn random03()
    ensures told { TellsSo random03_play random03_due }
{}

/// Random04
#[tactic(auto, unfolding(def_hostile::specs::NumbersText::opened_numbers_text, test_hostile::specs::Lines::opened_more, test_hostile::specs::Random04::opened))]
pub fn random04()
    ensures told { TellsFramesSo random04_play random04_due }
{}

/// Random05
#[tactic(auto, unfolding(def_hostile::specs::NumbersText::opened_numbers_text, test_hostile::specs::Lines::opened_more, test_hostile::specs::Random05::opened))]
pub fn random05()
    ensures told { TellsFramesSo random05_play random05_due }
{}

/// Random06
#[tactic(auto, unfolding(def_hostile::specs::NumbersText::opened_numbers_text, test_hostile::specs::Lines::opened_more, test_hostile::specs::Random06::opened))]
pub fn random06()
    ensures told { TellsFramesSo random06_play random06_due }
{}

/// Random07
#[tactic(auto, unfolding(def_hostile::specs::NumbersText::opened_numbers_text, test_hostile::specs::Lines::opened_more, test_hostile::specs::Random07::opened))]
pub fn random07()
    ensures told { TellsFramesSo random07_play random07_due }
{}

/// Random08
#[tactic(auto, unfolding(def_hostile::specs::NumbersText::opened_numbers_text, test_hostile::specs::Lines::opened_more, test_hostile::specs::Random08::opened))]
pub fn random08()
    ensures told { TellsSo random08_play random08_due }
{}

/// Random09
#[tactic(auto, unfolding(def_hostile::specs::NumbersText::opened_numbers_text, test_hostile::specs::Lines::opened_more, test_hostile::specs::Random09::opened))]
pub fn random09()
    ensures told { TellsFramesSo random09_play random09_due }
{}

/// Random10
#[tactic(auto, unfolding(def_hostile::specs::NumbersText::opened_numbers_text, test_hostile::specs::Lines::opened_more, test_hostile::specs::Random10::opened))]
pub fn random10()
    ensures told { TellsFramesSo random10_play random10_due }
{}

/// Random11
#[tactic(auto, unfolding(def_hostile::specs::NumbersText::opened_numbers_text, test_hostile::specs::Lines::opened_more, test_hostile::specs::Random11::opened))]
pub fn random11()
    ensures told { TellsFramesSo random11_play random11_due }
{}

/// Random12
#[tactic(auto, unfolding(def_hostile::specs::NumbersText::opened_numbers_text, test_hostile::specs::Lines::opened_more, test_hostile::specs::Random12::opened))]
pub fn random12()
    ensures told { TellsFramesSo random12_play random12_due }
{}

/// Random13
#[tactic(auto, unfolding(def_hostile::specs::NumbersText::opened_numbers_text, test_hostile::specs::Lines::opened_more, test_hostile::specs::Random13::opened))]
pub fn random13()
    ensures told { TellsFramesSo random13_play random13_due }
{}

/// Random14
#[tactic(auto, unfolding(def_hostile::specs::NumbersText::opened_numbers_text, test_hostile::specs::Lines::opened_more, test_hostile::specs::Random14::opened))]
pub fn random14()
    ensures told { TellsSo random14_play random14_due }
{}

/// Random15
#[tactic(auto, unfolding(def_hostile::specs::NumbersText::opened_numbers_text, test_hostile::specs::Lines::opened_more, test_hostile::specs::Random15::opened))]
pub fn random15()
    ensures told { TellsFramesSo random15_play random15_due }
{}

/// Random16
#[tactic(auto, unfolding(def_hostile::specs::NumbersText::opened_numbers_text, test_hostile::specs::Lines::opened_more, test_hostile::specs::Random16::opened))]
pub fn random16()
    ensures told { TellsFramesSo random16_play random16_due }
{}

/// Random17
#[tactic(auto, unfolding(def_hostile::specs::NumbersText::opened_numbers_text, test_hostile::specs::Lines::opened_more, test_hostile::specs::Random17::opened))]
pub fn random17()
    ensures told { TellsFramesSo random17_play random17_due }
{}

/// Random18
#[tactic(auto, unfolding(def_hostile::specs::NumbersText::opened_numbers_text, test_hostile::specs::Lines::opened_more, test_hostile::specs::Random18::opened))]
pub fn random18()
    ensures told { TellsFramesSo random18_play random18_due }
{}

/// Random19
#[tactic(auto, unfolding(def_hostile::specs::NumbersText::opened_numbers_text, test_hostile::specs::Lines::opened_more, test_hostile::specs::Random19::opened))]
pub fn random19()
    ensures told { TellsFramesSo random19_play random19_due }
{}

/// Random20
#[tactic(auto, unfolding(def_hostile::specs::NumbersText::opened_numbers_text, test_hostile::specs::Lines::opened_more, test_hostile::specs::Random20::opened))]
pub fn random20()
    ensures told { TellsSo random20_play random20_due }
{}

/// Random21
#[tactic(auto, unfolding(def_hostile::specs::NumbersText::opened_numbers_text, test_hostile::specs::Lines::opened_more, test_hostile::specs::Random21::opened))]
pub fn random21()
    ensures told { TellsFramesSo random21_play random21_due }
{}

/// Random22
#[tactic(auto, unfolding(def_hostile::specs::NumbersText::opened_numbers_text, test_hostile::specs::Lines::opened_more, test_hostile::specs::Random22::opened))]
pub fn random22()
    ensures told { TellsSo random22_play random22_due }
{}

/// Random23
#[tactic(auto, unfolding(def_hostile::specs::NumbersText::opened_numbers_text, test_hostile::specs::Lines::opened_more, test_hostile::specs::Random23::opened))]
pub fn random23()
    ensures told { TellsFramesSo random23_play random23_due }
{}

/// Random24
#[tactic(auto, unfolding(def_hostile::specs::NumbersText::opened_numbers_text, test_hostile::specs::Lines::opened_more, test_hostile::specs::Random24::opened))]
pub fn random24()
    ensures told { TellsSo random24_play random24_due }
{}

/// Random25
#[tactic(auto, unfolding(def_hostile::specs::NumbersText::opened_numbers_text, test_hostile::specs::Lines::opened_more, test_hostile::specs::Random25::opened))]
pub fn random25()
    ensures told { TellsFramesSo random25_play random25_due }
{}

/// Random26
#[tactic(auto, unfolding(def_hostile::specs::NumbersText::opened_numbers_text, test_hostile::specs::Lines::opened_more, test_hostile::specs::Random26::opened))]
pub fn random26()
    ensures told { TellsFramesSo random26_play random26_due }
{}

/// AgainTold
#[tactic(auto, unfolding(def_hostile::specs::NumbersText::opened_numbers_text, test_hostile::specs::Lines::opened_more, test_hostile::specs::AgainTold::opened))]
pub fn againtold()
    ensures told { TellsFramesSo againtold_play againtold_due }
{}

/// ClaimedBeforeTheDraw
#[tactic(auto, unfolding(def_hostile::specs::NumbersText::opened_numbers_text, test_hostile::specs::Lines::opened_more, test_hostile::specs::ClaimedBeforeTheDraw::opened))]
pub fn claimedbeforethedraw()
    ensures told { TellsFramesSo claimedbeforethedraw_play claimedbeforethedraw_due }
{}

/// FrameWithoutAnswer
#[tactic(auto, unfolding(def_hostile::specs::NumbersText::opened_numbers_text, test_hostile::specs::Lines::opened_more, test_hostile::specs::FrameWithoutAnswer::opened))]
pub fn framewithoutanswer()
    ensures told { TellsFramesSo framewithoutanswer_play framewithoutanswer_due }
{}

/// HostilePair
#[tactic(auto, unfolding(def_hostile::specs::NumbersText::opened_numbers_text, test_hostile::specs::Lines::opened_more, test_hostile::specs::HostilePair::opened))]
pub fn hostilepair()
    ensures told { TellsFramesSo hostilepair_play hostilepair_due }
{}

/// OneWordForTwoGifts
#[tactic(auto, unfolding(def_hostile::specs::NumbersText::opened_numbers_text, test_hostile::specs::Lines::opened_more, test_hostile::specs::OneWordForTwoGifts::opened))]
pub fn onewordfortwogifts()
    ensures told { TellsFramesSo onewordfortwogifts_play onewordfortwogifts_due }
{}

/// ShortenOfAnUnsettledName
#[tactic(auto, unfolding(def_hostile::specs::NumbersText::opened_numbers_text, test_hostile::specs::Lines::opened_more, test_hostile::specs::ShortenOfAnUnsettledName::opened))]
pub fn shortenofanunsettledname()
    ensures told { TellsFramesSo shortenofanunsettledname_play shortenofanunsettledname_due }
{}

/// ShortenToANoticedVat
#[tactic(auto, unfolding(def_hostile::specs::NumbersText::opened_numbers_text, test_hostile::specs::Lines::opened_more, test_hostile::specs::ShortenToANoticedVat::opened))]
pub fn shortentoanoticedvat()
    ensures told { TellsFramesSo shortentoanoticedvat_play shortentoanoticedvat_due }
{}

/// ToldAgainAndThenDrawn
#[tactic(auto, unfolding(def_hostile::specs::NumbersText::opened_numbers_text, test_hostile::specs::Lines::opened_more, test_hostile::specs::ToldAgainAndThenDrawn::opened))]
pub fn toldagainandthendrawn()
    ensures told { TellsFramesSo toldagainandthendrawn_play toldagainandthendrawn_due }
{}

/// A hostile vat says again the swiss number that it was shown: two opens of one gift stand on the link, and the second does nothing.
#[tactic(auto, unfolding(def_hostile::specs::NumbersText::opened_numbers_text, test_hostile::specs::Lines::opened_more, test_hostile::specs::Replayed::opened))]
pub fn replayed()
    ensures told { TellsSo replayed_play replayed_due }
{}

/// AListThatLeadsBack
#[tactic(auto, unfolding(def_hostile::specs::NumbersText::opened_numbers_text, test_hostile::specs::Lines::opened_more, test_hostile::specs::AListThatLeadsBack::opened))]
pub fn alistthatleadsback()
    ensures told { TellsSo alistthatleadsback_play alistthatleadsback_due }
{}

/// AWordOfTwoProviders
#[tactic(auto, unfolding(def_hostile::specs::NumbersText::opened_numbers_text, test_hostile::specs::Lines::opened_more, test_hostile::specs::AWordOfTwoProviders::opened))]
pub fn awordoftwoproviders()
    ensures told { TellsSo awordoftwoproviders_play awordoftwoproviders_due }
{}

/// AskedForAndNotOpened
#[tactic(auto, unfolding(def_hostile::specs::NumbersText::opened_numbers_text, test_hostile::specs::Lines::opened_more, test_hostile::specs::AskedForAndNotOpened::opened))]
pub fn askedforandnotopened()
    ensures told { TellsSo askedforandnotopened_play askedforandnotopened_due }
{}

/// AskedForByAGuessedWord
#[tactic(auto, unfolding(def_hostile::specs::NumbersText::opened_numbers_text, test_hostile::specs::Lines::opened_more, test_hostile::specs::AskedForByAGuessedWord::opened))]
pub fn askedforbyaguessedword()
    ensures told { TellsSo askedforbyaguessedword_play askedforbyaguessedword_due }
{}

/// EachGiftIsOpenedOnce
#[tactic(auto, unfolding(def_hostile::specs::NumbersText::opened_numbers_text, test_hostile::specs::Lines::opened_more, test_hostile::specs::EachGiftIsOpenedOnce::opened))]
pub fn eachgiftisopenedonce()
    ensures told { TellsSo eachgiftisopenedonce_play eachgiftisopenedonce_due }
{}

/// KnownTwiceByOneHostileVat
#[tactic(auto, unfolding(def_hostile::specs::NumbersText::opened_numbers_text, test_hostile::specs::Lines::opened_more, test_hostile::specs::KnownTwiceByOneHostileVat::opened))]
pub fn knowntwicebyonehostilevat()
    ensures told { TellsSo knowntwicebyonehostilevat_play knowntwicebyonehostilevat_due }
{}

/// LeadsBackByAGuessedWord
#[tactic(auto, unfolding(def_hostile::specs::NumbersText::opened_numbers_text, test_hostile::specs::Lines::opened_more, test_hostile::specs::LeadsBackByAGuessedWord::opened))]
pub fn leadsbackbyaguessedword()
    ensures told { TellsSo leadsbackbyaguessedword_play leadsbackbyaguessedword_due }
{}

/// ListsOf100
#[tactic(auto, unfolding(def_hostile::specs::NumbersText::opened_numbers_text, test_hostile::specs::Lines::opened_more, test_hostile::specs::ListsOf100::opened))]
pub fn listsof100()
    ensures told { TellsSo listsof100_play listsof100_due }
{}

/// MalformedAndUnopenedGifts
#[tactic(auto, unfolding(def_hostile::specs::NumbersText::opened_numbers_text, test_hostile::specs::Lines::opened_more, test_hostile::specs::MalformedAndUnopenedGifts::opened))]
pub fn malformedandunopenedgifts()
    ensures told { TellsSo malformedandunopenedgifts_play malformedandunopenedgifts_due }
{}

/// OrderByAGuessedWord
#[tactic(auto, unfolding(def_hostile::specs::NumbersText::opened_numbers_text, test_hostile::specs::Lines::opened_more, test_hostile::specs::OrderByAGuessedWord::opened))]
pub fn orderbyaguessedword()
    ensures told { TellsSo orderbyaguessedword_play orderbyaguessedword_due }
{}

/// OrderHandedOn
#[tactic(auto, unfolding(def_hostile::specs::NumbersText::opened_numbers_text, test_hostile::specs::Lines::opened_more, test_hostile::specs::OrderHandedOn::opened))]
pub fn orderhandedon()
    ensures told { TellsSo orderhandedon_play orderhandedon_due }
{}

/// OrderLostOnTheWay
#[tactic(auto, unfolding(def_hostile::specs::NumbersText::opened_numbers_text, test_hostile::specs::Lines::opened_more, test_hostile::specs::OrderLostOnTheWay::opened))]
pub fn orderlostontheway()
    ensures told { TellsSo orderlostontheway_play orderlostontheway_due }
{}

/// OrderUnderWayAllSettled
#[tactic(auto, unfolding(def_hostile::specs::NumbersText::opened_numbers_text, test_hostile::specs::Lines::opened_more, test_hostile::specs::OrderUnderWayAllSettled::opened))]
pub fn orderunderwayallsettled()
    ensures told { TellsSo orderunderwayallsettled_play orderunderwayallsettled_due }
{}

/// OrderUnderWayLedOn
#[tactic(auto, unfolding(def_hostile::specs::NumbersText::opened_numbers_text, test_hostile::specs::Lines::opened_more, test_hostile::specs::OrderUnderWayLedOn::opened))]
pub fn orderunderwayledon()
    ensures told { TellsSo orderunderwayledon_play orderunderwayledon_due }
{}

/// NamedTwiceInNothing
#[tactic(auto, unfolding(def_hostile::specs::NumbersText::opened_numbers_text, test_hostile::specs::Lines::opened_more, test_hostile::specs::NamedTwiceInNothing::opened))]
pub fn namedtwiceinnothing()
    ensures told { TellsFramesSo namedtwiceinnothing_play namedtwiceinnothing_due }
{}

/// NamedToItsSender
#[tactic(auto, unfolding(def_hostile::specs::NumbersText::opened_numbers_text, test_hostile::specs::Lines::opened_more, test_hostile::specs::NamedToItsSender::opened))]
pub fn namedtoitssender()
    ensures told { TellsFramesSo namedtoitssender_play namedtoitssender_due }
{}
