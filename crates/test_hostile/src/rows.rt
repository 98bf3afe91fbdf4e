//! The rows.

ghost use Rattle.test_hostile.specs.MessageOfAFrame.{Holds as MessageOfAFrameHolds};
ghost use Rattle.test_hostile.specs.CutByAFrame.{Holds as CutByAFrameHolds};
ghost use Rattle.test_hostile.specs.FramesShown.{Holds as FramesShownHolds};
ghost use Rattle.test_hostile.specs.GiftKnownAlready.{Holds as GiftKnownAlreadyHolds};
ghost use Rattle.test_hostile.specs.GiftKnownTwice.{Holds as GiftKnownTwiceHolds};
ghost use Rattle.test_hostile.specs.NewNamesWire.{Holds as NewNamesWireHolds};
ghost use Rattle.test_hostile.specs.MalformedOffsets.{Holds as MalformedOffsetsHolds};
ghost use Rattle.test_hostile.specs.ThirdAndAsk.{Holds as ThirdAndAskHolds};
ghost use Rattle.test_hostile.specs.ElsewhereCycle.{Holds as ElsewhereCycleHolds};
ghost use Rattle.test_hostile.specs.ShortenNothing.{Holds as ShortenNothingHolds};
ghost use Rattle.test_hostile.specs.ToHostile.{Holds as ToHostileHolds};
ghost use Rattle.test_hostile.specs.OpenTwice.{Holds as OpenTwiceHolds};
ghost use Rattle.test_hostile.specs.KnowsAGiftTwiceWire.{Holds as KnowsAGiftTwiceWireHolds};
ghost use Rattle.test_hostile.specs.ListHeight.{Holds as ListHeightHolds};
ghost use Rattle.test_hostile.specs.ElsewhereSelfAndShortenWire.{Holds as ElsewhereSelfAndShortenWireHolds};
ghost use Rattle.test_hostile.specs.ObjectThroughAnHonestVatWire.{Holds as ObjectThroughAnHonestVatWireHolds};
ghost use Rattle.test_hostile.specs.MalformedThenPartition.{Holds as MalformedThenPartitionHolds};
ghost use Rattle.test_hostile.specs.MalformedListNew.{Holds as MalformedListNewHolds};
ghost use Rattle.test_hostile.specs.MalformedP1EmptyOp.{Holds as MalformedP1EmptyOpHolds};
ghost use Rattle.test_hostile.specs.MalformedP1Prim.{Holds as MalformedP1PrimHolds};
ghost use Rattle.test_hostile.specs.MalformedP1Short.{Holds as MalformedP1ShortHolds};
ghost use Rattle.test_hostile.specs.MalformedP1Tail.{Holds as MalformedP1TailHolds};
ghost use Rattle.test_hostile.specs.MalformedP1Utf8.{Holds as MalformedP1Utf8Holds};
ghost use Rattle.test_hostile.specs.MalformedP2Above.{Holds as MalformedP2AboveHolds};
ghost use Rattle.test_hostile.specs.MalformedP2ExportKind.{Holds as MalformedP2ExportKindHolds};
ghost use Rattle.test_hostile.specs.MalformedP2Myanswer.{Holds as MalformedP2MyanswerHolds};
ghost use Rattle.test_hostile.specs.MalformedP2Question.{Holds as MalformedP2QuestionHolds};
ghost use Rattle.test_hostile.specs.MalformedP2Youranswer.{Holds as MalformedP2YouranswerHolds};
ghost use Rattle.test_hostile.specs.MalformedP2Yourexport.{Holds as MalformedP2YourexportHolds};
ghost use Rattle.test_hostile.specs.MalformedP3Provider.{Holds as MalformedP3ProviderHolds};
ghost use Rattle.test_hostile.specs.MalformedP3Vat.{Holds as MalformedP3VatHolds};
ghost use Rattle.test_hostile.specs.MalformedP4Accept.{Holds as MalformedP4AcceptHolds};
ghost use Rattle.test_hostile.specs.MalformedP4Elsewhere.{Holds as MalformedP4ElsewhereHolds};
ghost use Rattle.test_hostile.specs.MalformedP4ThirdPeer.{Holds as MalformedP4ThirdPeerHolds};
ghost use Rattle.test_hostile.specs.MalformedP4ThirdSelf.{Holds as MalformedP4ThirdSelfHolds};
ghost use Rattle.test_hostile.specs.MalformedP5.{Holds as MalformedP5Holds};
ghost use Rattle.test_hostile.specs.MalformedP5Own.{Holds as MalformedP5OwnHolds};
ghost use Rattle.test_hostile.specs.MalformedP5Third.{Holds as MalformedP5ThirdHolds};
ghost use Rattle.test_hostile.specs.Random01.{Holds as Random01Holds};
ghost use Rattle.test_hostile.specs.Random02.{Holds as Random02Holds};
ghost use Rattle.test_hostile.specs.Random03.{Holds as Random03Holds};
ghost use Rattle.test_hostile.specs.Random04.{Holds as Random04Holds};
ghost use Rattle.test_hostile.specs.Random05.{Holds as Random05Holds};
ghost use Rattle.test_hostile.specs.Random06.{Holds as Random06Holds};
ghost use Rattle.test_hostile.specs.Random07.{Holds as Random07Holds};
ghost use Rattle.test_hostile.specs.Random08.{Holds as Random08Holds};
ghost use Rattle.test_hostile.specs.Random09.{Holds as Random09Holds};
ghost use Rattle.test_hostile.specs.Random10.{Holds as Random10Holds};
ghost use Rattle.test_hostile.specs.Random11.{Holds as Random11Holds};
ghost use Rattle.test_hostile.specs.Random12.{Holds as Random12Holds};
ghost use Rattle.test_hostile.specs.Random13.{Holds as Random13Holds};
ghost use Rattle.test_hostile.specs.Random14.{Holds as Random14Holds};
ghost use Rattle.test_hostile.specs.Random15.{Holds as Random15Holds};
ghost use Rattle.test_hostile.specs.Random16.{Holds as Random16Holds};
ghost use Rattle.test_hostile.specs.Random17.{Holds as Random17Holds};
ghost use Rattle.test_hostile.specs.Random18.{Holds as Random18Holds};
ghost use Rattle.test_hostile.specs.Random19.{Holds as Random19Holds};
ghost use Rattle.test_hostile.specs.Random20.{Holds as Random20Holds};
ghost use Rattle.test_hostile.specs.Random21.{Holds as Random21Holds};
ghost use Rattle.test_hostile.specs.Random22.{Holds as Random22Holds};
ghost use Rattle.test_hostile.specs.Random23.{Holds as Random23Holds};
ghost use Rattle.test_hostile.specs.Random24.{Holds as Random24Holds};
ghost use Rattle.test_hostile.specs.Random25.{Holds as Random25Holds};
ghost use Rattle.test_hostile.specs.Random26.{Holds as Random26Holds};
ghost use Rattle.test_hostile.specs.AgainTold.{Holds as AgainToldHolds};
ghost use Rattle.test_hostile.specs.ClaimedBeforeTheDraw.{Holds as ClaimedBeforeTheDrawHolds};
ghost use Rattle.test_hostile.specs.FrameWithoutAnswer.{Holds as FrameWithoutAnswerHolds};
ghost use Rattle.test_hostile.specs.HostilePair.{Holds as HostilePairHolds};
ghost use Rattle.test_hostile.specs.OneWordForTwoGifts.{Holds as OneWordForTwoGiftsHolds};
ghost use Rattle.test_hostile.specs.ShortenOfAnUnsettledName.{Holds as ShortenOfAnUnsettledNameHolds};
ghost use Rattle.test_hostile.specs.ShortenToANoticedVat.{Holds as ShortenToANoticedVatHolds};
ghost use Rattle.test_hostile.specs.ToldAgainAndThenDrawn.{Holds as ToldAgainAndThenDrawnHolds};
ghost use Rattle.test_hostile.specs.Replayed.{Holds as ReplayedHolds};
ghost use Rattle.test_hostile.specs.StopsInAFrame.{Holds as StopsInAFrameHolds, Told as StopsInAFrameTold};
ghost use Rattle.test_hostile.specs.StopsInANotice.{Holds as StopsInANoticeHolds, Told as StopsInANoticeTold};
ghost use Rattle.test_hostile.specs.AListThatLeadsBack.{Holds as AListThatLeadsBackHolds};
ghost use Rattle.test_hostile.specs.EachGiftIsOpenedOnce.{Holds as EachGiftIsOpenedOnceHolds};
ghost use Rattle.test_hostile.specs.AWordOfTwoProviders.{Holds as AWordOfTwoProvidersHolds};
ghost use Rattle.test_hostile.specs.KnownTwiceByOneHostileVat.{Holds as KnownTwiceByOneHostileVatHolds};
ghost use Rattle.test_hostile.specs.LeadsBackByAGuessedWord.{Holds as LeadsBackByAGuessedWordHolds};
ghost use Rattle.test_hostile.specs.ListsOf100.{Holds as ListsOf100Holds};
ghost use Rattle.test_hostile.specs.MalformedAndUnopenedGifts.{Holds as MalformedAndUnopenedGiftsHolds};
ghost use Rattle.test_hostile.specs.OrderByAGuessedWord.{Holds as OrderByAGuessedWordHolds};
ghost use Rattle.test_hostile.specs.OrderLostOnTheWay.{Holds as OrderLostOnTheWayHolds};
ghost use Rattle.test_hostile.specs.OrderUnderWayAllSettled.{Holds as OrderUnderWayAllSettledHolds};
ghost use Rattle.test_hostile.specs.OrderUnderWayLedOn.{Holds as OrderUnderWayLedOnHolds};
ghost use Rattle.test_hostile.specs.OrderHandedOn.{Holds as OrderHandedOnHolds};
ghost use Rattle.test_hostile.specs.AskedForByAGuessedWord.{Holds as AskedForByAGuessedWordHolds};
ghost use Rattle.test_hostile.specs.AskedForAndNotOpened.{Holds as AskedForAndNotOpenedHolds};
ghost use Rattle.test_hostile.specs.NamedTwiceInNothing.{Holds as NamedTwiceInNothingHolds};
ghost use Rattle.test_hostile.specs.NamedToItsSender.{Holds as NamedToItsSenderHolds};

/// MessageOfAFrame
#[tactic(auto, unfolding(def_hostile::specs::HostileText::opened_hostile_text, crate::specs::Lines::opened_more, crate::specs::MessageOfAFrame::opened))]
pub fn messageofaframe()
    ensures text { MessageOfAFrameHolds }
{}

/// CutByAFrame
#[tactic(auto, unfolding(def_hostile::specs::HostileText::opened_hostile_text, crate::specs::Lines::opened_more, crate::specs::CutByAFrame::opened))]
pub fn cutbyaframe()
    ensures text { CutByAFrameHolds }
{}

/// FramesShown
#[tactic(auto, unfolding(def_hostile::specs::HostileText::opened_hostile_text, crate::specs::Lines::opened_more, crate::specs::FramesShown::opened))]
pub fn framesshown()
    ensures text { FramesShownHolds }
{}

/// GiftKnownAlready
#[tactic(auto, unfolding(def_hostile::specs::HostileText::opened_hostile_text, crate::specs::Lines::opened_more, crate::specs::GiftKnownAlready::opened))]
pub fn giftknownalready()
    ensures text { GiftKnownAlreadyHolds }
{}

/// GiftKnownTwice
#[tactic(auto, unfolding(def_hostile::specs::HostileText::opened_hostile_text, crate::specs::Lines::opened_more, crate::specs::GiftKnownTwice::opened))]
pub fn giftknowntwice()
    ensures text { GiftKnownTwiceHolds }
{}

/// NewNamesWire
#[tactic(auto, unfolding(def_hostile::specs::HostileText::opened_hostile_text, crate::specs::Lines::opened_more, crate::specs::NewNamesWire::opened))]
pub fn newnameswire()
    ensures text { NewNamesWireHolds }
{}

/// MalformedOffsets
#[tactic(auto, unfolding(def_hostile::specs::HostileText::opened_hostile_text, crate::specs::Lines::opened_more, crate::specs::MalformedOffsets::opened))]
pub fn malformedoffsets()
    ensures text { MalformedOffsetsHolds }
{}

/// ThirdAndAsk
#[tactic(auto, unfolding(def_hostile::specs::HostileText::opened_hostile_text, crate::specs::Lines::opened_more, crate::specs::ThirdAndAsk::opened))]
pub fn thirdandask()
    ensures text { ThirdAndAskHolds }
{}

/// ElsewhereCycle
#[tactic(auto, unfolding(def_hostile::specs::HostileText::opened_hostile_text, crate::specs::Lines::opened_more, crate::specs::ElsewhereCycle::opened))]
pub fn elsewherecycle()
    ensures text { ElsewhereCycleHolds }
{}

/// ShortenNothing
#[tactic(auto, unfolding(def_hostile::specs::HostileText::opened_hostile_text, crate::specs::Lines::opened_more, crate::specs::ShortenNothing::opened))]
pub fn shortennothing()
    ensures text { ShortenNothingHolds }
{}

/// ToHostile
#[tactic(auto, unfolding(def_hostile::specs::HostileText::opened_hostile_text, crate::specs::Lines::opened_more, crate::specs::ToHostile::opened))]
pub fn tohostile()
    ensures text { ToHostileHolds }
{}

/// OpenTwice
#[tactic(auto, unfolding(def_hostile::specs::HostileText::opened_hostile_text, crate::specs::Lines::opened_more, crate::specs::OpenTwice::opened))]
pub fn opentwice()
    ensures text { OpenTwiceHolds }
{}

/// KnowsAGiftTwiceWire
#[tactic(auto, unfolding(def_hostile::specs::HostileText::opened_hostile_text, crate::specs::Lines::opened_more, crate::specs::KnowsAGiftTwiceWire::opened))]
pub fn knowsagifttwicewire()
    ensures text { KnowsAGiftTwiceWireHolds }
{}

/// ListHeight
#[tactic(auto, unfolding(def_hostile::specs::HostileText::opened_hostile_text, crate::specs::Lines::opened_more, crate::specs::ListHeight::opened))]
pub fn listheight()
    ensures text { ListHeightHolds }
{}

/// ElsewhereSelfAndShortenWire
#[tactic(auto, unfolding(def_hostile::specs::HostileText::opened_hostile_text, crate::specs::Lines::opened_more, crate::specs::ElsewhereSelfAndShortenWire::opened))]
pub fn elsewhereselfandshortenwire()
    ensures text { ElsewhereSelfAndShortenWireHolds }
{}

/// ObjectThroughAnHonestVatWire
#[tactic(auto, unfolding(def_hostile::specs::HostileText::opened_hostile_text, crate::specs::Lines::opened_more, crate::specs::ObjectThroughAnHonestVatWire::opened))]
pub fn objectthroughanhonestvatwire()
    ensures text { ObjectThroughAnHonestVatWireHolds }
{}

/// MalformedThenPartition
#[tactic(auto, unfolding(def_hostile::specs::HostileText::opened_hostile_text, crate::specs::Lines::opened_more, crate::specs::MalformedThenPartition::opened))]
pub fn malformedthenpartition()
    ensures text { MalformedThenPartitionHolds }
{}

/// MalformedListNew
#[tactic(auto, unfolding(def_hostile::specs::HostileText::opened_hostile_text, crate::specs::Lines::opened_more, crate::specs::MalformedListNew::opened))]
pub fn malformedlistnew()
    ensures text { MalformedListNewHolds }
{}

/// MalformedP1EmptyOp
#[tactic(auto, unfolding(def_hostile::specs::HostileText::opened_hostile_text, crate::specs::Lines::opened_more, crate::specs::MalformedP1EmptyOp::opened))]
pub fn malformedp1emptyop()
    ensures text { MalformedP1EmptyOpHolds }
{}

/// MalformedP1Prim
#[tactic(auto, unfolding(def_hostile::specs::HostileText::opened_hostile_text, crate::specs::Lines::opened_more, crate::specs::MalformedP1Prim::opened))]
pub fn malformedp1prim()
    ensures text { MalformedP1PrimHolds }
{}

/// MalformedP1Short
#[tactic(auto, unfolding(def_hostile::specs::HostileText::opened_hostile_text, crate::specs::Lines::opened_more, crate::specs::MalformedP1Short::opened))]
pub fn malformedp1short()
    ensures text { MalformedP1ShortHolds }
{}

/// MalformedP1Tail
#[tactic(auto, unfolding(def_hostile::specs::HostileText::opened_hostile_text, crate::specs::Lines::opened_more, crate::specs::MalformedP1Tail::opened))]
pub fn malformedp1tail()
    ensures text { MalformedP1TailHolds }
{}

/// MalformedP1Utf8
#[tactic(auto, unfolding(def_hostile::specs::HostileText::opened_hostile_text, crate::specs::Lines::opened_more, crate::specs::MalformedP1Utf8::opened))]
pub fn malformedp1utf8()
    ensures text { MalformedP1Utf8Holds }
{}

/// MalformedP2Above
#[tactic(auto, unfolding(def_hostile::specs::HostileText::opened_hostile_text, crate::specs::Lines::opened_more, crate::specs::MalformedP2Above::opened))]
pub fn malformedp2above()
    ensures text { MalformedP2AboveHolds }
{}

/// MalformedP2ExportKind
#[tactic(auto, unfolding(def_hostile::specs::HostileText::opened_hostile_text, crate::specs::Lines::opened_more, crate::specs::MalformedP2ExportKind::opened))]
pub fn malformedp2exportkind()
    ensures text { MalformedP2ExportKindHolds }
{}

/// MalformedP2Myanswer
#[tactic(auto, unfolding(def_hostile::specs::HostileText::opened_hostile_text, crate::specs::Lines::opened_more, crate::specs::MalformedP2Myanswer::opened))]
pub fn malformedp2myanswer()
    ensures text { MalformedP2MyanswerHolds }
{}

/// MalformedP2Question
#[tactic(auto, unfolding(def_hostile::specs::HostileText::opened_hostile_text, crate::specs::Lines::opened_more, crate::specs::MalformedP2Question::opened))]
pub fn malformedp2question()
    ensures text { MalformedP2QuestionHolds }
{}

/// MalformedP2Youranswer
#[tactic(auto, unfolding(def_hostile::specs::HostileText::opened_hostile_text, crate::specs::Lines::opened_more, crate::specs::MalformedP2Youranswer::opened))]
pub fn malformedp2youranswer()
    ensures text { MalformedP2YouranswerHolds }
{}

/// MalformedP2Yourexport
#[tactic(auto, unfolding(def_hostile::specs::HostileText::opened_hostile_text, crate::specs::Lines::opened_more, crate::specs::MalformedP2Yourexport::opened))]
pub fn malformedp2yourexport()
    ensures text { MalformedP2YourexportHolds }
{}

/// MalformedP3Provider
#[tactic(auto, unfolding(def_hostile::specs::HostileText::opened_hostile_text, crate::specs::Lines::opened_more, crate::specs::MalformedP3Provider::opened))]
pub fn malformedp3provider()
    ensures text { MalformedP3ProviderHolds }
{}

/// MalformedP3Vat
#[tactic(auto, unfolding(def_hostile::specs::HostileText::opened_hostile_text, crate::specs::Lines::opened_more, crate::specs::MalformedP3Vat::opened))]
pub fn malformedp3vat()
    ensures text { MalformedP3VatHolds }
{}

/// MalformedP4Accept
#[tactic(auto, unfolding(def_hostile::specs::HostileText::opened_hostile_text, crate::specs::Lines::opened_more, crate::specs::MalformedP4Accept::opened))]
pub fn malformedp4accept()
    ensures text { MalformedP4AcceptHolds }
{}

/// MalformedP4Elsewhere
#[tactic(auto, unfolding(def_hostile::specs::HostileText::opened_hostile_text, crate::specs::Lines::opened_more, crate::specs::MalformedP4Elsewhere::opened))]
pub fn malformedp4elsewhere()
    ensures text { MalformedP4ElsewhereHolds }
{}

/// MalformedP4ThirdPeer
#[tactic(auto, unfolding(def_hostile::specs::HostileText::opened_hostile_text, crate::specs::Lines::opened_more, crate::specs::MalformedP4ThirdPeer::opened))]
pub fn malformedp4thirdpeer()
    ensures text { MalformedP4ThirdPeerHolds }
{}

/// MalformedP4ThirdSelf
#[tactic(auto, unfolding(def_hostile::specs::HostileText::opened_hostile_text, crate::specs::Lines::opened_more, crate::specs::MalformedP4ThirdSelf::opened))]
pub fn malformedp4thirdself()
    ensures text { MalformedP4ThirdSelfHolds }
{}

/// MalformedP5
#[tactic(auto, unfolding(def_hostile::specs::HostileText::opened_hostile_text, crate::specs::Lines::opened_more, crate::specs::MalformedP5::opened))]
pub fn malformedp5()
    ensures text { MalformedP5Holds }
{}

/// MalformedP5Own
#[tactic(auto, unfolding(def_hostile::specs::HostileText::opened_hostile_text, crate::specs::Lines::opened_more, crate::specs::MalformedP5Own::opened))]
pub fn malformedp5own()
    ensures text { MalformedP5OwnHolds }
{}

/// MalformedP5Third
#[tactic(auto, unfolding(def_hostile::specs::HostileText::opened_hostile_text, crate::specs::Lines::opened_more, crate::specs::MalformedP5Third::opened))]
pub fn malformedp5third()
    ensures text { MalformedP5ThirdHolds }
{}

/// Random01
#[tactic(auto, unfolding(def_hostile::specs::HostileText::opened_hostile_text, crate::specs::Lines::opened_more, crate::specs::Random01::opened))]
pub fn random01()
    ensures text { Random01Holds }
{}

/// Random02
#[tactic(auto, unfolding(def_hostile::specs::HostileText::opened_hostile_text, crate::specs::Lines::opened_more, crate::specs::Random02::opened))]
pub fn random02()
    ensures text { Random02Holds }
{}

/// Random03
#[tactic(auto, unfolding(def_hostile::specs::HostileText::opened_hostile_text, crate::specs::Lines::opened_more, crate::specs::Random03::opened))]
pub fn random03()
    ensures text { Random03Holds }
{}

/// Random04
#[tactic(auto, unfolding(def_hostile::specs::HostileText::opened_hostile_text, crate::specs::Lines::opened_more, crate::specs::Random04::opened))]
pub fn random04()
    ensures text { Random04Holds }
{}

/// Random05
#[tactic(auto, unfolding(def_hostile::specs::HostileText::opened_hostile_text, crate::specs::Lines::opened_more, crate::specs::Random05::opened))]
pub fn random05()
    ensures text { Random05Holds }
{}

/// Random06
#[tactic(auto, unfolding(def_hostile::specs::HostileText::opened_hostile_text, crate::specs::Lines::opened_more, crate::specs::Random06::opened))]
pub fn random06()
    ensures text { Random06Holds }
{}

/// Random07
#[tactic(auto, unfolding(def_hostile::specs::HostileText::opened_hostile_text, crate::specs::Lines::opened_more, crate::specs::Random07::opened))]
pub fn random07()
    ensures text { Random07Holds }
{}

/// Random08
#[tactic(auto, unfolding(def_hostile::specs::HostileText::opened_hostile_text, crate::specs::Lines::opened_more, crate::specs::Random08::opened))]
pub fn random08()
    ensures text { Random08Holds }
{}

/// Random09
#[tactic(auto, unfolding(def_hostile::specs::HostileText::opened_hostile_text, crate::specs::Lines::opened_more, crate::specs::Random09::opened))]
pub fn random09()
    ensures text { Random09Holds }
{}

/// Random10
#[tactic(auto, unfolding(def_hostile::specs::HostileText::opened_hostile_text, crate::specs::Lines::opened_more, crate::specs::Random10::opened))]
pub fn random10()
    ensures text { Random10Holds }
{}

/// Random11
#[tactic(auto, unfolding(def_hostile::specs::HostileText::opened_hostile_text, crate::specs::Lines::opened_more, crate::specs::Random11::opened))]
pub fn random11()
    ensures text { Random11Holds }
{}

/// Random12
#[tactic(auto, unfolding(def_hostile::specs::HostileText::opened_hostile_text, crate::specs::Lines::opened_more, crate::specs::Random12::opened))]
pub fn random12()
    ensures text { Random12Holds }
{}

/// Random13
#[tactic(auto, unfolding(def_hostile::specs::HostileText::opened_hostile_text, crate::specs::Lines::opened_more, crate::specs::Random13::opened))]
pub fn random13()
    ensures text { Random13Holds }
{}

/// Random14
#[tactic(auto, unfolding(def_hostile::specs::HostileText::opened_hostile_text, crate::specs::Lines::opened_more, crate::specs::Random14::opened))]
pub fn random14()
    ensures text { Random14Holds }
{}

/// Random15
#[tactic(auto, unfolding(def_hostile::specs::HostileText::opened_hostile_text, crate::specs::Lines::opened_more, crate::specs::Random15::opened))]
pub fn random15()
    ensures text { Random15Holds }
{}

/// Random16
#[tactic(auto, unfolding(def_hostile::specs::HostileText::opened_hostile_text, crate::specs::Lines::opened_more, crate::specs::Random16::opened))]
pub fn random16()
    ensures text { Random16Holds }
{}

/// Random17
#[tactic(auto, unfolding(def_hostile::specs::HostileText::opened_hostile_text, crate::specs::Lines::opened_more, crate::specs::Random17::opened))]
pub fn random17()
    ensures text { Random17Holds }
{}

/// Random18
#[tactic(auto, unfolding(def_hostile::specs::HostileText::opened_hostile_text, crate::specs::Lines::opened_more, crate::specs::Random18::opened))]
pub fn random18()
    ensures text { Random18Holds }
{}

/// Random19
#[tactic(auto, unfolding(def_hostile::specs::HostileText::opened_hostile_text, crate::specs::Lines::opened_more, crate::specs::Random19::opened))]
pub fn random19()
    ensures text { Random19Holds }
{}

/// Random20
#[tactic(auto, unfolding(def_hostile::specs::HostileText::opened_hostile_text, crate::specs::Lines::opened_more, crate::specs::Random20::opened))]
pub fn random20()
    ensures text { Random20Holds }
{}

/// Random21
#[tactic(auto, unfolding(def_hostile::specs::HostileText::opened_hostile_text, crate::specs::Lines::opened_more, crate::specs::Random21::opened))]
pub fn random21()
    ensures text { Random21Holds }
{}

/// Random22
#[tactic(auto, unfolding(def_hostile::specs::HostileText::opened_hostile_text, crate::specs::Lines::opened_more, crate::specs::Random22::opened))]
pub fn random22()
    ensures text { Random22Holds }
{}

/// Random23
#[tactic(auto, unfolding(def_hostile::specs::HostileText::opened_hostile_text, crate::specs::Lines::opened_more, crate::specs::Random23::opened))]
pub fn random23()
    ensures text { Random23Holds }
{}

/// Random24
#[tactic(auto, unfolding(def_hostile::specs::HostileText::opened_hostile_text, crate::specs::Lines::opened_more, crate::specs::Random24::opened))]
pub fn random24()
    ensures text { Random24Holds }
{}

/// Random25
#[tactic(auto, unfolding(def_hostile::specs::HostileText::opened_hostile_text, crate::specs::Lines::opened_more, crate::specs::Random25::opened))]
pub fn random25()
    ensures text { Random25Holds }
{}

/// Random26
#[tactic(auto, unfolding(def_hostile::specs::HostileText::opened_hostile_text, crate::specs::Lines::opened_more, crate::specs::Random26::opened))]
pub fn random26()
    ensures text { Random26Holds }
{}

/// AgainTold
#[tactic(auto, unfolding(def_hostile::specs::HostileText::opened_hostile_text, crate::specs::Lines::opened_more, crate::specs::AgainTold::opened))]
pub fn againtold()
    ensures text { AgainToldHolds }
{}

/// ClaimedBeforeTheDraw
#[tactic(auto, unfolding(def_hostile::specs::HostileText::opened_hostile_text, crate::specs::Lines::opened_more, crate::specs::ClaimedBeforeTheDraw::opened))]
pub fn claimedbeforethedraw()
    ensures text { ClaimedBeforeTheDrawHolds }
{}

/// FrameWithoutAnswer
#[tactic(auto, unfolding(def_hostile::specs::HostileText::opened_hostile_text, crate::specs::Lines::opened_more, crate::specs::FrameWithoutAnswer::opened))]
pub fn framewithoutanswer()
    ensures text { FrameWithoutAnswerHolds }
{}

/// HostilePair
#[tactic(auto, unfolding(def_hostile::specs::HostileText::opened_hostile_text, crate::specs::Lines::opened_more, crate::specs::HostilePair::opened))]
pub fn hostilepair()
    ensures text { HostilePairHolds }
{}

/// OneWordForTwoGifts
#[tactic(auto, unfolding(def_hostile::specs::HostileText::opened_hostile_text, crate::specs::Lines::opened_more, crate::specs::OneWordForTwoGifts::opened))]
pub fn onewordfortwogifts()
    ensures text { OneWordForTwoGiftsHolds }
{}

/// ShortenOfAnUnsettledName
#[tactic(auto, unfolding(def_hostile::specs::HostileText::opened_hostile_text, crate::specs::Lines::opened_more, crate::specs::ShortenOfAnUnsettledName::opened))]
pub fn shortenofanunsettledname()
    ensures text { ShortenOfAnUnsettledNameHolds }
{}

/// ShortenToANoticedVat
#[tactic(auto, unfolding(def_hostile::specs::HostileText::opened_hostile_text, crate::specs::Lines::opened_more, crate::specs::ShortenToANoticedVat::opened))]
pub fn shortentoanoticedvat()
    ensures text { ShortenToANoticedVatHolds }
{}

/// ToldAgainAndThenDrawn
#[tactic(auto, unfolding(def_hostile::specs::HostileText::opened_hostile_text, crate::specs::Lines::opened_more, crate::specs::ToldAgainAndThenDrawn::opened))]
pub fn toldagainandthendrawn()
    ensures text { ToldAgainAndThenDrawnHolds }
{}

/// A hostile vat says again the swiss number that it was shown: two opens of one gift stand on the link, and the second does nothing.
#[tactic(auto, unfolding(def_hostile::specs::HostileText::opened_hostile_text, crate::specs::Lines::opened_more, crate::specs::Replayed::opened))]
pub fn replayed()
    ensures text { ReplayedHolds }
{}

/// A lawful frame on whose note the fuel gives out: the scene after the stop is the one before, with the frame on its link, no new name of
/// the hostile vat and no gift claimed. Its text ends at the entry before.
#[tactic(auto, unfolding(def_hostile::specs::HostileText::opened_hostile_text, crate::specs::Lines::opened_more, crate::specs::StopsInAFrame::opened))]
pub fn stops_in_a_frame()
    ensures left { StopsInAFrameHolds }
    ensures text { StopsInAFrameTold }
{}

/// A malformed frame whose notice the fuel does not suffice for: the link is whole after the stop, and the frame is on it.
#[tactic(auto, unfolding(def_hostile::specs::HostileText::opened_hostile_text, crate::specs::Lines::opened_more, crate::specs::StopsInANotice::opened))]
pub fn stops_in_a_notice()
    ensures left { StopsInANoticeHolds }
    ensures text { StopsInANoticeTold }
{}

/// A name that settles to a list in which it stands breaks with a cycle, and the list is there.
#[tactic(auto, unfolding(def_hostile::specs::HostileText::opened_hostile_text, crate::specs::Lines::opened_more, crate::specs::AListThatLeadsBack::opened))]
pub fn a_list_that_leads_back()
    ensures text { AListThatLeadsBackHolds }
{}

/// Two opens of one gift stand on a link, the second since a hostile vat asked for it: a gift is opened once.
#[tactic(auto, unfolding(def_hostile::specs::HostileText::opened_hostile_text, crate::specs::Lines::opened_more, crate::specs::EachGiftIsOpenedOnce::opened))]
pub fn each_gift_is_opened_once()
    ensures text { EachGiftIsOpenedOnceHolds }
{}

/// A word that an honest vat drew for its gift passes as one of a hostile provider too, twice in one frame and once more: another gift, which is asked for once.
#[tactic(auto, unfolding(def_hostile::specs::HostileText::opened_hostile_text, crate::specs::Lines::opened_more, crate::specs::AWordOfTwoProviders::opened))]
pub fn a_word_of_two_providers()
    ensures text { AWordOfTwoProvidersHolds }
{}

/// A vat knows a gift by a position and as a gift, of one hostile provider; its host tells it once, and what was sent on the other entry stays unsettled.
#[tactic(auto, unfolding(def_hostile::specs::HostileText::opened_hostile_text, crate::specs::Lines::opened_more, crate::specs::KnownTwiceByOneHostileVat::opened))]
pub fn known_twice_by_one_hostile_vat()
    ensures text { KnownTwiceByOneHostileVatHolds }
{}

/// A name is elsewhere under the word that would be drawn, and that gift is known: it breaks with a cycle, and nothing is shortened or asked for.
#[tactic(auto, unfolding(def_hostile::specs::HostileText::opened_hostile_text, crate::specs::Lines::opened_more, crate::specs::LeadsBackByAGuessedWord::opened))]
pub fn leads_back_by_a_guessed_word()
    ensures text { LeadsBackByAGuessedWordHolds }
{}

/// Lists up to 100 high come in a frame; what would pass above the limit of height passes as broken.
#[tactic(auto, unfolding(def_hostile::specs::HostileText::opened_hostile_text, crate::specs::Lines::opened_more, crate::specs::ListsOf100::opened))]
pub fn lists_of100()
    ensures text { ListsOf100Holds }
{}

/// A malformed frame cuts and is noticed at its receiver; a vat that was told of a gift by the hostile vat asks the receiver for it all the same.
#[tactic(auto, unfolding(def_hostile::specs::HostileText::opened_hostile_text, crate::specs::Lines::opened_more, crate::specs::MalformedAndUnopenedGifts::opened))]
pub fn malformed_and_unopened_gifts()
    ensures text { MalformedAndUnopenedGiftsHolds }
{}

/// A hostile vat says the word of the next draw: that gift is opened for another name first, so a message goes before one that was sent earlier.
#[tactic(auto, unfolding(def_hostile::specs::HostileText::opened_hostile_text, crate::specs::Lines::opened_more, crate::specs::OrderByAGuessedWord::opened))]
pub fn order_by_a_guessed_word()
    ensures text { OrderByAGuessedWordHolds }
{}

/// A message is lost on a link that is cut, while the hostile vat leads its reference elsewhere: a later one on it is taken.
#[tactic(auto, unfolding(def_hostile::specs::HostileText::opened_hostile_text, crate::specs::Lines::opened_more, crate::specs::OrderLostOnTheWay::opened))]
pub fn order_lost_on_the_way()
    ensures text { OrderLostOnTheWayHolds }
{}

/// A message is under way, while the hostile vat leads its reference elsewhere and all of it settles: a later one on it is taken first.
#[tactic(auto, unfolding(def_hostile::specs::HostileText::opened_hostile_text, crate::specs::Lines::opened_more, crate::specs::OrderUnderWayAllSettled::opened))]
pub fn order_under_way_all_settled()
    ensures text { OrderUnderWayAllSettledHolds }
{}

/// A message is under way, while the hostile vat leads its reference elsewhere: a later one on it goes there, and is taken first.
#[tactic(auto, unfolding(def_hostile::specs::HostileText::opened_hostile_text, crate::specs::Lines::opened_more, crate::specs::OrderUnderWayLedOn::opened))]
pub fn order_under_way_led_on()
    ensures text { OrderUnderWayLedOnHolds }
{}

/// A reference that a hostile vat led elsewhere is handed on: what its receiver sends on it is taken before what was sent on it earlier.
#[tactic(auto, unfolding(def_hostile::specs::HostileText::opened_hostile_text, crate::specs::Lines::opened_more, crate::specs::OrderHandedOn::opened))]
pub fn order_handed_on()
    ensures text { OrderHandedOnHolds }
{}

/// A hostile vat asks for an honest vat's gift under a word that it was not shown, and is told of it as the one to whom it was given.
#[tactic(auto, unfolding(def_hostile::specs::HostileText::opened_hostile_text, crate::specs::Lines::opened_more, crate::specs::AskedForByAGuessedWord::opened))]
pub fn asked_for_by_a_guessed_word()
    ensures text { AskedForByAGuessedWordHolds }
{}

/// A hostile vat tells two vats of one gift that it did not open: both ask for it, and it stays unopened.
#[tactic(auto, unfolding(def_hostile::specs::HostileText::opened_hostile_text, crate::specs::Lines::opened_more, crate::specs::AskedForAndNotOpened::opened))]
pub fn asked_for_and_not_opened()
    ensures text { AskedForAndNotOpenedHolds }
{}

/// A Resolve that does nothing names a gift twice that has no name: it prints by its word both times.
#[tactic(auto, unfolding(def_hostile::specs::HostileText::opened_hostile_text, crate::specs::Lines::opened_more, crate::specs::NamedTwiceInNothing::opened))]
pub fn named_twice_in_nothing()
    ensures text { NamedTwiceInNothingHolds }
{}

/// A vat learns a gift of the sender by a position, and names it to that sender in the same step: its frame tells the position of the gift.
#[tactic(auto, unfolding(def_hostile::specs::HostileText::opened_hostile_text, crate::specs::Lines::opened_more, crate::specs::NamedToItsSender::opened))]
pub fn named_to_its_sender()
    ensures text { NamedToItsSenderHolds }
{}
