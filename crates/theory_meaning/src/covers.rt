//! Laws of covers: the members of a cover say what every completion says.
ghost use Rattle.theory_definitions.specs.Keywords.{Keywords};
ghost use Rattle.theory_definitions.specs.Parts.{Parts};
ghost use Rattle.theory_meaning.specs.Promises.{NodesFollow, PlainFollows, RunsSpeak, UnitsArePlain};
ghost use Rattle.theory_meaning.specs.Promises.{ErrorsOfMembers, EvaluationOfMembers, FirstOfMembers, SharedOfMembers, VerdictOfMembers};
ghost use Rattle.theory_meaning.specs.Promises.{DecidesOrNot, FinishedDecides, FirstIsHead, LargerDecides, NoneListed};
ghost use Rattle.theory_meaning.specs.Promises.{NoneWhereAccepted, OneCover, UndecidedPast};
ghost use Rattle.theory_meaning.specs.Promises.{FinishingDecides, NodesFinishingDecide, NodesMeetUnfinished, PlainMeetsUnfinished};
ghost use Rattle.theory_meaning.specs.Promises.{MembersDiffer, MembersRun, OneMember, PairsDecide, PairsDiffer, RunsOfCover};
ghost use Rattle.theory_meaning.specs.RunOrder.{MakesItsRuns};

/// A run speaks for every completion that extends its assumptions.
///
/// This holds if it meets only matches that are assumed.
pub fn runs_speak<S, K, R>()
    ensures speak { (w : Parts S K R) → RunsSpeak w }
    ensures units { (w : Parts S K R) → UnitsArePlain w }
    ensures plain { (w : Parts S K R) → PlainFollows w }
{}

/// A run over numbered nodes behaves like a plain run.
///
/// It speaks for every completion that extends its assumptions if it meets only matches that are
/// assumed, whether questions return or not.
pub fn nodes_speak<K, R>()
    ensures follow { (keywords : Keywords K R) → NodesFollow keywords }
{}

/// The members of a cover say what every completion says.
pub fn members_speak()
    ensures verdict { VerdictOfMembers }
    ensures shared { SharedOfMembers }
    ensures errors { ErrorsOfMembers }
    ensures first { FirstOfMembers }
    ensures evaluation { EvaluationOfMembers }
{}

/// The four calls agree, and whether a call decides is itself decidable.
pub fn calls_agree()
    ensures one { OneCover }
    ensures undecided { UndecidedPast }
    ensures decided { DecidesOrNot }
    ensures larger { LargerDecides }
    ensures finished { FinishedDecides }
    ensures pairs { PairsDecide }
    ensures none { NoneListed }
    ensures accepted { NoneWhereAccepted }
    ensures head { FirstIsHead }
{}

/// A run meets only matches that the matcher leaves unfinished.
///
/// If the matcher finishes every match, no run branches, so the first run of a call decides under
/// every limit that allows a run.
pub fn finishing_decides<S, K, R>()
    ensures plain { (w : Parts S K R) → FinishingDecides w }
    ensures nodes { (keywords : Keywords K R) → NodesFinishingDecide keywords }
    ensures met { (w : Parts S K R) → PlainMeetsUnfinished w }
    ensures nodes_met { (keywords : Keywords K R) → NodesMeetUnfinished keywords }
{}

/// Each completion extends exactly one member of a cover.
pub fn members_are_apart()
    ensures one { OneMember }
{}

/// A cover of L members takes 2 L - 1 runs.
pub fn runs_are_counted()
    ensures counted { RunsOfCover }
{}

/// A call makes its runs one after another, up to its limit.
///
/// A call that decides makes each of its runs.
pub fn runs_are_made()
    ensures made { MakesItsRuns }
{}

/// A call branches on distinct pairs.
///
/// So the completion of each member of its cover extends the member.
pub fn branches_differ()
    ensures pairs { PairsDiffer }
    ensures members { MembersRun }
    ensures differ { MembersDiffer }
{}
