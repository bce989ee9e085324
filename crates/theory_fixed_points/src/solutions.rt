//! Laws of the greatest solution, for every schema and all parts.
//!
//! Each function states laws in its contract, and does nothing when it runs.

ghost use Rattle.std.specs.Prelude.{List};
ghost use Rattle.theory_definitions.specs.Guarded.{Nodes};
ghost use Rattle.theory_definitions.specs.Keywords.{Keywords};
ghost use Rattle.theory_definitions.specs.Parts.{Parts};
ghost use Rattle.theory_definitions.specs.Plan.{Key};
ghost use Rattle.theory_fixed_points.specs.NodesSay.{NodesSayGreatest};
ghost use Rattle.theory_fixed_points.specs.NumbersSay.{FinishingAnswers, GreatestAnswers, KeysAcceptAlike, LargestStands};
ghost use Rattle.theory_fixed_points.specs.NumbersSay.{NumbersAcceptGreatest, NumbersAreMonotone, NumbersSayGreatest};
ghost use Rattle.theory_fixed_points.specs.NumbersSay.{PlainIsGreatest, ReachedAnswer, ReachedFinish, ReachedStand};
ghost use Rattle.theory_fixed_points.specs.Solved.{SolverSaysGreatest, SolverSaysGuarded, StagedIsSound, TellsUnderSets};
ghost use Rattle.theory_fixed_points.specs.Under.{Solving};
ghost use Rattle.theory_meaning.specs.Numbered.{Numbers};

/// If every keyword is monotone, numbered nodes say their greatest solution.
///
/// This holds whether questions return or not.
pub fn nodes_say_greatest<K, R>()
    ensures greatest { (keywords : Keywords K R) → NodesSayGreatest keywords }
{}

/// A number says the greatest solution of its key.
///
/// That is, if every keyword is monotone, it says yes at a place if and only if the greatest
/// solution contains the pair of its key's target and the place. The greatest solution is the
/// largest set of such pairs that stands by itself. It exists if every reached key has a number,
/// and it makes no difference whether its pairs are formed with keys or with targets.
pub fn numbers_say_greatest<S, K, R>()
    ensures says { (w : Parts S K R) (keys : Numbers S) (nodes : Nodes K) → NumbersSayGreatest w keys nodes }
    ensures stands { (w : Parts S K R) (keys : Numbers S) (nodes : Nodes K) → LargestStands w keys nodes }
    ensures alike { (w : Parts S K R) (keys : Numbers S) (nodes : Nodes K) → KeysAcceptAlike w keys nodes }
    ensures accept { (w : Parts S K R) (keys : Numbers S) (nodes : Nodes K) → NumbersAcceptGreatest w keys nodes }
    ensures plain { (w : Parts S K R) (keys : Numbers S) (nodes : Nodes K) → PlainIsGreatest w keys nodes }
{}

/// A call that decides says what the greatest solutions say.
///
/// If every keyword is monotone, it answers yes if and only if they accept the root at the root
/// place. If the matcher finishes every match, each call that makes a run decides.
pub fn calls_say_greatest<S, K, R>()
    ensures answers { (w : Parts S K R) (keys : Numbers S) (nodes : Nodes K) → GreatestAnswers w keys nodes }
    ensures finishing { (w : Parts S K R) (keys : Numbers S) (nodes : Nodes K) → FinishingAnswers w keys nodes }
{}

/// Numbers have monotone keywords if all keys that the root reaches do.
pub fn numbers_are_monotone<S, K, R>()
    ensures monotone { (w : Parts S K R) (keys : List (Key S)) (nodes : Nodes K) → NumbersAreMonotone w keys nodes }
{}

/// Calls on the numbers of reached keys say what the greatest solutions say.
///
/// This holds if every keyword of a reached key is monotone. If every reached key has a number,
/// there is a largest set that stands by itself.
pub fn reached_say_greatest<S, K, R>()
    ensures answer { (w : Parts S K R) (keys : List (Key S)) (nodes : Nodes K) → ReachedAnswer w keys nodes }
    ensures finish { (w : Parts S K R) (keys : List (Key S)) (nodes : Nodes K) → ReachedFinish w keys nodes }
    ensures stand { (w : Parts S K R) (keys : List (Key S)) (nodes : Nodes K) → ReachedStand w keys nodes }
{}

/// A solver that works by stages finds what the nodes say under guards.
///
/// Each stage rests on those before it. This holds whether keywords are monotone or not; if each
/// keyword is monotone, the solver finds the greatest solution.
pub fn solver_says<K, R>()
    ensures guarded { (w : Solving K R) → SolverSaysGuarded w }
    ensures greatest { (w : Solving K R) → SolverSaysGreatest w }
    ensures sound { (w : Solving K R) → StagedIsSound w }
    ensures sets { (w : Solving K R) → TellsUnderSets w }
{}
