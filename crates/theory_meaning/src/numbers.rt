//! Laws of numbered nodes, for every schema and all parts.
//!
//! Each function states one law in its contract, and does nothing when it runs.

ghost use Rattle.theory_meaning.specs.Depths.{DepthsAgree};
ghost use Rattle.theory_definitions.specs.Guarded.{Nodes};
ghost use Rattle.theory_definitions.specs.Keywords.{Keywords};
ghost use Rattle.theory_meaning.specs.Numbered.{GuardedIsPlain, GuardedRunsSettle, GuardedSenseSettles, GuardedSettles};
ghost use Rattle.theory_meaning.specs.Numbered.{Numbers, NumbersMeanPlain, NumbersMeanUnfolding, NumbersSayUnfolding, RunsSayOutcomes};
ghost use Rattle.theory_definitions.specs.Parts.{Parts};
ghost use Rattle.serde_json.specs.Data.{Data};
ghost use Rattle.std.specs.Prelude.{ℕ};

/// From some depth on, what numbered nodes say no longer changes.
///
/// This holds whether questions return or not.
pub fn guarded_settles<S, K, R>()
    ensures settles { (w : Parts S K R) (instance : Data) (nodes : Nodes K) (count : ℕ) → GuardedSettles w instance nodes count }
{}

/// If no question returns, a number says what unfolding says of its key.
pub fn numbers_say_unfolding<S, K, R>()
    ensures says { (w : Parts S K R) (keys : Numbers S) (nodes : Nodes K) → NumbersSayUnfolding w keys nodes }
{}

/// If no question returns, a number has the sense of its key, unfolded.
pub fn numbers_mean_unfolding<S, K, R>()
    ensures means { (w : Parts S K R) (keys : Numbers S) (nodes : Nodes K) → NumbersMeanUnfolding w keys nodes }
{}

/// If no question returns, a number has the plain sense of its key.
pub fn numbers_mean_plain<S, K, R>()
    ensures means { (w : Parts S K R) (keys : Numbers S) (nodes : Nodes K) → NumbersMeanPlain w keys nodes }
{}

/// A call that is right about its nodes is right about the plain meaning.
pub fn guarded_is_plain<S, K, R>()
    ensures answers { (w : Parts S K R) (keys : Numbers S) (nodes : Nodes K) → GuardedIsPlain w keys nodes }
{}

/// A run over numbered nodes says what the nodes say under its completion.
///
/// This holds of the outcome and of the units.
pub fn runs_say_outcomes<K, R>()
    ensures says { (keywords : Keywords K R) → RunsSayOutcomes keywords }
{}

/// From some depth on, a run over numbered nodes no longer changes.
///
/// This holds whether questions return or not.
pub fn guarded_runs_settle<K, R>()
    ensures settles { (keywords : Keywords K R) → GuardedRunsSettle keywords }
{}

/// From some depth on, the sense of numbered nodes no longer changes.
pub fn guarded_sense_settles<K, R>()
    ensures settles { (keywords : Keywords K R) → GuardedSenseSettles keywords }
{}

/// If no question returns, all sufficient depths yield the same plain meaning.
pub fn depths_agree<S, K, R>()
    ensures agree { (w : Parts S K R) → DepthsAgree w }
{}

ghost use Rattle.theory_meaning.specs.Means.{NumbersMean};

/// If no question returns, numbers have the plain meaning of the root's key.
pub fn numbers_mean<S, K, R>()
    ensures { (w : Parts S K R) (keys : Numbers S) (nodes : Nodes K) → NumbersMean w keys nodes }
{}

ghost use Rattle.theory_meaning.specs.Means.{NumbersHaveUnits};

/// If no question returns, numbers have the units of the plain meaning.
///
/// They have them under each completion.
pub fn numbers_have_units<S, K, R>()
    ensures units { (w : Parts S K R) (keys : Numbers S) (nodes : Nodes K) → NumbersHaveUnits w keys nodes }
{}

ghost use Rattle.std.specs.Prelude.{Bool};
ghost use Rattle.theory_meaning.specs.Fractions.{NumbersAreWhole};

/// A number has whole keywords if its key's schema contains no fraction.
pub fn numbers_are_whole<S, K, R>()
    ensures { (w : Parts S K R) (is_whole : K → Bool) (keys : Numbers S) (nodes : Nodes K)
        → NumbersAreWhole w is_whole keys nodes }
{}
