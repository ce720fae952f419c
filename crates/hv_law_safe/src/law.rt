// A law, which does nothing when it is called.
ghost use Rattle.std.specs.Prelude.{[], ◌∷◌, None};
ghost use Rattle.hv_tree.specs.Core.{Core};
ghost use Rattle.hv_rules.specs.Accepted.{NamePhase, TypePhase, IsFirstOf};
ghost use Rattle.hv_sem_copying.specs.Meaning.{IsSafe};
ghost use Rattle.hv_law_formed.specs.Formed.{IsFormed};
ghost use Rattle.hv_law_safe.specs.Runs.{Runs};

/// A program that violates no rule of names or types, and changes no place through another, is never
/// stuck, whatever the budget.
pub fn accepted_runs_are_safe()
    ensures { (tree : Core) → IsFormed tree → IsFirstOf (NamePhase ∷ TypePhase ∷ []) tree None → Runs tree → IsSafe tree }
{}
