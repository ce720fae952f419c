// Laws, which do nothing when they are called.
ghost use Rattle.std.specs.Prelude.{ℕ, List, Option, Contains};
ghost use Rattle.hv_tree.specs.declared.refusal.Refusal.{Refusal};
ghost use Rattle.hv_tree.specs.Core.{Core};
ghost use Rattle.hv_tree.specs.Earlier.{IsFirst};
ghost use Rattle.hv_rules.specs.Accepted.{TypePhase, IsViolatedInPhase};
ghost use Rattle.hv_type_judge.specs.Judged.{all_judged};
ghost use Rattle.hv_type_judge.specs.Holding.{NamesHolders};

/// The first of all that the judges of the parts find is the first violation of the rules of types.
pub fn parts_are_judged_exactly()
    ensures { (tree : Core) (holding : List (List ℕ)) (first : Option Refusal) → NamesHolders tree holding → IsFirst (Contains (all_judged tree holding)) first → IsFirst (IsViolatedInPhase TypePhase tree) first }
{}
