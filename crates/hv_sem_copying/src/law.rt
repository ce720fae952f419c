// Laws on runs. They do nothing when they are called.
ghost use Rattle.std.specs.Prelude.{◌≡◌, ◌≤◌, ◌+◌, ℕ, false, Some, IfSome};
ghost use Rattle.hv_tree.specs.Core.{Core};
ghost use Rattle.hv_sem_copying.specs.Node.{Node, used, end_of};
ghost use Rattle.hv_sem_copying.specs.Run.{Now};
ghost use Rattle.hv_sem_copying.specs.Copying.{Locals};
ghost use Rattle.hv_sem_copying.specs.Meaning.{run_of, node_of};
ghost use Rattle.hv_sem_copying.specs.Laws.{Follows, Leaves, is_spent};

/// Whatever a body does, and however it ends: steps never rise, and output and children are only added.
pub fn tasks_only_go_on()
    ensures { (tree : Core) (depth body references : ℕ) (s : Now Locals) → Leaves (Follows s.task) (run_of tree depth body references tt s) }
{}

/// A run never uses more than its budget.
pub fn budgets_are_kept()
    ensures { (tree : Core) (budget : ℕ) → IfSome (node_of tree budget) (λ node. used node ≤ budget) }
{}

/// A bigger budget changes nothing about a run that wasn't spent.
pub fn bigger_budgets_change_nothing()
    ensures { (tree : Core) (budget more : ℕ) (node : Node) → node_of tree budget ≡ Some node → is_spent (end_of node) ≡ false → node_of tree (budget + more) ≡ Some node }
{}
