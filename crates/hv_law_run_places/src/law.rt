// Laws, which do nothing when they are called.
ghost use Rattle.std.specs.Prelude.{◌≡◌, ℕ, Some, Contains};
ghost use Rattle.hv_tree.specs.declared.place.Place.{Place};
ghost use Rattle.hv_tree.specs.Core.{Core};
ghost use Rattle.hv_sem_copying.specs.Node.{Node};
ghost use Rattle.hv_sem_copying.specs.Meaning.{node_of};
ghost use Rattle.hv_law_places.specs.Places.{IsIn};
ghost use Rattle.hv_law_run_places.specs.NodePlaces.{in_node};

/// Whatever the budget, each place at which the root or a task below it ended stands in the program.
pub fn nodes_name_places_of_the_tree()
    ensures { (tree : Core) (budget : ℕ) (node : Node) → node_of tree budget ≡ Some node → (place : Place) → Contains (in_node node) place → IsIn place tree }
{}
