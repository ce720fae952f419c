// A law on the meaning. It does nothing when it is called.
ghost use Rattle.std.specs.Prelude.{◌≡◌, ℕ};
ghost use Rattle.hv_tree.specs.Core.{Core};
ghost use Rattle.hv_sem_copying.specs.Meaning as copying;
ghost use Rattle.hv_sem_flat.specs.Programs as flat;

/// The list changes nothing: each program does the same as where the rest of a block is part of what its binding does.
pub fn flat_is_copying()
    ensures { (tree : Core) (budget : ℕ) → flat.node_of tree budget ≡ copying.node_of tree budget }
{}
