// Laws, which do nothing when they are called.
ghost use Rattle.std.specs.Prelude.{◌≡◌, ℕ, false};
ghost use Rattle.hv_tree.specs.Core.{Core};
ghost use Rattle.hv_decls.specs.Locals.{CoreBody};
ghost use Rattle.hv_init_cells.specs.Layout.{IsFilledWhereAsked};
ghost use Rattle.hv_init_needs.specs.Needs.{needs_state};

/// A local that needs no state is filled wherever an event asks for it.
pub fn locals_without_state_are_filled()
    ensures { (tree : Core) (body : CoreBody) (k : ℕ) → needs_state tree body k ≡ false → IsFilledWhereAsked tree body k }
{}
