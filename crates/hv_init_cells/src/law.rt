// Laws, which do nothing when they are called.
ghost use Rattle.std.specs.Prelude.{◌≡◌, ◌↔◌, ℕ, Bool, false, Option};
ghost use Rattle.hv_tree.specs.declared.refusal.Refusal.{Refusal};
ghost use Rattle.hv_tree.specs.Core.{Core};
ghost use Rattle.hv_rules.specs.Accepted.{InitPhase, IsViolatedInPhase};
ghost use Rattle.hv_tree.specs.Earlier.{IsFirst};
ghost use Rattle.hv_decls.specs.Locals.{CoreBody};
ghost use Rattle.hv_decls.specs.Sites.{bodies_of};
ghost use Rattle.hv_flow_pass.specs.Refused.{IsRefused};
ghost use Rattle.hv_init_cells.specs.Layout.{Layout, Fits, IsFilledWhereAsked};
ghost use Rattle.hv_init_cells.specs.Acts.{acts_of};
ghost use Rattle.hv_init_cells.specs.Plain.{plain};
ghost use Rattle.hv_init_cells.specs.Ranked.{merged, Cuts};
ghost use Rattle.hv_init_cells.specs.Law.{Tells, IsViolatedAmong, IsViolatedBy};

/// Where a layout fits a body, the acts of its events keep in each leaf's cell whether it is initialised.
pub fn cells_tell_of_leaves()
    ensures { (tree : Core) (body : CoreBody) (l : Layout) → Fits tree body l → Tells tree body l }
{}

/// And what they refuse is what violates a rule on initialisation, no more and no less.
pub fn acts_refuse_violations()
    ensures { (tree : Core) (body : CoreBody) (l : Layout) → Fits tree body l → (r : Refusal) → IsRefused (acts_of tree body l) r ↔ IsViolatedBy tree body r }
{}

/// So the first refusal is the first violation.
pub fn first_refusals_are_first_violations()
    ensures { (tree : Core) (body : CoreBody) (l : Layout) → Fits tree body l → (v : Option Refusal) → IsFirst (IsRefused (acts_of tree body l)) v → IsFirst (IsViolatedBy tree body) v }
{}

/// The layout that numbers all leaves of the locals that have cells one after the other fits each body of
/// each tree, also where types or fields are unknown, if the others are filled wherever they are asked for.
pub fn plain_layouts_fit()
    ensures { (tree : Core) (body : CoreBody) (tracks : ℕ → Bool) → ((root : ℕ) → tracks root ≡ false → IsFilledWhereAsked tree body root) → Fits tree body (plain tree body tracks) }
{}

/// So does the one in which the leaves between two cuts share a cell, where each range that occurs begins
/// and ends at a cut, and each local that has cells begins at one.
pub fn merged_layouts_fit()
    ensures { (tree : Core) (body : CoreBody) (tracks cut : ℕ → Bool) → ((root : ℕ) → tracks root ≡ false → IsFilledWhereAsked tree body root) → Cuts tree body tracks cut → Fits tree body (merged tree body tracks cut) }
{}

/// The first violation of all bodies is the program's first one of the rules on initialisation.
pub fn first_of_bodies_is_first_of_program()
    ensures { (tree : Core) (v : Option Refusal) → IsFirst (IsViolatedAmong tree (bodies_of tree)) v → IsFirst (IsViolatedInPhase InitPhase tree) v }
{}
