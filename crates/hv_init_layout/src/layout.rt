// Which cells the leaves of a body's locals have.
ghost use Rattle.std.specs.Prelude.{◌≡◌, [], IfOk};
ghost use Rattle.hv_tree.specs.Core.{core_tree};
ghost use Rattle.hv_rules.specs.States.{fields_of};
ghost use Rattle.hv_scope.specs.Bodies.{body_by};
ghost use Rattle.hv_flow_plan.specs.Spelling.{plan_of_body};
ghost use Rattle.hv_init_cells.specs.Layout.{Fits};
ghost use Rattle.hv_init_cells.specs.Plain.{tracked_range};
ghost use Rattle.hv_init_leaves.specs.Leaves.{AreSizesOf, range_by};
ghost use Rattle.hv_init_layout.specs.Laid.{laid};
ghost use Rattle.hv_init_layout.specs.Tracked.{flag_at};
ghost use Rattle.hv_init_layout.specs.Spans.{FollowOneAnother, span_of};

use crate::cuts::{Cuts, number};
use crate::ends::{all_ends, sum};
use crate::tracked::{Tracked, kept_locals};
use hv_decls::{StaticPath, StaticStep};
use hv_flow_pass::Range;
use hv_flow_plan::FlowOp;
use hv_init_leaves::{Leaves, Sizes};
use hv_init_needs::locals_with_state;
use hv_scope::{Body, Declared, body_locals};
use std::alloc::{AllocError as NoMemory, Global};

/// Which cells the leaves of a body's locals have. Cell 0 is that of no leaf. A local whose declaration fills
/// it and which no event empties has none. There is a cell more only where another one begins, or where the
/// leaves under a path of the plan begin or end.
#[derive(Drop)]
pub struct Layout<'s> {
    sizes: &'s Sizes,
    tracked: Tracked,
    leaves: Leaves,
    cuts: Cuts,
}

impl<'s> Layout<'s> {
    /// The layout of a body with this plan, in time about linear in the plan.
    pub fn of(
        alloc: Global,
        declared: &Declared<'_>,
        sizes: &'s Sizes,
        body: &Body<'_>,
        plan: &[FlowOp],
    ) -> Result<Layout<'s>, NoMemory>
        ensures fits { IfOk result (λ l. AreSizesOf (core_tree declared.now) sizes.now → plan.now ≡ plan_of_body (core_tree declared.now) (body_by body.now) → Fits (core_tree declared.now) (body_by body.now) (laid l)) }
        ensures follow { IfOk result (λ l. AreSizesOf (core_tree declared.now) sizes.now → FollowOneAnother (laid l)) }
    {
        let locals = body_locals(alloc, body)?;
        let flags = locals_with_state(alloc, plan, locals.as_slice().len())?;
        let kept = kept_locals(alloc, locals.as_slice(), flags.as_slice())?;
        let leaves = Leaves::of(alloc, declared, sizes, kept.as_slice())?;
        let tracked = Tracked::of(alloc, flags)?;
        let count = number(kept.len())?;
        let positions = all_ends(alloc, sizes, &leaves, &tracked, count, plan)?;
        let cuts = Cuts::of(alloc, positions)?;
        Ok(Layout {
            sizes,
            tracked,
            leaves,
            cuts,
        })
    }

    // The leaves under a local's fields, none where it has no cells.
    fn range(&self, root: u32, steps: &[StaticStep]) -> Result<Range, NoMemory>
        ensures { IfOk result (λ r. r ≡ tracked_range (flag_at self.now.tracked) (range_by self.now.sizes.now self.now.leaves) root (fields_of steps.now)) }
    {
        let Range { from, count } = self
            .leaves
            .range(self.sizes, self.tracked.before(root), steps)?;
        let count = if self.tracked.is_tracked(root) {
            count
        } else {
            0
        };
        Ok(Range { from, count })
    }

    fn cells(&self, root: u32, steps: &[StaticStep]) -> Result<Range, NoMemory>
        ensures { IfOk result (λ r. r ≡ (laid self.now).range_of root (fields_of steps.now)) }
    {
        let range = self.range(root, steps)?;
        self.cuts.ranked(range)
    }

    /// The cells of the leaves under a path's fields.
    pub fn path_cells(&self, path: &StaticPath) -> Result<Range, NoMemory>
        ensures { IfOk result (λ r. r ≡ (laid self.now).range_of path.now.root (fields_of path.now.steps)) }
    {
        self.cells(path.root, path.steps.as_slice())
    }

    /// The cells of all leaves of a local.
    pub fn local_cells(&self, local: u32) -> Result<Range, NoMemory>
        ensures { IfOk result (λ r. r ≡ (laid self.now).range_of local []) }
    {
        self.cells(local, &[])
    }

    /// The cells of so many locals from one on.
    pub fn span_cells(&self, first: u32, count: u32) -> Result<Range, NoMemory>
        ensures { IfOk result (λ r. r ≡ span_of (laid self.now) first count) }
    {
        let from = self.local_cells(first)?.from;
        let end = self.local_cells(sum(first, count)?)?.from;
        Ok(Range {
            from,
            count: end.saturating_sub(from),
        })
    }

    /// The cell that is no leaf's.
    pub fn free_cell(&self) -> Range
        ensures { result ≡ record { from = (laid self.now).free; count = 1 } }
    {
        Range { from: 0, count: 1 }
    }
}
