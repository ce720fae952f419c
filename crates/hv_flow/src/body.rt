// The graph of a body.
ghost use Rattle.std.specs.Prelude.{◌≡◌, slice_get, Some, IfOk};
ghost use Rattle.hv_tree.specs.Core.{core_tree};
ghost use Rattle.hv_decls.specs.Sites.{bodies_of};
ghost use Rattle.hv_scope.specs.Bodies.{body_by};
ghost use Rattle.hv_flow.specs.Walks.{IsGraphOf};

use crate::build::graph_of;
use crate::nodes::FlowGraph;
use hv_flow_plan::plan_of_body;
use hv_items::Items;
use hv_scope::{Body, Declared, bodies_of};
use hv_tree::Tree;
use std::alloc::{AllocError as NoMemory, Global};

fn graph_of_body<'t>(
    alloc: Global,
    declared: &Declared<'t>,
    body: &Body<'t>,
) -> Result<FlowGraph, NoMemory>
    ensures { IfOk result (λ g. IsGraphOf (core_tree declared.now) (Some (body_by body.now)) g.nodes) }
{
    let plan = plan_of_body(alloc, declared, body)?;
    graph_of(alloc, plan.into_vec())
}

/// The graph of the body with this number, counted in the order of the opening braces; without nodes
/// where there is no such body. Its edges may be quadratically many: a row of pieces that may be
/// empty has one from each piece to each later one.
pub fn graph(alloc: Global, tree: &Tree, body: u32) -> Result<FlowGraph, NoMemory>
    ensures { IfOk result (λ g. IsGraphOf (core_tree tree.now) (slice_get (bodies_of (core_tree tree.now)) body) g.nodes) }
{
    let bodies = bodies_of(alloc, tree)?;
    let Some(found) = bodies.get(body as usize) else {
        return Ok(FlowGraph {
            nodes: Items::new(alloc),
        });
    };
    let declared = Declared::new(alloc, tree)?;
    graph_of_body(alloc, &declared, found)
}
