// The steps of places, with their indices evaluated.

ghost use Rattle.std.specs.Option.{option_copied};
ghost use Rattle.hv_tree.specs.Core.{core_of};
ghost use Rattle.hv_scope.specs.Known.{typed};
ghost use Rattle.hv_partial.specs.Ways.{links_of};
ghost use Rattle.hv_eval_state.specs.Gives.{Gives, from, itself};
ghost use Rattle.hv_eval_env.specs.Nests.{Evals, Bodies};
ghost use Rattle.hv_eval_operands.specs.Links.{links_in, link_in, linked, index_by};

use hv_eval_env::{Level, Parts};
use hv_eval_state::{Halt, Task, number};
use hv_items::Items;
use hv_partial::{Held, Link};
use hv_scope::{element_at, field_at};
use hv_sem_copying::Cause;
use hv_tree::{Expr, Step, Ty};

#[tactic(auto, unfolding(hv_sem_copying::specs::Run::and_then))]
fn index<
    'a,
    E: Fn(Level<'a>, usize, &mut Task, &Expr) -> Result<Held, Halt>,
    B: Fn(Level<'a>, &mut Task, u32) -> Result<Option<Held>, Halt>,
>(parts: &Parts<'a, E, B>, used: usize, task: &mut Task, x: &Expr) -> Result<i64, Halt>
    requires { Evals parts.now.level (E.pre parts.now.eval) (E.post parts.now.eval) }
    ensures { Gives itself (from (index_by parts.now.level (core_of x.now)) used task.old) result task.new }
{
    let index = parts.eval(used, task, x)?;
    number(task, &index)
}

// A step, and the type of what it leads to.
#[tactic(auto, using(crate::proofs::LinkLemmas::by_step), unfolding(hv_sem_copying::specs::Run::and_then, hv_sem_copying::specs::Run::pure))]
fn link<
    'a,
    E: Fn(Level<'a>, usize, &mut Task, &Expr) -> Result<Held, Halt>,
    B: Fn(Level<'a>, &mut Task, u32) -> Result<Option<Held>, Halt>,
>(
    parts: &Parts<'a, E, B>,
    used: usize,
    task: &mut Task,
    ty: Option<&'a Ty>,
    step: &Step,
) -> Result<(Link, Option<&'a Ty>), Halt>
    requires { Evals parts.now.level (E.pre parts.now.eval) (E.post parts.now.eval) }
    ensures { Gives linked (from (link_in parts.now.level (typed (option_copied ty.entry)) step.now) used task.old) result task.new }
{
    match step {
        Step::Field(name) => match field_at(parts.level.program.declared(), ty, name) {
            Some((field, behind)) => match u32::try_from(field) {
                Ok(field) => Ok((Link::Field(field), Some(behind))),
                Err(_) => Err(Halt::NoMemory),
            },
            None => Err(Halt::Stuck(Cause::Kinds)),
        },
        Step::Index(at, x) => {
            let index = index(parts, used, task, x)?;
            Ok((Link::Index(index, *at), element_at(ty)))
        }
    }
}

/// The steps behind something of this type, their indices evaluated in order.
#[tactic(auto, unfolding(hv_sem_copying::specs::Run::pure))]
pub fn links<
    'a,
    E: Fn(Level<'a>, usize, &mut Task, &Expr) -> Result<Held, Halt>,
    B: Fn(Level<'a>, &mut Task, u32) -> Result<Option<Held>, Halt>,
>(
    parts: &Parts<'a, E, B>,
    used: usize,
    task: &mut Task,
    ty: Option<&'a Ty>,
    steps: &[Step],
) -> Result<Items<Link>, Halt>
    requires { Evals parts.now.level (E.pre parts.now.eval) (E.post parts.now.eval) }
    ensures { Gives links_of (from (links_in parts.now.level (typed (option_copied ty.entry)) steps.now) used task.old) result task.new }
{
    let mut links = Items::new(parts.level.alloc);
    let mut known = ty;
    for step in steps {
        let (link, behind) = link(parts, used, task, known, step)?;
        links.push(link)?;
        known = behind;
    }
    Ok(links)
}
