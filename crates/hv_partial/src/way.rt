// The way into a tree by steps whose indices have been evaluated.

ghost use Rattle.std.specs.Prelude.{◌≡◌, IfOk};
ghost use Rattle.hv_value.specs.ValueTree.{Fields, Elements};
ghost use Rattle.hv_value.specs.Walk as spec;
ghost use Rattle.hv_partial.specs.HeldTree.{held_tree, held_trees};
ghost use Rattle.hv_partial.specs.Ways.{link_of, links_of, way_of};
ghost use Rattle.hv_partial.specs.OneStep.{taken_of, one_step};

use crate::tree::Held;
use hv_items::{Items, at};
use hv_tree::Place;
use hv_value::PathStep;
use std::alloc::{AllocError as NoMemory, Global};

/// A step with its index evaluated.
#[derive(Clone, Copy, Debug, PartialEq, Eq)]
pub enum Link {
    Field(u32),
    /// The index, and the place where it is written.
    Index(i64, Place),
}

/// Where a way leads.
#[derive(Drop)]
pub enum Way {
    Reaches(Items<PathStep>),
    /// The place of the first index that is out of range.
    Outside(Place),
    /// A hole or a value of another kind stands before a step, or there is no such field.
    Lost,
}

// Where one step leads.
/// A step of a `Way`: onto a part that is only lent, or why there is none.
#[derive(Clone, Copy)]
pub enum Stepped<'h> {
    Onto(PathStep, &'h Held),
    Outside(Place),
    Lost,
}

/// Each index is tested in order. An element so far behind that no path names it is want of memory.
#[tactic(auto, using(crate::proofs::WayLemmas::by_steps), unfolding(crate::proofs::WayLemmas::resumed, crate::proofs::WayLemmas::behind))]
pub fn walk(alloc: Global, held: &Held, links: &[Link]) -> Result<Way, NoMemory>
    ensures { IfOk result (λ way. way ≡ way_of (spec.walk (links_of links.now) (held_tree held.now))) }
{
    let mut path = Vec::with_capacity(alloc, links.len())?;
    let mut place = held;
    for link in links {
        match step(place, *link)? {
            Stepped::Onto(step, part) => {
                path.push(step)?;
                place = part;
            }
            Stepped::Outside(at) => return Ok(Way::Outside(at)),
            Stepped::Lost => return Ok(Way::Lost),
        }
    }
    Ok(Way::Reaches(Items::from_vec(path)))
}

fn step<'h>(held: &'h Held, link: Link) -> Result<Stepped<'h>, NoMemory>
    ensures { IfOk result (λ s. taken_of s ≡ one_step (link_of link) (held_tree held.now)) }
{
    match (link, held) {
        (Link::Field(k), Held::Struct(parts)) => Ok(field(parts.as_slice(), k)),
        (Link::Index(z, place), Held::Array(parts)) => element(parts.as_slice(), z, place),
        _ => Ok(Stepped::Lost),
    }
}

#[tactic(auto, using(crate::proofs::ListLemmas::by_number))]
fn field(parts: &[Held], k: u32) -> Stepped
    ensures { taken_of result ≡ one_step (spec.ToField k) (Fields (held_trees parts.now)) }
{
    match at(parts, k as usize) {
        Some(part) => Stepped::Onto(PathStep::Field(k), part),
        None => Stepped::Lost,
    }
}

#[tactic(auto, using(crate::proofs::ListLemmas::by_number))]
fn element<'h>(parts: &'h [Held], z: i64, place: Place) -> Result<Stepped<'h>, NoMemory>
    ensures { IfOk result (λ s. taken_of s ≡ one_step (spec.ToIndex z place) (Elements (held_trees parts.now))) }
{
    let Ok(k) = usize::try_from(z) else {
        return Ok(Stepped::Outside(place));
    };
    match at(parts, k) {
        Some(part) => match u32::try_from(k) {
            Ok(k) => Ok(Stepped::Onto(PathStep::At(k), part)),
            Err(_) => Err(NoMemory),
        },
        None => Ok(Stepped::Outside(place)),
    }
}
