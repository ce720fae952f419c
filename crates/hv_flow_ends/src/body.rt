// The ends of a whole body.
ghost use Rattle.std.specs.Prelude.{◌≡◌, ◌++◌, ◌∷◌, [], length, map, IfOk, OnOk};
ghost use Rattle.hv_tree.specs.Core.{Core, core_stmts, core_option_ty};
ghost use Rattle.hv_rules.specs.Events.{body_events, has_some, if_kind, is_written_back};
ghost use Rattle.hv_scope.specs.Bodies.{body_by};
ghost use Rattle.hv_scope.specs.Known.{kind_of, local_by};
ghost use Rattle.hv_flow_ends.specs.Ends.{AllAgree, belongs_by, ends_in, numbers_in};
ghost use Rattle.hv_flow_ends.specs.Walked as spec;

use crate::count::sum;
use crate::span::{End, Span, push_number};
use crate::walk::{Opened, own_handles, walk_stmts};
use hv_items::Items;
use hv_scope::{Body, Kind, Known, entry_of};
use hv_tree::{Conv, Ty};
use std::alloc::{AllocError as NoMemory, Global};

fn is_changed(kind: Kind) -> bool
    ensures { result ≡ is_written_back (kind_of kind) }
{
    match kind {
        Kind::Passed(Conv::Inout | Conv::Set) => true,
        Kind::Passed(Conv::Let | Conv::Sink) => false,
        Kind::Inout => true,
        Kind::Captured | Kind::Var | Kind::Let | Kind::Handle => false,
    }
}

fn push_known(back: &mut Items<Span>, next: u32, known: &Known<'_>) -> Result<(), NoMemory>
    ensures { OnOk result (numbers_in back.new ≡ numbers_in back.old ++ spec.known_back next (known.now ∷ [])) }
{
    if is_changed(known.kind) {
        push_number(back, next)
    } else {
        Ok(())
    }
}

// Those of the captures and parameters that are written back.
fn entry_back(alloc: Global, known: &[Known<'_>]) -> Result<Items<Span>, NoMemory>
    ensures { IfOk result (λ spans. numbers_in spans ≡ spec.known_back 0 known.now) }
{
    let mut back = Items::new(alloc);
    let mut next = 0u32;
    for local in known {
        push_known(&mut back, next, local)?;
        next = sum(next, 1)?;
    }
    Ok(back)
}

fn has_result(returned: &Option<Ty>) -> bool
    ensures { result ≡ has_some (core_option_ty returned.now) }
{
    match returned {
        Some(_) => true,
        None => false,
    }
}

fn count_of(known: &[Known<'_>]) -> Result<u32, NoMemory>
    ensures { IfOk result (λ n. n ≡ length (map local_by known.now)) }
{
    match u32::try_from(known.len()) {
        Ok(count) => Ok(count),
        Err(_) => Err(NoMemory),
    }
}

fn all_ends(alloc: Global, body: &Body<'_>) -> Result<Items<End>, NoMemory>
    ensures { IfOk result (λ ends. map belongs_by ends ≡ spec.body_ends (body_by body.now)) }
{
    let known = entry_of(alloc, body.captures.as_slice(), body.params)?;
    let first = count_of(known.as_slice())?;
    let stmts = body.block.stmts.as_slice();
    let mut ends = Items::new(alloc);
    let mut around = Items::new(alloc);
    let back = entry_back(alloc, known.as_slice())?;
    let opened = Opened {
        back,
        handles: own_handles(alloc, first, stmts)?,
    };
    let Opened { back, handles } = walk_stmts(alloc, &mut ends, &mut around, opened, first, stmts)?;
    ends.push(End {
        back,
        handles,
        missing: has_result(body.returned),
    })?;
    Ok(ends)
}

/// What the ends of a body belong to, in the order of the text. It takes time in proportion to the
/// body's statements, each as often as blocks are around it, and to the spans.
#[tactic(auto, using(crate::proofs::Agreeing::ends_agree))]
pub fn ends_of(alloc: Global, body: &Body<'_>) -> Result<Items<End>, NoMemory>
    ensures { IfOk result (λ ends. (tree : Core) → AllAgree (map belongs_by ends) (ends_in (body_events tree (body_by body.now)))) }
{
    all_ends(alloc, body)
}
