// A program whose declarations and bodies are found at once.
ghost use Rattle.std.specs.Prelude.{◌≡◌, ◌++◌, [], ◌∷◌, map, IfOk, OnOk, IfSome};
ghost use Rattle.std.specs.List.{slice_get};
ghost use Rattle.hv_tree.specs.Core.{core_tree, core_block, end_of};
ghost use Rattle.hv_decls.specs.Locals.{locals_of};
ghost use Rattle.hv_decls.specs.Sites as sites;
ghost use Rattle.hv_scope.specs.Known.{local_by};
ghost use Rattle.hv_scope.specs.Bodies.{body_by};
ghost use Rattle.hv_sem_copying.specs.Places.{body_number};
ghost use Rattle.hv_eval_env.specs.Programs.{option_body, end_place, with_locals, scoped_by};

use crate::firsts::Firsts;
use crate::scoped::Scoped;
use hv_items::Items;
use hv_scope::{Body, Declared, bodies_of, body_locals};
use hv_tree::{Block, Tree};
use std::alloc::{AllocError as NoMemory, Global};
use std::marker::Model;

/// A program whose declarations are found by name, and its bodies by number and by place.
#[derive(Drop)]
pub struct Program<'t> {
    declared: Declared<'t>,
    bodies: Items<Scoped<'t>>,
    ends: Firsts,
}

impl<'t> Model for Program<'t> {
    ghost use Rattle.std.specs.Prelude.{◌≡◌, map};
    ghost use Rattle.std.specs.Coded.{codes};
    ghost use Rattle.hv_tree.specs.contracts.ast.Block as block;
    ghost use Rattle.hv_tree.specs.contracts.types.Ty as ty;
    ghost use Rattle.hv_tree.specs.declared.ast.Tree.{Tree};
    ghost use Rattle.hv_tree.specs.Core.{core_tree};
    ghost use Rattle.hv_decls.specs.Sites.{bodies_of};
    ghost use Rattle.hv_eval_env.specs.Programs.{with_locals, scoped_by, end_place};

    ghost Value = { Tree };

    ghost coded = { Prim.hlevel (codes, ty.the_row.coded, block.the_row.coded) };

    ghost view = { λ p. p.declared };

    ghost invariant = { λ p. (map scoped_by p.bodies ≡ map with_locals (bodies_of (core_tree p.declared))) × (p.ends ≡ map end_place (bodies_of (core_tree p.declared))) };
}

#[tactic(auto, using(crate::proofs::PlaceLemmas::block_end))]
fn end_start(block: &Block) -> u32
    ensures { result ≡ (end_of (core_block block.now)).start }
{
    block.end.start
}

// The places at which the bodies end.
fn ends_of<'t>(alloc: Global, bodies: &[Body<'t>]) -> Result<Firsts, NoMemory>
    ensures { IfOk result (λ ends. ends ≡ map end_place (map body_by bodies.now)) }
{
    let mut ends = Firsts::new(alloc);
    for body in bodies {
        ends.push(end_start(body.block))?;
    }
    Ok(ends)
}

// Each body with its locals.
fn scoped_of<'t>(alloc: Global, bodies: Vec<Body<'t>>) -> Result<Items<Scoped<'t>>, NoMemory>
    ensures { IfOk result (λ scoped. map scoped_by scoped ≡ map with_locals (map body_by bodies.entry.items)) }
{
    let mut scoped = Items::new(alloc);
    for body in bodies {
        let locals = body_locals(alloc, &body)?;
        scoped.push(Scoped { body, locals })?;
    }
    Ok(scoped)
}

impl<'t> Program<'t> {
    /// The tree is only lent; its bodies and the locals of each are found once.
    pub fn new(alloc: Global, tree: &'t Tree) -> Result<Program<'t>, NoMemory>
        ensures { IfOk result (λ p. p ≡ tree.now) }
    {
        let declared = Declared::new(alloc, tree)?;
        let found = bodies_of(alloc, tree)?;
        let ends = ends_of(alloc, found.as_slice())?;
        let bodies = scoped_of(alloc, found)?;
        Ok(Program {
            declared,
            bodies,
            ends,
        })
    }

    /// The declarations, found by name.
    pub fn declared(&self) -> &Declared<'t>
        ensures { result.now ≡ self.now }
    {
        &self.declared
    }

    /// The body with this number, and its locals.
    pub fn body(&self, number: u32) -> Option<&Scoped<'t>>
        ensures body { option_body result ≡ slice_get (sites.bodies_of (core_tree self.now)) number }
        ensures locals { IfSome result (λ s. map local_by s.now.locals ≡ locals_of (body_by s.now.body)) }
    {
        self.bodies.get(number as usize)
    }

    /// The number of the body with this block.
    pub fn number_of(&self, block: &Block) -> Option<u32>
        ensures { result ≡ body_number (sites.bodies_of (core_tree self.now)) (core_block block.now) }
    {
        self.ends.find(end_start(block))
    }
}
