//! Expressions, places and statements, each of which reads the others right inside a bracket.

ghost use Rattle.hv_syn_grammar.specs.Reads.{Reads};
ghost use Rattle.hv_syn_grammar.specs.Declarations.{inner, expr_at_room, place_at_room, stmts_at_room};
ghost use Rattle.hv_syn_grammar.specs.Expressions.{block};

use crate::statements::Statements;
use hv_items::Items;
use hv_syn_grammar::{Cursor, Stop};
use hv_syn_terms::Grammar;
use hv_tree::{Block, Expr, PlaceExpr, Stmt};
use std::alloc::Global;

/// An expression, where `room` more brackets may be opened.
#[cycle(knot)]
#[tactic(auto, using(crate::proofs::Rooms::inner_expr, crate::proofs::Rooms::inner_place, crate::proofs::Rooms::inner_stmts), unfolding(hv_syn_grammar::specs::Declarations::expr_at_room))]
pub(crate) fn expr_to(alloc: Global, cursor: &mut Cursor<'_>, room: usize) -> Result<Expr, Stop>
    ensures { Reads (expr_at_room room cursor.old) result cursor.new }
{
    let terms = Grammar {
        alloc,
        room,
        expr: expr_to,
        place: place_to,
        stmts: stmts_to,
    };
    terms.expr(cursor)
}

/// A place, where `room` more brackets may be opened.
#[cycle(knot)]
#[tactic(auto, using(crate::proofs::Rooms::inner_expr, crate::proofs::Rooms::inner_place, crate::proofs::Rooms::inner_stmts), unfolding(hv_syn_grammar::specs::Declarations::place_at_room))]
pub(crate) fn place_to(
    alloc: Global,
    cursor: &mut Cursor<'_>,
    room: usize,
) -> Result<PlaceExpr, Stop>
    ensures { Reads (place_at_room room cursor.old) result cursor.new }
{
    let terms = Grammar {
        alloc,
        room,
        expr: expr_to,
        place: place_to,
        stmts: stmts_to,
    };
    terms.place(cursor)
}

/// Statements, where `room` more brackets may be opened.
#[cycle(knot)]
#[tactic(auto, using(crate::proofs::Rooms::inner_expr, crate::proofs::Rooms::inner_place, crate::proofs::Rooms::inner_stmts), unfolding(hv_syn_grammar::specs::Declarations::stmts_at_room))]
pub(crate) fn stmts_to(
    alloc: Global,
    cursor: &mut Cursor<'_>,
    room: usize,
) -> Result<Items<Stmt>, Stop>
    ensures { Reads (stmts_at_room room cursor.old) result cursor.new }
{
    let terms = Grammar {
        alloc,
        room,
        expr: expr_to,
        place: place_to,
        stmts: stmts_to,
    };
    Statements { terms }.stmts(cursor)
}

/// A block, where `room` more brackets may be opened.
#[tactic(auto, using(crate::proofs::Rooms::inner_expr, crate::proofs::Rooms::inner_place, crate::proofs::Rooms::inner_stmts))]
pub(crate) fn block_at(alloc: Global, cursor: &mut Cursor<'_>, room: usize) -> Result<Block, Stop>
    ensures { Reads (block room (inner room) cursor.old) result cursor.new }
{
    let terms = Grammar {
        alloc,
        room,
        expr: expr_to,
        place: place_to,
        stmts: stmts_to,
    };
    terms.block(cursor)
}
