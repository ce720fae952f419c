//! What stands right inside a bracket is read by function values, so that each rule is proved by itself.

ghost use Rattle.std.specs.Prelude.{◌<◌};
ghost use Rattle.hv_syn_grammar.specs.Reads.{Reads};
ghost use Rattle.hv_syn_grammar.specs.Declarations.{inner};
ghost use Rattle.hv_syn_terms.specs.Nests.{NestsExpr, NestsPlace, NestsStmts};

use hv_items::Items;
use hv_syn_grammar::{Cursor, Stop};
use hv_tree::{Expr, PlaceExpr, Stmt};
use std::alloc::Global;

/// The rules where `room` more brackets may be opened.
#[derive(Clone, Copy)]
pub struct Grammar<F, P, B> {
    pub alloc: Global,
    pub room: usize,
    /// Reads an expression where as many brackets may be opened as it is given.
    pub expr: F,
    pub place: P,
    pub stmts: B,
}

impl<
    F: Fn(Global, &mut Cursor<'_>, usize) -> Result<Expr, Stop>,
    P: Fn(Global, &mut Cursor<'_>, usize) -> Result<PlaceExpr, Stop>,
    B: Fn(Global, &mut Cursor<'_>, usize) -> Result<Items<Stmt>, Stop>,
> Grammar<F, P, B> {
    /// Right inside a bracket.
    pub fn inner_expr(&self, cursor: &mut Cursor<'_>) -> Result<Expr, Stop>
        requires room { 0 < self.now.room }
        requires expr { NestsExpr self.now.room (F.pre self.now.expr) (F.post self.now.expr) }
        ensures { Reads ((inner self.now.room).expr cursor.old) result cursor.new }
    {
        (self.expr)(self.alloc, cursor, self.room - 1)
    }

    /// Right inside a bracket.
    pub fn inner_place(&self, cursor: &mut Cursor<'_>) -> Result<PlaceExpr, Stop>
        requires room { 0 < self.now.room }
        requires place { NestsPlace self.now.room (P.pre self.now.place) (P.post self.now.place) }
        ensures { Reads ((inner self.now.room).place cursor.old) result cursor.new }
    {
        (self.place)(self.alloc, cursor, self.room - 1)
    }

    /// Right inside a bracket.
    pub fn inner_stmts(&self, cursor: &mut Cursor<'_>) -> Result<Items<Stmt>, Stop>
        requires room { 0 < self.now.room }
        requires stmts { NestsStmts self.now.room (B.pre self.now.stmts) (B.post self.now.stmts) }
        ensures { Reads ((inner self.now.room).stmts cursor.old) result cursor.new }
    {
        (self.stmts)(self.alloc, cursor, self.room - 1)
    }
}
