//! Bindings and assignments.

ghost use Rattle.hv_syn_grammar.specs.Reads.{Reads};
ghost use Rattle.hv_syn_grammar.specs.Declarations.{inner};
ghost use Rattle.hv_syn_grammar.specs.Statements as spec;
ghost use Rattle.hv_syn_terms.specs.Nests.{NestsExpr, NestsPlace, NestsStmts};

use crate::statements::Statements;
use hv_items::{Items, beside};
use hv_syn_grammar::{Cursor, Stop};
use hv_syn_terms::type_at;
use hv_tree::{Expr, Name, PlaceExpr, Stmt, StmtKind, Ty};
use std::alloc::Global;

/// A name and its type.
#[tactic(auto, unfolding(hv_syn_grammar::specs::Statements::typed_name, hv_items::specs::Kept::paired))]
fn typed_name(alloc: Global, cursor: &mut Cursor<'_>, room: usize) -> Result<(Name, Ty), Stop>
    ensures { Reads (spec.typed_name room (inner room) cursor.old) result cursor.new }
{
    let name = cursor.word(alloc)?;
    let (name, _) = beside(name, cursor.mark(":"))?;
    beside(name, type_at(alloc, cursor, room))
}

impl<
    F: Fn(Global, &mut Cursor<'_>, usize) -> Result<Expr, Stop>,
    P: Fn(Global, &mut Cursor<'_>, usize) -> Result<PlaceExpr, Stop>,
    B: Fn(Global, &mut Cursor<'_>, usize) -> Result<Items<Stmt>, Stop>,
> Statements<F, P, B> {
    #[tactic(auto, unfolding(hv_syn_grammar::specs::Statements::initial))]
    fn initial(&self, cursor: &mut Cursor<'_>) -> Result<Option<Expr>, Stop>
        requires expr { NestsExpr self.now.terms.room (F.pre self.now.terms.expr) (F.post self.now.terms.expr) }
        requires place { NestsPlace self.now.terms.room (P.pre self.now.terms.place) (P.post self.now.terms.place) }
        requires stmts { NestsStmts self.now.terms.room (B.pre self.now.terms.stmts) (B.post self.now.terms.stmts) }
        ensures { Reads (spec.initial self.now.terms.room (inner self.now.terms.room) cursor.old) result cursor.new }
    {
        if !cursor.sees_mark("=") {
            return Ok(None);
        }
        cursor.mark("=")?;
        Ok(Some(self.terms.expr(cursor)?))
    }

    #[tactic(auto, unfolding(hv_syn_grammar::specs::Statements::var_stmt, hv_items::specs::Kept::paired))]
    pub(crate) fn var_stmt(&self, cursor: &mut Cursor<'_>) -> Result<Stmt, Stop>
        requires expr { NestsExpr self.now.terms.room (F.pre self.now.terms.expr) (F.post self.now.terms.expr) }
        requires place { NestsPlace self.now.terms.room (P.pre self.now.terms.place) (P.post self.now.terms.place) }
        requires stmts { NestsStmts self.now.terms.room (B.pre self.now.terms.stmts) (B.post self.now.terms.stmts) }
        ensures { Reads (spec.var_stmt self.now.terms.room (inner self.now.terms.room) cursor.old) result cursor.new }
    {
        let at = cursor.keyword("var")?;
        let named = typed_name(self.terms.alloc, cursor, self.terms.room)?;
        let ((name, ty), value) = beside(named, self.initial(cursor))?;
        Ok(Stmt {
            place: at,
            kind: StmtKind::Var(name, ty, value),
        })
    }

    #[tactic(auto, unfolding(hv_syn_grammar::specs::Statements::let_stmt, hv_items::specs::Kept::paired))]
    pub(crate) fn let_stmt(&self, cursor: &mut Cursor<'_>) -> Result<Stmt, Stop>
        requires expr { NestsExpr self.now.terms.room (F.pre self.now.terms.expr) (F.post self.now.terms.expr) }
        requires place { NestsPlace self.now.terms.room (P.pre self.now.terms.place) (P.post self.now.terms.place) }
        requires stmts { NestsStmts self.now.terms.room (B.pre self.now.terms.stmts) (B.post self.now.terms.stmts) }
        ensures { Reads (spec.let_stmt self.now.terms.room (inner self.now.terms.room) cursor.old) result cursor.new }
    {
        let at = cursor.keyword("let")?;
        let named = typed_name(self.terms.alloc, cursor, self.terms.room)?;
        let (named, _) = beside(named, cursor.mark("="))?;
        let ((name, ty), value) = beside(named, self.terms.expr(cursor))?;
        Ok(Stmt {
            place: at,
            kind: StmtKind::Let(name, ty, value),
        })
    }

    #[tactic(auto, unfolding(hv_syn_grammar::specs::Statements::inout_stmt, hv_items::specs::Kept::paired))]
    pub(crate) fn inout_stmt(&self, cursor: &mut Cursor<'_>) -> Result<Stmt, Stop>
        requires expr { NestsExpr self.now.terms.room (F.pre self.now.terms.expr) (F.post self.now.terms.expr) }
        requires place { NestsPlace self.now.terms.room (P.pre self.now.terms.place) (P.post self.now.terms.place) }
        requires stmts { NestsStmts self.now.terms.room (B.pre self.now.terms.stmts) (B.post self.now.terms.stmts) }
        ensures { Reads (spec.inout_stmt self.now.terms.room (inner self.now.terms.room) cursor.old) result cursor.new }
    {
        let at = cursor.keyword("inout")?;
        let named = typed_name(self.terms.alloc, cursor, self.terms.room)?;
        let (named, _) = beside(named, cursor.mark("="))?;
        let (named, _) = beside(named, cursor.mark("&"))?;
        let ((name, ty), place) = beside(named, self.terms.place(cursor))?;
        Ok(Stmt {
            place: at,
            kind: StmtKind::Inout(name, ty, place),
        })
    }

    #[tactic(auto, unfolding(hv_syn_grammar::specs::Statements::assign_stmt, hv_items::specs::Kept::paired))]
    pub(crate) fn assign_stmt(&self, cursor: &mut Cursor<'_>) -> Result<Stmt, Stop>
        requires expr { NestsExpr self.now.terms.room (F.pre self.now.terms.expr) (F.post self.now.terms.expr) }
        requires place { NestsPlace self.now.terms.room (P.pre self.now.terms.place) (P.post self.now.terms.place) }
        requires stmts { NestsStmts self.now.terms.room (B.pre self.now.terms.stmts) (B.post self.now.terms.stmts) }
        ensures { Reads (spec.assign_stmt self.now.terms.room (inner self.now.terms.room) cursor.old) result cursor.new }
    {
        let at = cursor.mark("&")?;
        let place = self.terms.place(cursor)?;
        let (place, _) = beside(place, cursor.mark("="))?;
        let (place, value) = beside(place, self.terms.expr(cursor))?;
        Ok(Stmt {
            place: at,
            kind: StmtKind::Assign(place, value),
        })
    }
}
