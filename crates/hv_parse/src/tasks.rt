//! Prints, tasks and what awaits them.

ghost use Rattle.hv_syn_grammar.specs.Reads.{Reads};
ghost use Rattle.hv_syn_grammar.specs.Declarations.{inner};
ghost use Rattle.hv_syn_grammar.specs.Statements as spec;
ghost use Rattle.hv_syn_terms.specs.Nests.{NestsExpr, NestsPlace, NestsStmts};

use crate::statements::Statements;
use hv_items::{Items, beside};
use hv_syn_grammar::{Cursor, Stop};
use hv_syn_terms::type_at;
use hv_tree::{Expr, Place, PlaceExpr, Stmt, StmtKind, Ty};
use std::alloc::Global;

/// The type of a task's handle, if there is one.
#[tactic(auto, unfolding(hv_syn_grammar::specs::Statements::task_type))]
fn task_type(alloc: Global, cursor: &mut Cursor<'_>, room: usize) -> Result<Option<Ty>, Stop>
    ensures { Reads (spec.task_type room (inner room) cursor.old) result cursor.new }
{
    if !cursor.sees_mark(":") {
        return Ok(None);
    }
    cursor.mark(":")?;
    Ok(Some(type_at(alloc, cursor, room)?))
}

impl<
    F: Fn(Global, &mut Cursor<'_>, usize) -> Result<Expr, Stop>,
    P: Fn(Global, &mut Cursor<'_>, usize) -> Result<PlaceExpr, Stop>,
    B: Fn(Global, &mut Cursor<'_>, usize) -> Result<Items<Stmt>, Stop>,
> Statements<F, P, B> {
    #[tactic(auto, unfolding(hv_syn_grammar::specs::Statements::print_stmt, hv_items::specs::Kept::paired))]
    pub(crate) fn print_stmt(&self, cursor: &mut Cursor<'_>) -> Result<Stmt, Stop>
        requires expr { NestsExpr self.now.terms.room (F.pre self.now.terms.expr) (F.post self.now.terms.expr) }
        requires place { NestsPlace self.now.terms.room (P.pre self.now.terms.place) (P.post self.now.terms.place) }
        requires stmts { NestsStmts self.now.terms.room (B.pre self.now.terms.stmts) (B.post self.now.terms.stmts) }
        ensures { Reads (spec.print_stmt self.now.terms.room (inner self.now.terms.room) cursor.old) result cursor.new }
    {
        let at = cursor.keyword("print")?;
        cursor.opening(self.terms.room, "(")?;
        let value = self.terms.inner_expr(cursor)?;
        let (value, _) = beside(value, cursor.mark(")"))?;
        Ok(Stmt {
            place: at,
            kind: StmtKind::Print(value),
        })
    }

    /// The place of the word `spawn`, and the budget behind it.
    #[tactic(auto, unfolding(hv_syn_grammar::specs::Statements::budget, hv_items::specs::Kept::paired))]
    fn budget(&self, cursor: &mut Cursor<'_>) -> Result<(Place, Expr), Stop>
        requires expr { NestsExpr self.now.terms.room (F.pre self.now.terms.expr) (F.post self.now.terms.expr) }
        requires place { NestsPlace self.now.terms.room (P.pre self.now.terms.place) (P.post self.now.terms.place) }
        requires stmts { NestsStmts self.now.terms.room (B.pre self.now.terms.stmts) (B.post self.now.terms.stmts) }
        ensures { Reads (spec.budget self.now.terms.room (inner self.now.terms.room) cursor.old) result cursor.new }
    {
        let spawn = cursor.keyword("spawn")?;
        cursor.opening(self.terms.room, "(")?;
        let budget = self.terms.inner_expr(cursor)?;
        let (budget, _) = beside(budget, cursor.mark(")"))?;
        Ok((spawn, budget))
    }

    #[tactic(auto, unfolding(hv_syn_grammar::specs::Statements::task_stmt, hv_items::specs::Kept::paired))]
    pub(crate) fn task_stmt(&self, cursor: &mut Cursor<'_>) -> Result<Stmt, Stop>
        requires expr { NestsExpr self.now.terms.room (F.pre self.now.terms.expr) (F.post self.now.terms.expr) }
        requires place { NestsPlace self.now.terms.room (P.pre self.now.terms.place) (P.post self.now.terms.place) }
        requires stmts { NestsStmts self.now.terms.room (B.pre self.now.terms.stmts) (B.post self.now.terms.stmts) }
        ensures { Reads (spec.task_stmt self.now.terms.room (inner self.now.terms.room) cursor.old) result cursor.new }
    {
        let at = cursor.keyword("task")?;
        let name = cursor.word(self.terms.alloc)?;
        let typed = beside(name, task_type(self.terms.alloc, cursor, self.terms.room))?;
        let (typed, _) = beside(typed, cursor.mark("="))?;
        let spawned = beside(typed, self.budget(cursor))?;
        let (((name, ty), (spawn, budget)), (_, call)) = beside(spawned, self.terms.call(cursor))?;
        Ok(Stmt {
            place: at,
            kind: StmtKind::Task(name, ty, spawn, budget, call),
        })
    }

    #[tactic(auto, unfolding(hv_syn_grammar::specs::Statements::await_stmt))]
    pub(crate) fn await_stmt(&self, cursor: &mut Cursor<'_>) -> Result<Stmt, Stop>
        ensures { Reads (spec.await_stmt self.now.terms.room (inner self.now.terms.room) cursor.old) result cursor.new }
    {
        let at = cursor.keyword("await")?;
        let name = cursor.word(self.terms.alloc)?;
        Ok(Stmt {
            place: at,
            kind: StmtKind::Await(name),
        })
    }
}
