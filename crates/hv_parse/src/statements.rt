//! Statements other than returns, by their first token.

ghost use Rattle.hv_syn_grammar.specs.Reads.{Reads};
ghost use Rattle.hv_syn_grammar.specs.Declarations.{inner};
ghost use Rattle.hv_syn_grammar.specs.Statements as spec;
ghost use Rattle.hv_syn_terms.specs.Nests.{NestsExpr, NestsPlace, NestsStmts};

use hv_items::Items;
use hv_syn_grammar::{Cursor, Stop};
use hv_syn_terms::Grammar;
use hv_tree::{Expr, PlaceExpr, Stmt, StmtKind};
use std::alloc::Global;

/// The rules of statements where as many more brackets may be opened as in those of expressions.
#[derive(Clone, Copy)]
pub(crate) struct Statements<F, P, B> {
    pub terms: Grammar<F, P, B>,
}

impl<
    F: Fn(Global, &mut Cursor<'_>, usize) -> Result<Expr, Stop>,
    P: Fn(Global, &mut Cursor<'_>, usize) -> Result<PlaceExpr, Stop>,
    B: Fn(Global, &mut Cursor<'_>, usize) -> Result<Items<Stmt>, Stop>,
> Statements<F, P, B> {
    #[tactic(auto, unfolding(hv_syn_grammar::specs::Statements::call_stmt))]
    fn call_stmt(&self, cursor: &mut Cursor<'_>) -> Result<Stmt, Stop>
        requires expr { NestsExpr self.now.terms.room (F.pre self.now.terms.expr) (F.post self.now.terms.expr) }
        requires place { NestsPlace self.now.terms.room (P.pre self.now.terms.place) (P.post self.now.terms.place) }
        requires stmts { NestsStmts self.now.terms.room (B.pre self.now.terms.stmts) (B.post self.now.terms.stmts) }
        ensures { Reads (spec.call_stmt self.now.terms.room (inner self.now.terms.room) cursor.old) result cursor.new }
    {
        let (at, call) = self.terms.call(cursor)?;
        Ok(Stmt {
            place: at,
            kind: StmtKind::Call(call),
        })
    }

    #[tactic(auto, unfolding(hv_syn_grammar::specs::Statements::block_stmt))]
    fn block_stmt(&self, cursor: &mut Cursor<'_>) -> Result<Stmt, Stop>
        requires expr { NestsExpr self.now.terms.room (F.pre self.now.terms.expr) (F.post self.now.terms.expr) }
        requires place { NestsPlace self.now.terms.room (P.pre self.now.terms.place) (P.post self.now.terms.place) }
        requires stmts { NestsStmts self.now.terms.room (B.pre self.now.terms.stmts) (B.post self.now.terms.stmts) }
        ensures { Reads (spec.block_stmt self.now.terms.room (inner self.now.terms.room) cursor.old) result cursor.new }
    {
        let (at, block) = self.terms.placed_block(cursor)?;
        Ok(Stmt {
            place: at,
            kind: StmtKind::Block(block),
        })
    }

    /// What begins with a name or a mark.
    #[tactic(auto, unfolding(hv_syn_grammar::specs::Statements::plain_stmt))]
    fn plain_stmt(&self, cursor: &mut Cursor<'_>) -> Result<Stmt, Stop>
        requires expr { NestsExpr self.now.terms.room (F.pre self.now.terms.expr) (F.post self.now.terms.expr) }
        requires place { NestsPlace self.now.terms.room (P.pre self.now.terms.place) (P.post self.now.terms.place) }
        requires stmts { NestsStmts self.now.terms.room (B.pre self.now.terms.stmts) (B.post self.now.terms.stmts) }
        ensures { Reads (spec.plain_stmt self.now.terms.room (inner self.now.terms.room) cursor.old) result cursor.new }
    {
        if cursor.sees_mark("&") {
            self.assign_stmt(cursor)
        } else if cursor.sees_word() {
            self.call_stmt(cursor)
        } else {
            self.block_stmt(cursor)
        }
    }

    #[tactic(auto, unfolding(hv_syn_grammar::specs::Statements::action))]
    fn action(&self, cursor: &mut Cursor<'_>) -> Result<Stmt, Stop>
        requires expr { NestsExpr self.now.terms.room (F.pre self.now.terms.expr) (F.post self.now.terms.expr) }
        requires place { NestsPlace self.now.terms.room (P.pre self.now.terms.place) (P.post self.now.terms.place) }
        requires stmts { NestsStmts self.now.terms.room (B.pre self.now.terms.stmts) (B.post self.now.terms.stmts) }
        ensures { Reads (spec.action self.now.terms.room (inner self.now.terms.room) cursor.old) result cursor.new }
    {
        if cursor.sees_keyword("if") {
            self.if_stmt(cursor)
        } else if cursor.sees_keyword("while") {
            self.while_stmt(cursor)
        } else if cursor.sees_keyword("print") {
            self.print_stmt(cursor)
        } else if cursor.sees_keyword("task") {
            self.task_stmt(cursor)
        } else if cursor.sees_keyword("await") {
            self.await_stmt(cursor)
        } else {
            self.plain_stmt(cursor)
        }
    }

    /// A statement other than a `return`.
    #[tactic(auto, unfolding(hv_syn_grammar::specs::Statements::other_stmt))]
    pub(crate) fn other_stmt(&self, cursor: &mut Cursor<'_>) -> Result<Stmt, Stop>
        requires expr { NestsExpr self.now.terms.room (F.pre self.now.terms.expr) (F.post self.now.terms.expr) }
        requires place { NestsPlace self.now.terms.room (P.pre self.now.terms.place) (P.post self.now.terms.place) }
        requires stmts { NestsStmts self.now.terms.room (B.pre self.now.terms.stmts) (B.post self.now.terms.stmts) }
        ensures { Reads (spec.other_stmt self.now.terms.room (inner self.now.terms.room) cursor.old) result cursor.new }
    {
        if cursor.sees_keyword("var") {
            self.var_stmt(cursor)
        } else if cursor.sees_keyword("let") {
            self.let_stmt(cursor)
        } else if cursor.sees_keyword("inout") {
            self.inout_stmt(cursor)
        } else {
            self.action(cursor)
        }
    }
}
