//! Tests and loops.

ghost use Rattle.hv_syn_grammar.specs.Reads.{Reads};
ghost use Rattle.hv_syn_grammar.specs.Declarations.{inner};
ghost use Rattle.hv_syn_grammar.specs.Statements as spec;
ghost use Rattle.hv_syn_terms.specs.Nests.{NestsExpr, NestsPlace, NestsStmts};
ghost use Rattle.hv_parse.specs.Parts.{parts_after};

use crate::statements::Statements;
use hv_items::{Items, beside};
use hv_syn_grammar::{Cursor, ElsePart, Stop};
use hv_tree::{Block, Branch, Expr, PlaceExpr, Stmt, StmtKind};
use std::alloc::Global;

impl<
    F: Fn(Global, &mut Cursor<'_>, usize) -> Result<Expr, Stop>,
    P: Fn(Global, &mut Cursor<'_>, usize) -> Result<PlaceExpr, Stop>,
    B: Fn(Global, &mut Cursor<'_>, usize) -> Result<Items<Stmt>, Stop>,
> Statements<F, P, B> {
    #[tactic(auto, unfolding(hv_syn_grammar::specs::Statements::branch, hv_items::specs::Kept::paired))]
    fn branch(&self, cursor: &mut Cursor<'_>) -> Result<Branch, Stop>
        requires expr { NestsExpr self.now.terms.room (F.pre self.now.terms.expr) (F.post self.now.terms.expr) }
        requires place { NestsPlace self.now.terms.room (P.pre self.now.terms.place) (P.post self.now.terms.place) }
        requires stmts { NestsStmts self.now.terms.room (B.pre self.now.terms.stmts) (B.post self.now.terms.stmts) }
        ensures { Reads (spec.branch self.now.terms.room (inner self.now.terms.room) cursor.old) result cursor.new }
    {
        cursor.keyword("if")?;
        let test = self.terms.expr(cursor)?;
        let (test, body) = beside(test, self.terms.block(cursor))?;
        Ok(Branch { test, body })
    }

    /// What follows an `else`.
    #[tactic(auto, unfolding(hv_syn_grammar::specs::Statements::else_part))]
    fn else_part(&self, cursor: &mut Cursor<'_>) -> Result<ElsePart, Stop>
        requires expr { NestsExpr self.now.terms.room (F.pre self.now.terms.expr) (F.post self.now.terms.expr) }
        requires place { NestsPlace self.now.terms.room (P.pre self.now.terms.place) (P.post self.now.terms.place) }
        requires stmts { NestsStmts self.now.terms.room (B.pre self.now.terms.stmts) (B.post self.now.terms.stmts) }
        ensures { Reads (spec.else_part self.now.terms.room (inner self.now.terms.room) cursor.old) result cursor.new }
    {
        cursor.keyword("else")?;
        if cursor.sees_keyword("if") {
            Ok(ElsePart::Test(self.branch(cursor)?))
        } else {
            Ok(ElsePart::Last(self.terms.block(cursor)?))
        }
    }

    /// The other branches after the first, and the last block.
    #[tactic(auto, using(crate::proofs::ElseTurns::else_begins, crate::proofs::ElseTurns::else_none, crate::proofs::ElseTurns::else_end, crate::proofs::ElseTurns::else_test, crate::proofs::ElseTurns::else_last, crate::proofs::ElseTurns::else_off, crate::proofs::ElseTurns::else_deep), unfolding(hv_syn_grammar::specs::Statements::else_parts))]
    fn branches_from(
        &self,
        cursor: &mut Cursor<'_>,
        first: Branch,
    ) -> Result<(Items<Branch>, Option<Block>), Stop>
        requires expr { NestsExpr self.now.terms.room (F.pre self.now.terms.expr) (F.post self.now.terms.expr) }
        requires place { NestsPlace self.now.terms.room (P.pre self.now.terms.place) (P.post self.now.terms.place) }
        requires stmts { NestsStmts self.now.terms.room (B.pre self.now.terms.stmts) (B.post self.now.terms.stmts) }
        ensures { Reads (parts_after first (spec.else_parts self.now.terms.room (inner self.now.terms.room)) cursor.old) result cursor.new }
    {
        let mut found = Items::new(self.terms.alloc);
        found.push(first)?;
        for _turn in 0..cursor.left() {
            if !cursor.sees_keyword("else") {
                return Ok((found, None));
            }
            match self.else_part(cursor)? {
                ElsePart::Test(branch) => found.push(branch)?,
                ElsePart::Last(block) => return Ok((found, Some(block))),
            }
        }
        Ok((found, None))
    }

    #[tactic(auto, using(crate::proofs::ElseTurns::parts_then), unfolding(hv_syn_grammar::specs::Statements::if_stmt, hv_items::specs::Kept::paired))]
    pub(crate) fn if_stmt(&self, cursor: &mut Cursor<'_>) -> Result<Stmt, Stop>
        requires expr { NestsExpr self.now.terms.room (F.pre self.now.terms.expr) (F.post self.now.terms.expr) }
        requires place { NestsPlace self.now.terms.room (P.pre self.now.terms.place) (P.post self.now.terms.place) }
        requires stmts { NestsStmts self.now.terms.room (B.pre self.now.terms.stmts) (B.post self.now.terms.stmts) }
        ensures { Reads (spec.if_stmt self.now.terms.room (inner self.now.terms.room) cursor.old) result cursor.new }
    {
        let at = cursor.keyword("if")?;
        let test = self.terms.expr(cursor)?;
        let (test, body) = beside(test, self.terms.block(cursor))?;
        let (branches, otherwise) = self.branches_from(cursor, Branch { test, body })?;
        Ok(Stmt {
            place: at,
            kind: StmtKind::If(branches, otherwise),
        })
    }

    #[tactic(auto, unfolding(hv_syn_grammar::specs::Statements::while_stmt, hv_items::specs::Kept::paired))]
    pub(crate) fn while_stmt(&self, cursor: &mut Cursor<'_>) -> Result<Stmt, Stop>
        requires expr { NestsExpr self.now.terms.room (F.pre self.now.terms.expr) (F.post self.now.terms.expr) }
        requires place { NestsPlace self.now.terms.room (P.pre self.now.terms.place) (P.post self.now.terms.place) }
        requires stmts { NestsStmts self.now.terms.room (B.pre self.now.terms.stmts) (B.post self.now.terms.stmts) }
        ensures { Reads (spec.while_stmt self.now.terms.room (inner self.now.terms.room) cursor.old) result cursor.new }
    {
        let at = cursor.keyword("while")?;
        let test = self.terms.expr(cursor)?;
        let (test, body) = beside(test, self.terms.block(cursor))?;
        Ok(Stmt {
            place: at,
            kind: StmtKind::While(test, body),
        })
    }
}
