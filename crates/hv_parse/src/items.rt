//! Lists of statements. A `return` without a value has to be the last one.

ghost use Rattle.std.specs.Prelude.{◌≡◌};
ghost use Rattle.hv_syn_grammar.specs.Parser.{passes};
ghost use Rattle.hv_parse.specs.Parts.{begins_other, return_item, other_item, Adds};
ghost use Rattle.hv_syn_grammar.specs.Reads.{Reads};
ghost use Rattle.hv_syn_grammar.specs.Declarations.{inner};
ghost use Rattle.hv_syn_grammar.specs.Statements as spec;
ghost use Rattle.hv_syn_terms.specs.Nests.{NestsExpr, NestsPlace, NestsStmts};

use crate::marks::semicolon;
use crate::statements::Statements;
use hv_items::{Items, beside};
use hv_syn_grammar::{Cursor, Stop};
use hv_tree::{Expr, Place, PlaceExpr, Stmt, StmtKind};
use std::alloc::Global;

fn begins_other(cursor: &Cursor<'_>) -> bool
    ensures { result ≡ passes begins_other cursor.now }
{
    cursor.sees_keyword("print")
        || cursor.sees_keyword("task")
        || cursor.sees_keyword("await")
        || cursor.sees_word()
        || cursor.sees_mark("{")
}

fn begins_stmt(cursor: &Cursor<'_>) -> bool
    ensures { result ≡ passes spec.begins_stmt cursor.now }
{
    cursor.sees_keyword("var")
        || cursor.sees_keyword("let")
        || cursor.sees_keyword("inout")
        || cursor.sees_mark("&")
        || cursor.sees_keyword("if")
        || cursor.sees_keyword("while")
        || begins_other(cursor)
}

fn begins_item(cursor: &Cursor<'_>) -> bool
    ensures { result ≡ passes spec.begins_item cursor.now }
{
    cursor.sees_keyword("return") || begins_stmt(cursor)
}

/// Whether there is a next token that closes no block.
#[tactic(auto, using(crate::proofs::ItemTurns::goes_on_end, crate::proofs::ItemTurns::goes_on_by))]
fn goes_on(cursor: &Cursor<'_>) -> bool
    ensures { result ≡ passes spec.not_closing cursor.now }
{
    cursor.left() != 0 && !cursor.sees_mark("}")
}

fn returned(at: Place, value: Option<Expr>, last: bool) -> (Stmt, bool)
    ensures { result ≡ spec.return_item at value last }
{
    let stmt = Stmt {
        place: at,
        kind: StmtKind::Return(value),
    };
    (stmt, last)
}

impl<
    F: Fn(Global, &mut Cursor<'_>, usize) -> Result<Expr, Stop>,
    P: Fn(Global, &mut Cursor<'_>, usize) -> Result<PlaceExpr, Stop>,
    B: Fn(Global, &mut Cursor<'_>, usize) -> Result<Items<Stmt>, Stop>,
> Statements<F, P, B> {
    #[tactic(auto, unfolding(hv_syn_grammar::specs::Statements::valued_return, hv_items::specs::Kept::paired))]
    fn valued_return(&self, cursor: &mut Cursor<'_>, at: Place) -> Result<(Stmt, bool), Stop>
        requires expr { NestsExpr self.now.terms.room (F.pre self.now.terms.expr) (F.post self.now.terms.expr) }
        requires place { NestsPlace self.now.terms.room (P.pre self.now.terms.place) (P.post self.now.terms.place) }
        requires stmts { NestsStmts self.now.terms.room (B.pre self.now.terms.stmts) (B.post self.now.terms.stmts) }
        ensures { Reads (spec.valued_return self.now.terms.room (inner self.now.terms.room) at cursor.old) result cursor.new }
    {
        let value = self.terms.expr(cursor)?;
        let (value, _) = beside(value, semicolon(cursor))?;
        Ok(returned(at, Some(value), false))
    }

    /// What follows the word `return`, and whether it has to be the last statement.
    #[tactic(auto, unfolding(hv_syn_grammar::specs::Statements::after_return))]
    fn after_return(&self, cursor: &mut Cursor<'_>, at: Place) -> Result<(Stmt, bool), Stop>
        requires expr { NestsExpr self.now.terms.room (F.pre self.now.terms.expr) (F.post self.now.terms.expr) }
        requires place { NestsPlace self.now.terms.room (P.pre self.now.terms.place) (P.post self.now.terms.place) }
        requires stmts { NestsStmts self.now.terms.room (B.pre self.now.terms.stmts) (B.post self.now.terms.stmts) }
        ensures { Reads (spec.after_return self.now.terms.room (inner self.now.terms.room) at cursor.old) result cursor.new }
    {
        if !goes_on(cursor) {
            return Ok(returned(at, None, true));
        }
        if cursor.sees_mark(";") {
            cursor.mark(";")?;
            return Ok(returned(at, None, false));
        }
        self.valued_return(cursor, at)
    }

    fn return_item(&self, cursor: &mut Cursor<'_>) -> Result<(Stmt, bool), Stop>
        requires expr { NestsExpr self.now.terms.room (F.pre self.now.terms.expr) (F.post self.now.terms.expr) }
        requires place { NestsPlace self.now.terms.room (P.pre self.now.terms.place) (P.post self.now.terms.place) }
        requires stmts { NestsStmts self.now.terms.room (B.pre self.now.terms.stmts) (B.post self.now.terms.stmts) }
        ensures { Reads (return_item self.now.terms.room (inner self.now.terms.room) cursor.old) result cursor.new }
    {
        let at = cursor.keyword("return")?;
        let found = self.after_return(cursor, at)?;
        Ok(found)
    }

    #[tactic(auto, using(crate::proofs::ItemTurns::added_last))]
    fn return_more(&self, cursor: &mut Cursor<'_>, found: &mut Items<Stmt>) -> Result<bool, Stop>
        requires expr { NestsExpr self.now.terms.room (F.pre self.now.terms.expr) (F.post self.now.terms.expr) }
        requires place { NestsPlace self.now.terms.room (P.pre self.now.terms.place) (P.post self.now.terms.place) }
        requires stmts { NestsStmts self.now.terms.room (B.pre self.now.terms.stmts) (B.post self.now.terms.stmts) }
        ensures { Adds (return_item self.now.terms.room (inner self.now.terms.room) cursor.old) found.old result cursor.new found.new }
    {
        let (stmt, last) = self.return_item(cursor)?;
        found.push(stmt)?;
        Ok(last)
    }

    fn other_more(&self, cursor: &mut Cursor<'_>, found: &mut Items<Stmt>) -> Result<bool, Stop>
        requires expr { NestsExpr self.now.terms.room (F.pre self.now.terms.expr) (F.post self.now.terms.expr) }
        requires place { NestsPlace self.now.terms.room (P.pre self.now.terms.place) (P.post self.now.terms.place) }
        requires stmts { NestsStmts self.now.terms.room (B.pre self.now.terms.stmts) (B.post self.now.terms.stmts) }
        ensures { Adds (other_item self.now.terms.room (inner self.now.terms.room) cursor.old) found.old result cursor.new found.new }
    {
        let stmt = self.other_stmt(cursor)?;
        found.push(stmt)?;
        semicolon(cursor)?;
        Ok(false)
    }

    /// Whether the statement that it adds has to be the last.
    #[tactic(auto, unfolding(hv_syn_grammar::specs::Statements::item))]
    fn one_more(&self, cursor: &mut Cursor<'_>, found: &mut Items<Stmt>) -> Result<bool, Stop>
        requires expr { NestsExpr self.now.terms.room (F.pre self.now.terms.expr) (F.post self.now.terms.expr) }
        requires place { NestsPlace self.now.terms.room (P.pre self.now.terms.place) (P.post self.now.terms.place) }
        requires stmts { NestsStmts self.now.terms.room (B.pre self.now.terms.stmts) (B.post self.now.terms.stmts) }
        ensures { Adds (spec.item self.now.terms.room (inner self.now.terms.room) cursor.old) found.old result cursor.new found.new }
    {
        if cursor.sees_keyword("return") {
            self.return_more(cursor, found)
        } else {
            self.other_more(cursor, found)
        }
    }

    #[tactic(auto, using(crate::proofs::ItemTurns::items_begin, crate::proofs::ItemTurns::items_none, crate::proofs::ItemTurns::items_end, crate::proofs::ItemTurns::items_more, crate::proofs::ItemTurns::items_last, crate::proofs::ItemTurns::items_off, crate::proofs::ItemTurns::items_deep))]
    pub(crate) fn stmts(&self, cursor: &mut Cursor<'_>) -> Result<Items<Stmt>, Stop>
        requires expr { NestsExpr self.now.terms.room (F.pre self.now.terms.expr) (F.post self.now.terms.expr) }
        requires place { NestsPlace self.now.terms.room (P.pre self.now.terms.place) (P.post self.now.terms.place) }
        requires stmts { NestsStmts self.now.terms.room (B.pre self.now.terms.stmts) (B.post self.now.terms.stmts) }
        ensures { Reads (spec.stmts self.now.terms.room (inner self.now.terms.room) cursor.old) result cursor.new }
    {
        let mut found = Items::new(self.terms.alloc);
        for _turn in 0..cursor.left() {
            if !begins_item(cursor) {
                return Ok(found);
            }
            if self.one_more(cursor, &mut found)? {
                return Ok(found);
            }
        }
        Ok(found)
    }
}
