//! Operands.

ghost use Rattle.std.specs.Prelude.{◌≡◌, ◌<◌, IfOk, true, false, codes};
ghost use Rattle.hv_syn_grammar.specs.Parser.{done};
ghost use Rattle.hv_syn_grammar.specs.Lexemes.{after_number, after_keyword, after_word};
ghost use Rattle.hv_syn_grammar.specs.Reads.{Reads};
ghost use Rattle.hv_syn_grammar.specs.Expressions as rule;
ghost use Rattle.hv_syn_grammar.specs.Declarations.{inner};
ghost use Rattle.hv_tree.specs.Grammar.{expr_at};
ghost use Rattle.hv_syn_terms.specs.Nests.{NestsExpr, NestsPlace, NestsStmts};
ghost use Rattle.hv_syn_terms.specs.Parts.{parts_after};

use crate::grammar::Grammar;
use crate::signatures::{bracketed_params, names, returned};
use hv_items::{Boxed, Items, beside};
use hv_syn_grammar::{Cursor, Stop};
use hv_tree::{Expr, ExprKind, Name, Operator, Place, PlaceExpr, Stmt};
use std::alloc::{AllocError, Global};

fn prefix_of(
    alloc: Global,
    at: Place,
    operator: Operator,
    operand: Expr,
) -> Result<Expr, AllocError>
    ensures { IfOk result (λ x. x ≡ expr_at at (ExprKind.Prefix operator operand)) }
{
    Ok(Expr {
        place: at,
        kind: ExprKind::Prefix(operator, Boxed::new(alloc, operand)?),
    })
}

#[tactic(auto, unfolding(hv_items::specs::Kept::paired))]
fn filled_of(alloc: Global, at: Place, len: Expr, value: Expr) -> Result<Expr, AllocError>
    ensures { IfOk result (λ x. x ≡ expr_at at (ExprKind.Filled len value)) }
{
    let (value, len) = beside(value, Boxed::new(alloc, len))?;
    let (len, value) = beside(len, Boxed::new(alloc, value))?;
    Ok(Expr {
        place: at,
        kind: ExprKind::Filled(len, value),
    })
}

fn numeral(cursor: &mut Cursor<'_>) -> Result<Expr, Stop>
    ensures { Reads (after_number (λ v. done (expr_at v.1 (ExprKind.Int v.0))) cursor.old) result cursor.new }
{
    let (value, place) = cursor.number()?;
    Ok(Expr {
        place,
        kind: ExprKind::Int(value),
    })
}

fn truth(cursor: &mut Cursor<'_>) -> Result<Expr, Stop>
    ensures { Reads (after_keyword (codes "true") (λ at. done (expr_at at (ExprKind.Bool true))) cursor.old) result cursor.new }
{
    let place = cursor.keyword("true")?;
    Ok(Expr {
        place,
        kind: ExprKind::Bool(true),
    })
}

fn falsehood(cursor: &mut Cursor<'_>) -> Result<Expr, Stop>
    ensures { Reads (after_keyword (codes "false") (λ at. done (expr_at at (ExprKind.Bool false))) cursor.old) result cursor.new }
{
    let place = cursor.keyword("false")?;
    Ok(Expr {
        place,
        kind: ExprKind::Bool(false),
    })
}

fn awaited(alloc: Global, cursor: &mut Cursor<'_>) -> Result<Expr, Stop>
    ensures { Reads (after_keyword (codes "await") (λ at. after_word (λ name. done (expr_at at (ExprKind.Await name)))) cursor.old) result cursor.new }
{
    let place = cursor.keyword("await")?;
    let name = cursor.word(alloc)?;
    Ok(Expr {
        place,
        kind: ExprKind::Await(name),
    })
}

impl<
    F: Fn(Global, &mut Cursor<'_>, usize) -> Result<Expr, Stop>,
    P: Fn(Global, &mut Cursor<'_>, usize) -> Result<PlaceExpr, Stop>,
    B: Fn(Global, &mut Cursor<'_>, usize) -> Result<Items<Stmt>, Stop>,
> Grammar<F, P, B> {
    /// A place or a call.
    #[tactic(auto, unfolding(hv_syn_grammar::specs::Expressions::named))]
    fn named(&self, cursor: &mut Cursor<'_>) -> Result<Expr, Stop>
        requires expr { NestsExpr self.now.room (F.pre self.now.expr) (F.post self.now.expr) }
        requires place { NestsPlace self.now.room (P.pre self.now.place) (P.post self.now.place) }
        ensures { Reads (rule.named self.now.room (inner self.now.room) cursor.old) result cursor.new }
    {
        let root = cursor.word(self.alloc)?;
        let place = root.place;
        let steps = self.steps(cursor)?;
        let kind = if cursor.sees_mark("(") {
            ExprKind::Call(self.call_rest(cursor, root, steps)?)
        } else {
            ExprKind::Path(PlaceExpr { root, steps })
        };
        Ok(Expr { place, kind })
    }

    #[tactic(auto, unfolding(hv_syn_grammar::specs::Expressions::group, hv_items::specs::Kept::paired))]
    fn group(&self, cursor: &mut Cursor<'_>) -> Result<Expr, Stop>
        requires expr { NestsExpr self.now.room (F.pre self.now.expr) (F.post self.now.expr) }
        ensures { Reads (rule.group self.now.room (inner self.now.room) cursor.old) result cursor.new }
    {
        cursor.opening(self.room, "(")?;
        let inner = self.inner_expr(cursor)?;
        let (inner, _) = beside(inner, cursor.mark(")"))?;
        Ok(inner)
    }

    #[tactic(auto, using(hv_syn_grammar::proofs::Loops::many_begins, hv_syn_grammar::proofs::Loops::turn_none, hv_syn_grammar::proofs::Loops::turn_end, hv_syn_grammar::proofs::Loops::turn_more, hv_syn_grammar::proofs::Loops::turn_off, hv_syn_grammar::proofs::Loops::turn_deep), unfolding(hv_syn_grammar::specs::Lexemes::more_parts, crate::specs::Parts::parts_after))]
    fn more_elements(&self, cursor: &mut Cursor<'_>, first: Expr) -> Result<Items<Expr>, Stop>
        requires room { 0 < self.now.room }
        requires expr { NestsExpr self.now.room (F.pre self.now.expr) (F.post self.now.expr) }
        ensures { Reads (parts_after first (inner self.now.room).expr cursor.old) result cursor.new }
    {
        let mut found = Items::new(self.alloc);
        found.push(first)?;
        for _turn in 0..cursor.left() {
            if !cursor.sees_mark(",") {
                return Ok(found);
            }
            cursor.mark(",")?;
            let next = self.inner_expr(cursor)?;
            found.push(next)?;
        }
        Ok(found)
    }

    #[tactic(auto, unfolding(hv_syn_grammar::specs::Expressions::array, hv_syn_grammar::specs::Lexemes::separated, crate::specs::Parts::parts_after))]
    fn array(&self, cursor: &mut Cursor<'_>) -> Result<Expr, Stop>
        requires expr { NestsExpr self.now.room (F.pre self.now.expr) (F.post self.now.expr) }
        ensures { Reads (rule.array self.now.room (inner self.now.room) cursor.old) result cursor.new }
    {
        let place = cursor.opening(self.room, "[")?;
        let first = self.inner_expr(cursor)?;
        let elements = self.more_elements(cursor, first)?;
        cursor.mark("]")?;
        Ok(Expr {
            place,
            kind: ExprKind::ArrayLit(elements),
        })
    }

    #[tactic(auto, unfolding(hv_syn_grammar::specs::Expressions::filled, hv_items::specs::Kept::paired))]
    fn filled(&self, cursor: &mut Cursor<'_>) -> Result<Expr, Stop>
        requires expr { NestsExpr self.now.room (F.pre self.now.expr) (F.post self.now.expr) }
        ensures { Reads (rule.filled self.now.room (inner self.now.room) cursor.old) result cursor.new }
    {
        let at = cursor.keyword("filled")?;
        cursor.opening(self.room, "(")?;
        let len = self.inner_expr(cursor)?;
        let (len, _) = beside(len, cursor.mark(","))?;
        let (len, value) = beside(len, self.inner_expr(cursor))?;
        let (both, _) = beside((len, value), cursor.mark(")"))?;
        let (len, value) = both;
        Ok(filled_of(self.alloc, at, len, value)?)
    }

    #[tactic(auto, unfolding(hv_syn_grammar::specs::Expressions::counted))]
    fn counted(&self, cursor: &mut Cursor<'_>) -> Result<Expr, Stop>
        requires place { NestsPlace self.now.room (P.pre self.now.place) (P.post self.now.place) }
        ensures { Reads (rule.counted self.now.room (inner self.now.room) cursor.old) result cursor.new }
    {
        let place = cursor.keyword("count")?;
        cursor.opening(self.room, "(")?;
        let counted = self.inner_place(cursor)?;
        cursor.mark(")")?;
        Ok(Expr {
            place,
            kind: ExprKind::Count(counted),
        })
    }

    #[tactic(auto, unfolding(hv_syn_grammar::specs::Expressions::captures))]
    fn captures(&self, cursor: &mut Cursor<'_>) -> Result<Items<Name>, Stop>
        ensures { Reads (rule.captures self.now.room (inner self.now.room) cursor.old) result cursor.new }
    {
        cursor.opening(self.room, "[")?;
        let found = names(self.alloc, cursor)?;
        cursor.mark("]")?;
        Ok(found)
    }

    #[tactic(auto, unfolding(hv_syn_grammar::specs::Expressions::lambda))]
    fn lambda(&self, cursor: &mut Cursor<'_>) -> Result<Expr, Stop>
        requires stmts { NestsStmts self.now.room (B.pre self.now.stmts) (B.post self.now.stmts) }
        ensures { Reads (rule.lambda self.now.room (inner self.now.room) cursor.old) result cursor.new }
    {
        let place = cursor.keyword("fun")?;
        let captures = self.captures(cursor)?;
        let params = bracketed_params(self.alloc, cursor, self.room)?;
        let returned = returned(self.alloc, cursor, self.room)?;
        let body = self.block(cursor)?;
        Ok(Expr {
            place,
            kind: ExprKind::Lambda(captures, params, returned, body),
        })
    }

    /// An operand that begins with a keyword.
    #[tactic(auto, unfolding(hv_syn_grammar::specs::Expressions::worded))]
    fn worded(&self, cursor: &mut Cursor<'_>) -> Result<Expr, Stop>
        requires expr { NestsExpr self.now.room (F.pre self.now.expr) (F.post self.now.expr) }
        requires place { NestsPlace self.now.room (P.pre self.now.place) (P.post self.now.place) }
        requires stmts { NestsStmts self.now.room (B.pre self.now.stmts) (B.post self.now.stmts) }
        ensures { Reads (rule.worded self.now.room (inner self.now.room) cursor.old) result cursor.new }
    {
        if cursor.sees_keyword("true") {
            truth(cursor)
        } else if cursor.sees_keyword("false") {
            falsehood(cursor)
        } else if cursor.sees_keyword("await") {
            awaited(self.alloc, cursor)
        } else if cursor.sees_keyword("filled") {
            self.filled(cursor)
        } else if cursor.sees_keyword("count") {
            self.counted(cursor)
        } else {
            self.lambda(cursor)
        }
    }

    #[tactic(auto, unfolding(hv_syn_grammar::specs::Expressions::primary))]
    fn primary(&self, cursor: &mut Cursor<'_>) -> Result<Expr, Stop>
        requires expr { NestsExpr self.now.room (F.pre self.now.expr) (F.post self.now.expr) }
        requires place { NestsPlace self.now.room (P.pre self.now.place) (P.post self.now.place) }
        requires stmts { NestsStmts self.now.room (B.pre self.now.stmts) (B.post self.now.stmts) }
        ensures { Reads (rule.primary self.now.room (inner self.now.room) cursor.old) result cursor.new }
    {
        if cursor.sees_number() {
            numeral(cursor)
        } else if cursor.sees_word() {
            self.named(cursor)
        } else if cursor.sees_mark("(") {
            self.group(cursor)
        } else if cursor.sees_mark("[") {
            self.array(cursor)
        } else {
            self.worded(cursor)
        }
    }

    fn negated(&self, cursor: &mut Cursor<'_>) -> Result<Expr, Stop>
        requires expr { NestsExpr self.now.room (F.pre self.now.expr) (F.post self.now.expr) }
        requires place { NestsPlace self.now.room (P.pre self.now.place) (P.post self.now.place) }
        requires stmts { NestsStmts self.now.room (B.pre self.now.stmts) (B.post self.now.stmts) }
        ensures { Reads (rule.prefixed self.now.room (inner self.now.room) (codes "-") Operator.Neg cursor.old) result cursor.new }
    {
        let at = cursor.mark("-")?;
        let operand = self.primary(cursor)?;
        Ok(prefix_of(self.alloc, at, Operator::Neg, operand)?)
    }

    fn inverted(&self, cursor: &mut Cursor<'_>) -> Result<Expr, Stop>
        requires expr { NestsExpr self.now.room (F.pre self.now.expr) (F.post self.now.expr) }
        requires place { NestsPlace self.now.room (P.pre self.now.place) (P.post self.now.place) }
        requires stmts { NestsStmts self.now.room (B.pre self.now.stmts) (B.post self.now.stmts) }
        ensures { Reads (rule.prefixed self.now.room (inner self.now.room) (codes "!") Operator.Not cursor.old) result cursor.new }
    {
        let at = cursor.mark("!")?;
        let operand = self.primary(cursor)?;
        Ok(prefix_of(self.alloc, at, Operator::Not, operand)?)
    }

    #[tactic(auto, unfolding(hv_syn_grammar::specs::Expressions::unary))]
    pub(crate) fn unary(&self, cursor: &mut Cursor<'_>) -> Result<Expr, Stop>
        requires expr { NestsExpr self.now.room (F.pre self.now.expr) (F.post self.now.expr) }
        requires place { NestsPlace self.now.room (P.pre self.now.place) (P.post self.now.place) }
        requires stmts { NestsStmts self.now.room (B.pre self.now.stmts) (B.post self.now.stmts) }
        ensures { Reads (rule.unary self.now.room (inner self.now.room) cursor.old) result cursor.new }
    {
        if cursor.sees_mark("-") {
            self.negated(cursor)
        } else if cursor.sees_mark("!") {
            self.inverted(cursor)
        } else {
            self.primary(cursor)
        }
    }
}
