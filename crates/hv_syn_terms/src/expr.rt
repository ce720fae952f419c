//! Expressions, by the strength of their operators.

ghost use Rattle.std.specs.Prelude.{◌≡◌, [], ◌∷◌, IfOk};
ghost use Rattle.hv_syn_grammar.specs.Reads.{Reads};
ghost use Rattle.hv_syn_grammar.specs.Levels.{level_of};
ghost use Rattle.hv_syn_grammar.specs.Expressions as rule;
ghost use Rattle.hv_syn_grammar.specs.Declarations.{inner};
ghost use Rattle.hv_syn_terms.specs.Nests.{NestsExpr, NestsPlace, NestsStmts};

use crate::grammar::Grammar;
use hv_items::{Boxed, Items, beside};
use hv_syn_grammar::{Cursor, Stop, Strength};
use hv_tree::{Expr, ExprKind, Operator, Place, PlaceExpr, Stmt};
use std::alloc::{AllocError, Global};

fn only<T: Drop>(alloc: Global, item: T) -> Result<Items<T>, AllocError>
    ensures { IfOk result (λ list. list ≡ item ∷ []) }
{
    let mut list = Items::new(alloc);
    list.push(item)?;
    Ok(list)
}

#[tactic(auto, unfolding(hv_items::specs::Kept::paired))]
fn chained(
    alloc: Global,
    first: Expr,
    links: Items<(Operator, Place, Expr)>,
) -> Result<Expr, AllocError>
    ensures { IfOk result (λ x. x ≡ rule.chained first links) }
{
    if links.is_empty() {
        return Ok(first);
    }
    let place = first.place;
    let (links, first) = beside(links, Boxed::new(alloc, first))?;
    Ok(Expr {
        place,
        kind: ExprKind::Chain(first, links),
    })
}

impl<
    F: Fn(Global, &mut Cursor<'_>, usize) -> Result<Expr, Stop>,
    P: Fn(Global, &mut Cursor<'_>, usize) -> Result<PlaceExpr, Stop>,
    B: Fn(Global, &mut Cursor<'_>, usize) -> Result<Items<Stmt>, Stop>,
> Grammar<F, P, B> {
    #[cycle(levels)]
    #[tactic(auto, unfolding(hv_syn_grammar::specs::Expressions::operand, hv_syn_grammar::specs::Expressions::level))]
    fn operand(&self, cursor: &mut Cursor<'_>, strength: Strength) -> Result<Expr, Stop>
        requires expr { NestsExpr self.now.room (F.pre self.now.expr) (F.post self.now.expr) }
        requires place { NestsPlace self.now.room (P.pre self.now.place) (P.post self.now.place) }
        requires stmts { NestsStmts self.now.room (B.pre self.now.stmts) (B.post self.now.stmts) }
        ensures { Reads (rule.operand (level_of strength) self.now.room (inner self.now.room) cursor.old) result cursor.new }
    {
        match strength {
            Strength::Or => self.level(cursor, Strength::And),
            Strength::And => self.level(cursor, Strength::Comparison),
            Strength::Comparison => self.level(cursor, Strength::Sum),
            Strength::Sum => self.level(cursor, Strength::Product),
            Strength::Product => self.unary(cursor),
        }
    }

    #[cycle(levels)]
    #[tactic(auto, unfolding(hv_syn_grammar::specs::Expressions::link))]
    fn link(
        &self,
        cursor: &mut Cursor<'_>,
        strength: Strength,
    ) -> Result<(Operator, Place, Expr), Stop>
        requires expr { NestsExpr self.now.room (F.pre self.now.expr) (F.post self.now.expr) }
        requires place { NestsPlace self.now.room (P.pre self.now.place) (P.post self.now.place) }
        requires stmts { NestsStmts self.now.room (B.pre self.now.stmts) (B.post self.now.stmts) }
        ensures { Reads (rule.link (level_of strength) (rule.operand (level_of strength) self.now.room (inner self.now.room)) cursor.old) result cursor.new }
    {
        let Some((operator, place)) = cursor.take_infix(strength) else {
            return Err(Stop::Off);
        };
        let operand = self.operand(cursor, strength)?;
        Ok((operator, place, operand))
    }

    #[cycle(levels)]
    #[tactic(auto, using(hv_syn_grammar::proofs::Loops::many_begins, hv_syn_grammar::proofs::Loops::turn_none, hv_syn_grammar::proofs::Loops::turn_end, hv_syn_grammar::proofs::Loops::turn_more, hv_syn_grammar::proofs::Loops::turn_off, hv_syn_grammar::proofs::Loops::turn_deep), unfolding(hv_syn_grammar::specs::Expressions::links))]
    fn links(
        &self,
        cursor: &mut Cursor<'_>,
        strength: Strength,
    ) -> Result<Items<(Operator, Place, Expr)>, Stop>
        requires expr { NestsExpr self.now.room (F.pre self.now.expr) (F.post self.now.expr) }
        requires place { NestsPlace self.now.room (P.pre self.now.place) (P.post self.now.place) }
        requires stmts { NestsStmts self.now.room (B.pre self.now.stmts) (B.post self.now.stmts) }
        ensures { Reads (rule.links (level_of strength) (rule.operand (level_of strength) self.now.room (inner self.now.room)) cursor.old) result cursor.new }
    {
        let mut found = Items::new(self.alloc);
        for _turn in 0..cursor.left() {
            if !cursor.sees_infix(strength) {
                return Ok(found);
            }
            let link = self.link(cursor, strength)?;
            found.push(link)?;
        }
        Ok(found)
    }

    #[cycle(levels)]
    #[tactic(auto, unfolding(hv_items::specs::Kept::paired))]
    fn repeated(&self, cursor: &mut Cursor<'_>, strength: Strength) -> Result<Expr, Stop>
        requires expr { NestsExpr self.now.room (F.pre self.now.expr) (F.post self.now.expr) }
        requires place { NestsPlace self.now.room (P.pre self.now.place) (P.post self.now.place) }
        requires stmts { NestsStmts self.now.room (B.pre self.now.stmts) (B.post self.now.stmts) }
        ensures { Reads (rule.repeated (level_of strength) (rule.operand (level_of strength) self.now.room (inner self.now.room)) cursor.old) result cursor.new }
    {
        let first = self.operand(cursor, strength)?;
        let (first, links) = beside(first, self.links(cursor, strength))?;
        Ok(chained(self.alloc, first, links)?)
    }

    #[cycle(levels)]
    #[tactic(auto, unfolding(hv_items::specs::Kept::paired))]
    fn at_most_one(&self, cursor: &mut Cursor<'_>, strength: Strength) -> Result<Expr, Stop>
        requires expr { NestsExpr self.now.room (F.pre self.now.expr) (F.post self.now.expr) }
        requires place { NestsPlace self.now.room (P.pre self.now.place) (P.post self.now.place) }
        requires stmts { NestsStmts self.now.room (B.pre self.now.stmts) (B.post self.now.stmts) }
        ensures { Reads (rule.at_most_one (level_of strength) (rule.operand (level_of strength) self.now.room (inner self.now.room)) cursor.old) result cursor.new }
    {
        let first = self.operand(cursor, strength)?;
        if !cursor.sees_infix(strength) {
            return Ok(first);
        }
        let (first, link) = beside(first, self.link(cursor, strength))?;
        let (first, links) = beside(first, only(self.alloc, link))?;
        Ok(chained(self.alloc, first, links)?)
    }

    #[cycle(levels)]
    #[tactic(auto, unfolding(hv_syn_grammar::specs::Expressions::level, hv_syn_grammar::specs::Expressions::operand, hv_syn_grammar::specs::Expressions::product, hv_syn_grammar::specs::Expressions::sum, hv_syn_grammar::specs::Expressions::comparison, hv_syn_grammar::specs::Expressions::conjunction, hv_syn_grammar::specs::Expressions::disjunction))]
    fn level(&self, cursor: &mut Cursor<'_>, strength: Strength) -> Result<Expr, Stop>
        requires expr { NestsExpr self.now.room (F.pre self.now.expr) (F.post self.now.expr) }
        requires place { NestsPlace self.now.room (P.pre self.now.place) (P.post self.now.place) }
        requires stmts { NestsStmts self.now.room (B.pre self.now.stmts) (B.post self.now.stmts) }
        ensures { Reads (rule.level (level_of strength) self.now.room (inner self.now.room) cursor.old) result cursor.new }
    {
        match strength {
            Strength::Or => self.repeated(cursor, Strength::Or),
            Strength::And => self.repeated(cursor, Strength::And),
            Strength::Comparison => self.at_most_one(cursor, Strength::Comparison),
            Strength::Sum => self.repeated(cursor, Strength::Sum),
            Strength::Product => self.repeated(cursor, Strength::Product),
        }
    }

    /// An expression.
    #[tactic(auto, unfolding(hv_syn_grammar::specs::Expressions::level))]
    pub fn expr(&self, cursor: &mut Cursor<'_>) -> Result<Expr, Stop>
        requires expr { NestsExpr self.now.room (F.pre self.now.expr) (F.post self.now.expr) }
        requires place { NestsPlace self.now.room (P.pre self.now.place) (P.post self.now.place) }
        requires stmts { NestsStmts self.now.room (B.pre self.now.stmts) (B.post self.now.stmts) }
        ensures { Reads (rule.disjunction self.now.room (inner self.now.room) cursor.old) result cursor.new }
    {
        self.level(cursor, Strength::Or)
    }
}
