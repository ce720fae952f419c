//! Places, calls and blocks.

ghost use Rattle.std.specs.Prelude.{◌≡◌, ◌<◌, codes};
ghost use Rattle.hv_syn_grammar.specs.Parser.{passes, read_then};
ghost use Rattle.hv_syn_grammar.specs.Reads.{Reads};
ghost use Rattle.hv_syn_grammar.specs.Expressions as rule;
ghost use Rattle.hv_syn_grammar.specs.Declarations.{inner};
ghost use Rattle.hv_tree.specs.Grammar.{path_of, call_of};
ghost use Rattle.hv_syn_terms.specs.Nests.{NestsExpr, NestsPlace, NestsStmts};
ghost use Rattle.hv_syn_terms.specs.Parts.{parts_after, begins_keyed, begins_unkeyed};

use crate::grammar::Grammar;
use hv_items::{Items, beside};
use hv_syn_grammar::{Cursor, Stop};
use hv_tree::{Arg, Block, Call, Expr, Name, Place, PlaceExpr, Step, Stmt};
use std::alloc::Global;

fn begins_step(cursor: &Cursor<'_>) -> bool
    ensures { result ≡ passes rule.begins_step cursor.now }
{
    cursor.sees_mark(".") || cursor.sees_mark("[")
}

fn begins_keyed(cursor: &Cursor<'_>) -> bool
    ensures { result ≡ passes begins_keyed cursor.now }
{
    cursor.sees_keyword("true")
        || cursor.sees_keyword("false")
        || cursor.sees_keyword("await")
        || cursor.sees_keyword("filled")
        || cursor.sees_keyword("count")
        || cursor.sees_keyword("fun")
}

fn begins_unkeyed(cursor: &Cursor<'_>) -> bool
    ensures { result ≡ passes begins_unkeyed cursor.now }
{
    cursor.sees_mark("&")
        || cursor.sees_mark("-")
        || cursor.sees_mark("!")
        || cursor.sees_number()
        || cursor.sees_word()
        || cursor.sees_mark("(")
        || cursor.sees_mark("[")
}

#[tactic(auto, using(crate::proofs::NextToken::begins_arg))]
fn begins_arg(cursor: &Cursor<'_>) -> bool
    ensures { result ≡ passes rule.begins_arg cursor.now }
{
    begins_unkeyed(cursor) || begins_keyed(cursor)
}

impl<
    F: Fn(Global, &mut Cursor<'_>, usize) -> Result<Expr, Stop>,
    P: Fn(Global, &mut Cursor<'_>, usize) -> Result<PlaceExpr, Stop>,
    B: Fn(Global, &mut Cursor<'_>, usize) -> Result<Items<Stmt>, Stop>,
> Grammar<F, P, B> {
    #[tactic(auto, unfolding(hv_items::specs::Kept::paired))]
    fn index_step(&self, cursor: &mut Cursor<'_>) -> Result<Step, Stop>
        requires expr { NestsExpr self.now.room (F.pre self.now.expr) (F.post self.now.expr) }
        ensures { Reads (rule.index_step self.now.room (inner self.now.room) cursor.old) result cursor.new }
    {
        let left = cursor.opening(self.room, "[")?;
        let at = self.inner_expr(cursor)?;
        let (at, _) = beside(at, cursor.mark("]"))?;
        Ok(Step::Index(left, at))
    }

    #[tactic(auto, unfolding(hv_syn_grammar::specs::Expressions::one_step))]
    fn one_step(&self, cursor: &mut Cursor<'_>) -> Result<Step, Stop>
        requires expr { NestsExpr self.now.room (F.pre self.now.expr) (F.post self.now.expr) }
        ensures { Reads (rule.one_step self.now.room (inner self.now.room) cursor.old) result cursor.new }
    {
        if cursor.sees_mark(".") {
            cursor.mark(".")?;
            Ok(Step::Field(cursor.word(self.alloc)?))
        } else {
            self.index_step(cursor)
        }
    }

    #[tactic(auto, using(hv_syn_grammar::proofs::Loops::many_begins, hv_syn_grammar::proofs::Loops::turn_none, hv_syn_grammar::proofs::Loops::turn_end, hv_syn_grammar::proofs::Loops::turn_more, hv_syn_grammar::proofs::Loops::turn_off, hv_syn_grammar::proofs::Loops::turn_deep), unfolding(hv_syn_grammar::specs::Expressions::steps))]
    pub(crate) fn steps(&self, cursor: &mut Cursor<'_>) -> Result<Items<Step>, Stop>
        requires expr { NestsExpr self.now.room (F.pre self.now.expr) (F.post self.now.expr) }
        ensures { Reads (rule.steps self.now.room (inner self.now.room) cursor.old) result cursor.new }
    {
        let mut found = Items::new(self.alloc);
        for _turn in 0..cursor.left() {
            if !begins_step(cursor) {
                return Ok(found);
            }
            let step = self.one_step(cursor)?;
            found.push(step)?;
        }
        Ok(found)
    }

    /// A local or a top-level name, and the steps into it.
    #[tactic(auto, unfolding(hv_syn_grammar::specs::Expressions::place))]
    pub fn place(&self, cursor: &mut Cursor<'_>) -> Result<PlaceExpr, Stop>
        requires expr { NestsExpr self.now.room (F.pre self.now.expr) (F.post self.now.expr) }
        ensures { Reads (rule.place self.now.room (inner self.now.room) cursor.old) result cursor.new }
    {
        let root = cursor.word(self.alloc)?;
        let steps = self.steps(cursor)?;
        Ok(PlaceExpr { root, steps })
    }

    /// Right inside a bracket.
    #[tactic(auto, unfolding(hv_syn_grammar::specs::Expressions::argument))]
    fn argument(&self, cursor: &mut Cursor<'_>) -> Result<Arg, Stop>
        requires room { 0 < self.now.room }
        requires expr { NestsExpr self.now.room (F.pre self.now.expr) (F.post self.now.expr) }
        requires place { NestsPlace self.now.room (P.pre self.now.place) (P.post self.now.place) }
        ensures { Reads (rule.argument (inner self.now.room) cursor.old) result cursor.new }
    {
        if cursor.sees_mark("&") {
            let at = cursor.mark("&")?;
            Ok(Arg::Ref(at, self.inner_place(cursor)?))
        } else {
            Ok(Arg::Value(self.inner_expr(cursor)?))
        }
    }

    #[tactic(auto, using(hv_syn_grammar::proofs::Loops::many_begins, hv_syn_grammar::proofs::Loops::turn_none, hv_syn_grammar::proofs::Loops::turn_end, hv_syn_grammar::proofs::Loops::turn_more, hv_syn_grammar::proofs::Loops::turn_off, hv_syn_grammar::proofs::Loops::turn_deep), unfolding(hv_syn_grammar::specs::Lexemes::more_parts, crate::specs::Parts::parts_after))]
    fn more_arguments(&self, cursor: &mut Cursor<'_>, first: Arg) -> Result<Items<Arg>, Stop>
        requires room { 0 < self.now.room }
        requires expr { NestsExpr self.now.room (F.pre self.now.expr) (F.post self.now.expr) }
        requires place { NestsPlace self.now.room (P.pre self.now.place) (P.post self.now.place) }
        ensures { Reads (parts_after first (rule.argument (inner self.now.room)) cursor.old) result cursor.new }
    {
        let mut found = Items::new(self.alloc);
        found.push(first)?;
        for _turn in 0..cursor.left() {
            if !cursor.sees_mark(",") {
                return Ok(found);
            }
            cursor.mark(",")?;
            let next = self.argument(cursor)?;
            found.push(next)?;
        }
        Ok(found)
    }

    /// Right inside a bracket.
    #[tactic(auto, unfolding(hv_syn_grammar::specs::Expressions::arguments, hv_syn_grammar::specs::Lexemes::separated, crate::specs::Parts::parts_after))]
    fn arguments(&self, cursor: &mut Cursor<'_>) -> Result<Items<Arg>, Stop>
        requires room { 0 < self.now.room }
        requires expr { NestsExpr self.now.room (F.pre self.now.expr) (F.post self.now.expr) }
        requires place { NestsPlace self.now.room (P.pre self.now.place) (P.post self.now.place) }
        ensures { Reads (rule.arguments (inner self.now.room) cursor.old) result cursor.new }
    {
        if !begins_arg(cursor) {
            return Ok(Items::new(self.alloc));
        }
        let first = self.argument(cursor)?;
        self.more_arguments(cursor, first)
    }

    /// The arguments in brackets, after the callee.
    #[tactic(auto, unfolding(hv_syn_grammar::specs::Expressions::call_rest))]
    pub(crate) fn call_rest(
        &self,
        cursor: &mut Cursor<'_>,
        root: Name,
        steps: Items<Step>,
    ) -> Result<Call, Stop>
        requires expr { NestsExpr self.now.room (F.pre self.now.expr) (F.post self.now.expr) }
        requires place { NestsPlace self.now.room (P.pre self.now.place) (P.post self.now.place) }
        ensures { Reads (rule.call_rest self.now.room (inner self.now.room) root steps cursor.old) result cursor.new }
    {
        let paren = cursor.opening(self.room, "(")?;
        let args = self.arguments(cursor)?;
        cursor.mark(")")?;
        Ok(Call {
            callee: PlaceExpr { root, steps },
            paren,
            args,
        })
    }

    /// A call, with the place of its first token.
    #[tactic(auto, unfolding(hv_syn_grammar::specs::Expressions::call))]
    pub fn call(&self, cursor: &mut Cursor<'_>) -> Result<(Place, Call), Stop>
        requires expr { NestsExpr self.now.room (F.pre self.now.expr) (F.post self.now.expr) }
        requires place { NestsPlace self.now.room (P.pre self.now.place) (P.post self.now.place) }
        ensures { Reads (rule.call self.now.room (inner self.now.room) cursor.old) result cursor.new }
    {
        let root = cursor.word(self.alloc)?;
        let at = root.place;
        let steps = self.steps(cursor)?;
        let call = self.call_rest(cursor, root, steps)?;
        Ok((at, call))
    }

    /// A block, with the place of its `{`.
    #[tactic(auto, unfolding(hv_syn_grammar::specs::Expressions::placed_block))]
    pub fn placed_block(&self, cursor: &mut Cursor<'_>) -> Result<(Place, Block), Stop>
        requires stmts { NestsStmts self.now.room (B.pre self.now.stmts) (B.post self.now.stmts) }
        ensures { Reads (rule.placed_block self.now.room (inner self.now.room) cursor.old) result cursor.new }
    {
        let left = cursor.opening(self.room, "{")?;
        let stmts = self.inner_stmts(cursor)?;
        let end = cursor.mark("}")?;
        Ok((left, Block { stmts, end }))
    }

    /// Statements in braces.
    #[tactic(auto, unfolding(hv_syn_grammar::specs::Expressions::block))]
    pub fn block(&self, cursor: &mut Cursor<'_>) -> Result<Block, Stop>
        requires stmts { NestsStmts self.now.room (B.pre self.now.stmts) (B.post self.now.stmts) }
        ensures { Reads (rule.block self.now.room (inner self.now.room) cursor.old) result cursor.new }
    {
        let (_, block) = self.placed_block(cursor)?;
        Ok(block)
    }
}
