// A statement, by its kind.

ghost use Rattle.std.specs.Prelude.{◌≡◌, ℕ};
ghost use Rattle.hv_tree.specs.Core.{core_ty};
ghost use Rattle.hv_sem_copying.specs.Places as places;
ghost use Rattle.hv_sem_flat.specs.Parts as parts;
ghost use Rattle.hv_eval_state.specs.Gives.{Gives, from};
ghost use Rattle.hv_eval_state.specs.Opened.{mode_of};
ghost use Rattle.hv_eval_env.specs.Level.{tree_in, locals_in, value_in};
ghost use Rattle.hv_eval_env.specs.Nests.{Evals, Bodies, Blocks};
ghost use Rattle.hv_eval_blocks.specs.Runs.{assigned, printed, given, referred, awaited, dropped};
ghost use Rattle.hv_eval_blocks.specs.Statements.{went_of, statement_in, let_in, var_in, returned_in};
ghost use Rattle.hv_eval_operands.specs.Places.{found_by};
ghost use Rattle.hv_eval_blocks.specs.Spawns.{task_in};
ghost use Rattle.hv_eval_calls.specs.Calling.{call_in};

use crate::bindings::{declare, opening};
use crate::hollow::holes;
use crate::spawning::order;
use crate::stmts::Stmts;
use crate::ways::{Went, flowed};
use hv_eval_calls::{call, child};
use hv_eval_env::{Level, Parts};
use hv_eval_operands::{found, place_in};
use hv_eval_state::{Halt, Mode, Task, number, print, put_there};
use hv_items::Items;
use hv_partial::Held;
use hv_sem_copying::Cause;
use hv_tree::{Block, Call, Expr, Name, Place, PlaceExpr, Stmt, StmtKind, Ty};

// A variable without a value.
fn hollow<'a>(level: Level<'a>, task: &mut Task, name: &Name, ty: &Ty) -> Result<Went, Halt>
    ensures { (n : ℕ) → Gives went_of (from (parts.declared (locals_in level.entry) name.now (places.holes (tree_in level.entry) (core_ty ty.now))) n task.old) result task.new }
{
    let held = holes(level.alloc, level.program.declared(), ty)?;
    declare(level, task, name, held)
}

#[tactic(auto, unfolding(crate::specs::Runs::awaited, hv_sem_copying::specs::Run::and_then, hv_sem_copying::specs::Run::pure, hv_sem_copying::specs::Run::halt))]
fn await_handle<'a>(level: Level<'a>, task: &Task, handle: &Name) -> Result<Went, Halt>
    ensures { (n : ℕ) → Gives went_of (from (awaited (locals_in level.entry) handle.now) n task.now) result task.now }
{
    let _ = level.local(task, handle)?;
    Err(Halt::Stuck(Cause::Tasks))
}

impl<
    'a,
    E: Fn(Level<'a>, usize, &mut Task, &Expr) -> Result<Held, Halt>,
    B: Fn(Level<'a>, &mut Task, u32) -> Result<Option<Held>, Halt>,
    K: Fn(Level<'a>, usize, &mut Task, &Block) -> Result<Option<Held>, Halt>,
> Stmts<'a, E, B, K> {
    // A local that begins with a value.
    #[tactic(auto, unfolding(crate::specs::Runs::given, hv_sem_copying::specs::Run::and_then, hv_sem_copying::specs::Run::pure))]
    fn give(&self, used: usize, task: &mut Task, name: &Name, value: &Expr) -> Result<Went, Halt>
        requires { Evals self.now.parts.level (E.pre self.now.parts.eval) (E.post self.now.parts.eval) }
        ensures { Gives went_of (from (given (locals_in self.now.parts.level) name.now (value_in self.now.parts.level value.now)) used task.old) result task.new }
    {
        let held = self.parts.eval(used, task, value)?;
        declare(self.parts.level, task, name, held)
    }

    #[tactic(auto, using(crate::proofs::BindingLemmas::by_variable))]
    fn var(
        &self,
        used: usize,
        task: &mut Task,
        name: &Name,
        ty: &Ty,
        value: &Option<Expr>,
    ) -> Result<Went, Halt>
        requires { Evals self.now.parts.level (E.pre self.now.parts.eval) (E.post self.now.parts.eval) }
        ensures { Gives went_of (from (var_in self.now.parts.level name.now ty.now value.now) used task.old) result task.new }
    {
        match value {
            Some(value) => self.give(used, task, name, value),
            None => hollow(self.parts.level, task, name, ty),
        }
    }

    // A reference that stands for a place.
    #[tactic(auto, unfolding(crate::specs::Runs::referred, hv_sem_copying::specs::Run::and_then, hv_sem_copying::specs::Run::pure))]
    fn refer(
        &self,
        used: usize,
        task: &mut Task,
        mode: Mode,
        name: &Name,
        place: &PlaceExpr,
    ) -> Result<Went, Halt>
        requires { Evals self.now.parts.level (E.pre self.now.parts.eval) (E.post self.now.parts.eval) }
        ensures { Gives went_of (from (referred (locals_in self.now.parts.level) (mode_of mode) name.now (found_by self.now.parts.level place.now)) used task.old) result task.new }
    {
        let spot = found(&self.parts, used, task, &place.root, place.steps.as_slice())?;
        let reference = self.parts.level.local(task, name)?;
        opening(self.parts.level.alloc, task, mode, reference, spot)
    }

    #[tactic(auto, using(crate::proofs::BindingLemmas::by_let))]
    fn bind(&self, used: usize, task: &mut Task, name: &Name, value: &Expr) -> Result<Went, Halt>
        requires { Evals self.now.parts.level (E.pre self.now.parts.eval) (E.post self.now.parts.eval) }
        ensures { Gives went_of (from (let_in self.now.parts.level name.now value.now) used task.old) result task.new }
    {
        match place_in(&self.parts.level, value) {
            Some(place) => self.refer(used, task, Mode::Reads, name, place),
            None => self.give(used, task, name, value),
        }
    }

    #[tactic(auto, unfolding(crate::specs::Runs::assigned, hv_sem_copying::specs::Run::and_then, hv_sem_copying::specs::Run::pure))]
    fn assign(
        &self,
        used: usize,
        task: &mut Task,
        place: &PlaceExpr,
        value: &Expr,
    ) -> Result<Went, Halt>
        requires { Evals self.now.parts.level (E.pre self.now.parts.eval) (E.post self.now.parts.eval) }
        ensures { Gives went_of (from (assigned (value_in self.now.parts.level value.now) (found_by self.now.parts.level place.now)) used task.old) result task.new }
    {
        let held = self.parts.eval(used, task, value)?;
        let spot = found(&self.parts, used, task, &place.root, place.steps.as_slice())?;
        put_there(task, &spot, held)?;
        Ok(Went::Goes)
    }

    #[tactic(auto, unfolding(crate::specs::Runs::printed, hv_sem_copying::specs::Run::and_then, hv_sem_copying::specs::Run::pure))]
    fn show(&self, used: usize, task: &mut Task, value: &Expr) -> Result<Went, Halt>
        requires { Evals self.now.parts.level (E.pre self.now.parts.eval) (E.post self.now.parts.eval) }
        ensures { Gives went_of (from (printed (value_in self.now.parts.level value.now)) used task.old) result task.new }
    {
        let held = self.parts.eval(used, task, value)?;
        print(self.parts.level.alloc, task, &held)?;
        Ok(Went::Goes)
    }

    // A call alone, whose value goes.
    #[tactic(auto, unfolding(crate::specs::Runs::dropped, hv_sem_copying::specs::Run::and_then, hv_sem_copying::specs::Run::pure))]
    fn call_alone(&self, used: usize, task: &mut Task, called: &Call) -> Result<Went, Halt>
        requires evals { Evals self.now.parts.level (E.pre self.now.parts.eval) (E.post self.now.parts.eval) }
        requires bodies { Bodies self.now.parts.level (B.pre self.now.parts.body) (B.post self.now.parts.body) }
        ensures { Gives went_of (from (dropped (call_in self.now.parts.level called.now)) used task.old) result task.new }
    {
        let _ = call(&self.parts, used, task, called)?;
        Ok(Went::Goes)
    }

    // A task is begun.
    #[tactic(auto, unfolding(crate::specs::Spawns::task_in, hv_sem_copying::specs::Run::and_then, hv_sem_copying::specs::Run::pure))]
    fn begin(
        &self,
        used: usize,
        task: &mut Task,
        name: &Name,
        word: Place,
        budget: &Expr,
        called: &Call,
    ) -> Result<Went, Halt>
        requires { Evals self.now.parts.level (E.pre self.now.parts.eval) (E.post self.now.parts.eval) }
        ensures { Gives went_of (from (task_in self.now.parts.level name.now word budget.now called.now) used task.old) result task.new }
    {
        let budget = self.parts.eval(used, task, budget)?;
        let _ = child(&self.parts, used, task, called)?;
        let z = number(task, &budget)?;
        let _ = self.parts.level.local(task, name)?;
        order(self.parts.level, task, word, z)?;
        Ok(Went::Goes)
    }

    // The value of a Return, which without one is a struct without fields.
    #[tactic(auto, using(crate::proofs::StatementLemmas::empty_struct), unfolding(crate::specs::Statements::returned_in, hv_sem_copying::specs::Run::and_then, hv_sem_copying::specs::Run::pure))]
    fn leave(&self, used: usize, task: &mut Task, value: &Option<Expr>) -> Result<Went, Halt>
        requires { Evals self.now.parts.level (E.pre self.now.parts.eval) (E.post self.now.parts.eval) }
        ensures { Gives went_of (from (returned_in self.now.parts.level value.now) used task.old) result task.new }
    {
        match value {
            Some(value) => Ok(Went::Leaves(self.parts.eval(used, task, value)?)),
            None => Ok(Went::Leaves(Held::Struct(Items::new(self.parts.level.alloc)))),
        }
    }

    /// A statement, whose cost has been paid.
    pub fn statement(&self, used: usize, task: &mut Task, stmt: &Stmt) -> Result<Went, Halt>
        requires evals { Evals self.now.parts.level (E.pre self.now.parts.eval) (E.post self.now.parts.eval) }
        requires bodies { Bodies self.now.parts.level (B.pre self.now.parts.body) (B.post self.now.parts.body) }
        requires blocks { Blocks self.now.parts.level (K.pre self.now.block) (K.post self.now.block) }
        ensures { Gives went_of (from (statement_in self.now.parts.level stmt.now) used task.old) result task.new }
    {
        match &stmt.kind {
            StmtKind::Var(name, ty, value) => self.var(used, task, name, ty, value),
            StmtKind::Let(name, _, value) => self.bind(used, task, name, value),
            StmtKind::Inout(name, _, place) => self.refer(used, task, Mode::Writes, name, place),
            StmtKind::Assign(place, value) => self.assign(used, task, place, value),
            StmtKind::If(branches, otherwise) => {
                flowed(self.choose(used, task, branches.as_slice(), otherwise))
            }
            StmtKind::While(test, body) => {
                flowed(self.repeat(used, task, stmt.place, test, body))
            }
            StmtKind::Return(value) => self.leave(used, task, value),
            StmtKind::Print(value) => self.show(used, task, value),
            StmtKind::Task(name, _, word, budget, call) => {
                self.begin(used, task, name, *word, budget, call)
            }
            StmtKind::Await(handle) => await_handle(self.parts.level, task, handle),
            StmtKind::Call(call) => self.call_alone(used, task, call),
            StmtKind::Block(block) => flowed(self.block(used, task, block)),
        }
    }
}
