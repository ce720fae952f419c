// What names stand for.
ghost use Rattle.std.specs.Prelude.{◌≡◌, ℕ};
ghost use Rattle.hv_tree.specs.Core.{core_steps};
ghost use Rattle.hv_decls.specs.Types.{fun_in, struct_in};
ghost use Rattle.hv_sem_copying.specs.Places as places;
ghost use Rattle.hv_sem_copying.specs.Calls as calls;
ghost use Rattle.hv_sem_copying.specs.Evaluate as evaluate;
ghost use Rattle.hv_partial.specs.HeldTree.{held_tree};
ghost use Rattle.hv_eval_state.specs.Gives.{Gives, from, itself};
ghost use Rattle.hv_eval_env.specs.Level.{tree_in, locals_in};
ghost use Rattle.hv_eval_env.specs.Callees.{callee_of};

use crate::callee::Callee;
use crate::level::Level;
use hv_eval_state::{Halt, Task};
use hv_items::Items;
use hv_partial::Held;
use hv_sem_copying::Cause;
use hv_tree::{Name, Step};

impl<'a> Level<'a> {
    /// The number of a local.
    #[tactic(auto, unfolding(hv_sem_copying::specs::Run::pure, hv_sem_copying::specs::Run::halt))]
    pub fn local(&self, task: &Task, name: &Name) -> Result<usize, Halt>
        ensures { (n : ℕ) → Gives itself (from (places.local (locals_in self.now) name.now) n task.now) result task.now }
    {
        match self.locals.find(name.text.as_str()) {
            Some((number, _)) => Ok(number),
            None => Err(Halt::Stuck(Cause::Kinds)),
        }
    }

    #[tactic(auto, unfolding(hv_sem_copying::specs::Run::and_then, hv_sem_copying::specs::Run::pure, hv_sem_copying::specs::Run::halt))]
    fn function_value(&self, task: &Task, root: &Name) -> Result<Held, Halt>
        ensures { (n : ℕ) → Gives held_tree (from (evaluate.function_value (tree_in self.now) (fun_in (tree_in self.now).decls root.now.text)) n task.now) result task.now }
    {
        match self.program.declared().find_function(root.text.as_str()) {
            Some(function) => match self.program.number_of(&function.body) {
                Some(number) => Ok(Held::Fun(number, Items::new(self.alloc))),
                None => Err(Halt::Stuck(Cause::Kinds)),
            },
            None => Err(Halt::Stuck(Cause::Kinds)),
        }
    }

    /// A function as a value, by its name without steps.
    pub fn top_value(&self, task: &Task, root: &Name, steps: &[Step]) -> Result<Held, Halt>
        ensures { (n : ℕ) → Gives held_tree (from (evaluate.top_value (tree_in self.now) root.now (core_steps steps.now)) n task.now) result task.now }
    {
        match steps {
            [] => self.function_value(task, root),
            [_, ..] => Err(Halt::Stuck(Cause::Kinds)),
        }
    }

    #[tactic(auto, unfolding(hv_sem_copying::specs::Run::pure, hv_sem_copying::specs::Run::halt))]
    fn struct_callee(&self, task: &Task, root: &Name) -> Result<Callee, Halt>
        ensures { (n : ℕ) → Gives callee_of (from (calls.struct_callee (tree_in self.now) (struct_in (tree_in self.now).decls root.now.text)) n task.now) result task.now }
    {
        match self.program.declared().find_struct(root.text.as_str()) {
            Some(_) => Ok(Callee::Constructs),
            None => Err(Halt::Stuck(Cause::Kinds)),
        }
    }

    #[tactic(auto, unfolding(hv_sem_copying::specs::Run::and_then, hv_sem_copying::specs::Run::pure, hv_sem_copying::specs::Run::halt))]
    fn named_callee(&self, task: &Task, root: &Name) -> Result<Callee, Halt>
        ensures { (n : ℕ) → Gives callee_of (from (calls.fun_callee (tree_in self.now) (fun_in (tree_in self.now).decls root.now.text) (struct_in (tree_in self.now).decls root.now.text)) n task.now) result task.now }
    {
        match self.program.declared().find_function(root.text.as_str()) {
            Some(function) => match self.program.number_of(&function.body) {
                Some(number) => Ok(Callee::Enters(number, Items::new(self.alloc))),
                None => Err(Halt::Stuck(Cause::Kinds)),
            },
            None => self.struct_callee(task, root),
        }
    }

    /// A struct, or the body of a function, by its name without steps.
    pub fn top_callee(&self, task: &Task, root: &Name, steps: &[Step]) -> Result<Callee, Halt>
        ensures { (n : ℕ) → Gives callee_of (from (calls.top_callee (tree_in self.now) root.now (core_steps steps.now)) n task.now) result task.now }
    {
        match steps {
            [] => self.named_callee(task, root),
            [_, ..] => Err(Halt::Stuck(Cause::Kinds)),
        }
    }
}

/// The body that a function value enters.
#[tactic(auto, unfolding(hv_sem_copying::specs::Run::pure, hv_sem_copying::specs::Run::halt))]
pub fn value_callee(task: &Task, held: Held) -> Result<Callee, Halt>
    ensures { (n : ℕ) → Gives callee_of (from (calls.value_callee (held_tree held)) n task.now) result task.now }
{
    match held {
        Held::Fun(number, captures) => Ok(Callee::Enters(number, captures)),
        _ => Err(Halt::Stuck(Cause::Kinds)),
    }
}
