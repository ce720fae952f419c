ghost use Rattle.std.specs.Prelude.{◌≡◌, ◌++◌, OnOk};
ghost use Rattle.hv_type_judge.specs.Judged as spec;

use hv_tree::{Place, Refusal, Rule};
use std::alloc::AllocError as NoMemory;

// A refusal, where the test says so.
pub(crate) fn refuse_if(
    found: &mut Vec<Refusal>,
    wrong: bool,
    rule: Rule,
    place: Place,
) -> Result<(), NoMemory>
    ensures { OnOk result (found.new.items ≡ found.old.items ++ spec.only wrong (spec.refusal rule place)) }
{
    if wrong {
        found.push(Refusal { rule, place })?;
    }
    Ok(())
}
