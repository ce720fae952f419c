// Parts alone, where they stand.
ghost use Rattle.std.specs.Prelude.{◌≡◌, ◌++◌, OnOk};
ghost use Rattle.hv_types.specs.Walked as walked;

use hv_scope::{Declared, Visible};
use hv_symbols::Texts;
use hv_tree::{Call, Expr, PlaceExpr, Refusal, Stmt, Ty};
use hv_type_judge::{judge_call, judge_expr, judge_place, judge_stmt, judge_test};
use hv_type_synth::Around;
use std::alloc::{AllocError as NoMemory, Global};

/// What is known of a whole program.
#[derive(Clone, Copy)]
pub struct Program<'a, 't> {
    pub alloc: Global,
    pub declared: &'a Declared<'t>,
    /// The names of the structs whose values have function values in them.
    pub holding: &'a Texts<'t>,
}

pub(crate) fn expr_here<'t>(
    program: &Program<'_, 't>,
    visible: &Visible<'t>,
    returned: &'t Option<Ty>,
    found: &mut Vec<Refusal>,
    x: &'t Expr,
) -> Result<(), NoMemory>
    ensures { OnOk result (found.new.items ≡ found.old.items ++ walked.expr_here program.now visible.now returned.now x.now) }
{
    let around = Around {
        declared: program.declared,
        holding: program.holding,
        visible,
        returned,
    };
    judge_expr(&around, found, x)
}

pub(crate) fn call_here<'t>(
    program: &Program<'_, 't>,
    visible: &Visible<'t>,
    returned: &'t Option<Ty>,
    found: &mut Vec<Refusal>,
    call: &'t Call,
) -> Result<(), NoMemory>
    ensures { OnOk result (found.new.items ≡ found.old.items ++ walked.call_here program.now visible.now returned.now call.now) }
{
    let around = Around {
        declared: program.declared,
        holding: program.holding,
        visible,
        returned,
    };
    judge_call(&around, found, call)
}

pub(crate) fn place_here<'t>(
    program: &Program<'_, 't>,
    visible: &Visible<'t>,
    returned: &'t Option<Ty>,
    found: &mut Vec<Refusal>,
    place: &'t PlaceExpr,
) -> Result<(), NoMemory>
    ensures { OnOk result (found.new.items ≡ found.old.items ++ walked.place_here program.now visible.now returned.now place.now) }
{
    let around = Around {
        declared: program.declared,
        holding: program.holding,
        visible,
        returned,
    };
    judge_place(&around, found, place)
}

pub(crate) fn stmt_here<'t>(
    program: &Program<'_, 't>,
    visible: &Visible<'t>,
    returned: &'t Option<Ty>,
    found: &mut Vec<Refusal>,
    stmt: &'t Stmt,
) -> Result<(), NoMemory>
    ensures { OnOk result (found.new.items ≡ found.old.items ++ walked.stmt_here program.now visible.now returned.now stmt.now) }
{
    let around = Around {
        declared: program.declared,
        holding: program.holding,
        visible,
        returned,
    };
    judge_stmt(&around, found, stmt)
}

pub(crate) fn test_here<'t>(
    program: &Program<'_, 't>,
    visible: &Visible<'t>,
    returned: &'t Option<Ty>,
    found: &mut Vec<Refusal>,
    test: &'t Expr,
) -> Result<(), NoMemory>
    ensures { OnOk result (found.new.items ≡ found.old.items ++ walked.test_here program.now visible.now returned.now test.now) }
{
    let around = Around {
        declared: program.declared,
        holding: program.holding,
        visible,
        returned,
    };
    judge_test(&around, found, test)
}
