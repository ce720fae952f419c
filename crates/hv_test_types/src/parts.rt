use hv_scope::{Declared, Visible, visible_first};
use hv_symbols::Texts;
use hv_tree::{
    Call, Conv, Expr, Name, Param, Place, PlaceExpr, Refusal, Rule, Step, Stmt, Tree, Ty,
    builders as build,
};
use hv_type_judge::{judge_call, judge_expr, judge_place, judge_stmt, judge_test};
use hv_type_synth::Around;
use std::alloc::{AllocError as NoMemory, Global};
use std::test::Fail;

#[derive(Drop)]
enum Part {
    Test(Expr),
    Alone(Expr),
    Steps(PlaceExpr),
    Called(Call),
    Whole(Stmt),
}

fn named(alloc: Global, text: &str, start: u32) -> Result<Name, NoMemory> {
    build::name(alloc, String::from_str(alloc, text)?, Place { start })
}

fn truth(alloc: Global, start: u32) -> Result<Expr, NoMemory> {
    build::expr(alloc, Place { start }, build::expr_kind_bool(alloc, true)?)
}

fn number(alloc: Global, start: u32) -> Result<Expr, NoMemory> {
    build::expr(alloc, Place { start }, build::expr_kind_int(alloc, 1)?)
}

fn awaited(alloc: Global, text: &str, start: u32) -> Result<Expr, NoMemory> {
    let kind = build::expr_kind_await(alloc, named(alloc, text, start)?)?;
    build::expr(alloc, Place { start: 0 }, kind)
}

fn place(alloc: Global, text: &str, steps: Vec<Step>) -> Result<PlaceExpr, NoMemory> {
    build::place_expr(alloc, named(alloc, text, 0)?, steps)
}

fn field(alloc: Global, text: &str, start: u32) -> Result<Step, NoMemory> {
    build::step_field(alloc, named(alloc, text, start)?)
}

fn called(alloc: Global, text: &str) -> Result<Call, NoMemory> {
    let callee = place(alloc, text, Vec::new(alloc))?;
    build::call(alloc, callee, Place { start: 1 }, Vec::new(alloc))
}

fn returned(alloc: Global, value: Option<Expr>) -> Result<Stmt, NoMemory> {
    let kind = build::stmt_kind_return(alloc, value)?;
    build::stmt(alloc, Place { start: 0 }, kind)
}

fn found_by<'t>(
    alloc: Global,
    around: &Around<'_, 't>,
    part: &'t Part,
) -> Result<Option<Refusal>, NoMemory> {
    let mut found = Vec::new(alloc);
    match part {
        Part::Test(test) => judge_test(around, &mut found, test)?,
        Part::Alone(x) => judge_expr(around, &mut found, x)?,
        Part::Steps(place) => judge_place(around, &mut found, place)?,
        Part::Called(call) => judge_call(around, &mut found, call)?,
        Part::Whole(stmt) => judge_stmt(around, &mut found, stmt)?,
    }
    Ok(found.get(0).copied())
}

fn found_in<'t>(
    alloc: Global,
    declared: &Declared<'t>,
    holding: &Texts<'t>,
    visible: &Visible<'t>,
    returned: &'t Option<Ty>,
    part: &'t Part,
) -> Result<Option<Refusal>, NoMemory> {
    let around = Around {
        declared,
        holding,
        visible,
        returned,
    };
    found_by(alloc, &around, part)
}

fn judged<'t>(
    alloc: Global,
    tree: &'t Tree,
    params: &'t [Param],
    returned: &'t Option<Ty>,
    part: &'t Part,
) -> Result<Option<Refusal>, NoMemory> {
    let declared = Declared::new(alloc, tree)?;
    let holding = Texts::new(alloc);
    let visible = visible_first(alloc, &[], params)?;
    found_in(alloc, &declared, &holding, &visible, returned, part)
}

fn refused(rule: Rule, start: u32) -> Option<Refusal> {
    Some(Refusal {
        rule,
        place: Place { start },
    })
}

// In a body without result, where `a` is an Int.
#[test]
fn a_part_is_judged_alone(rt: HostRuntime) -> Result<(), Fail> {
    let alloc = rt.alloc();
    let tree = build::tree(alloc, Vec::new(alloc))?;
    let ty = build::ty_int(alloc, Place { start: 0 })?;
    let params = vec![in alloc; build::param(alloc, named(alloc, "a", 0)?, Conv::Let, ty)?]?;
    let nothing: Option<Ty> = None;
    let alone = place(alloc, "a", Vec::new(alloc))?;
    let behind = place(alloc, "a", vec![in alloc; field(alloc, "x", 2)?]?)?;
    let rows = [
        (Part::Test(number(alloc, 5)?), refused(Rule::T1, 5)),
        (Part::Test(truth(alloc, 5)?), None),
        (Part::Alone(awaited(alloc, "a", 6)?), refused(Rule::T6, 6)),
        (Part::Alone(number(alloc, 5)?), None),
        (Part::Steps(behind), refused(Rule::T3, 2)),
        (Part::Steps(alone), None),
        (Part::Called(called(alloc, "a")?), refused(Rule::T8, 0)),
        (Part::Called(called(alloc, "b")?), None),
        (
            Part::Whole(returned(alloc, Some(number(alloc, 7)?))?),
            refused(Rule::T1, 7),
        ),
        (Part::Whole(returned(alloc, None)?), None),
    ];
    for (part, want) in &rows {
        assert_eq!(rt;
            judged(alloc, &tree, params.as_slice(), &nothing, part)?,
            *want
        );
    }
    Ok(())
}
