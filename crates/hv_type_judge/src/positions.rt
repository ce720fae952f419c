// Expressions, and the types that their positions ask for.
ghost use Rattle.std.specs.Prelude.{◌≡◌, ◌++◌, OnOk};
ghost use Rattle.std.specs.Option.{option_copied};
ghost use Rattle.hv_scope.specs.Known.{typed};
ghost use Rattle.hv_type_synth.specs.Held.{known_by, option_base, option_type};
ghost use Rattle.hv_type_judge.specs.Judged as spec;
ghost use Rattle.hv_type_judge.specs.Seen as seen;

use crate::refuse::refuse_if;
use hv_scope::behind;
use hv_tree::{Expr, Operator, Place, Refusal, Rule, Step, Ty};
use hv_type_synth::{
    Around, Base, HeldType, Typed, differ, held, is_equality, known_to_hold, misfits, no_array,
    no_field, operand_type, type_of,
};
use std::alloc::AllocError as NoMemory;

// An expression where this type or any value is asked for.
#[tactic(auto, using(crate::proofs::Places::place_of))]
pub(crate) fn check_type<'t>(
    around: &Around<'_, 't>,
    found: &mut Vec<Refusal>,
    asked: Option<HeldType<'t>>,
    x: &'t Expr,
) -> Result<(), NoMemory>
    ensures { OnOk result (found.new.items ≡ found.old.items ++ seen.wrong around.now (option_type asked.entry) x.now) }
{
    let ty = type_of(around, x)?;
    refuse_if(found, misfits(asked, ty), Rule::T1, x.place)
}

// The same by the type without arrays around.
pub(crate) fn check_base<'t>(
    around: &Around<'_, 't>,
    found: &mut Vec<Refusal>,
    asked: Option<Base<'t>>,
    x: &'t Expr,
) -> Result<(), NoMemory>
    ensures { OnOk result (found.new.items ≡ found.old.items ++ seen.wrong around.now (option_base asked.entry) x.now) }
{
    match asked {
        Some(base) => check_type(around, found, Some(held(base)), x),
        None => check_type(around, found, None, x),
    }
}

#[tactic(auto, using(crate::proofs::Steps::index_alone, crate::proofs::Steps::field_alone, hv_lemmas::proofs::Lists::nothing, hv_lemmas::proofs::Lists::two))]
fn check_index<'t>(
    around: &Around<'_, 't>,
    found: &mut Vec<Refusal>,
    ty: Option<&'t Ty>,
    step: &'t Step,
) -> Result<(), NoMemory>
    ensures { OnOk result (found.new.items ≡ found.old.items ++ seen.one_t1 around.now (typed (option_copied ty.entry)) step.now) }
{
    match step {
        Step::Field(_) => Ok(()),
        Step::Index(at, index) => {
            refuse_if(found, no_array(ty), Rule::T1, *at)?;
            check_base(around, found, Some(Base::Int), index)
        }
    }
}

// The indices of a place whose root has this type.
pub(crate) fn check_indices<'t>(
    around: &Around<'_, 't>,
    found: &mut Vec<Refusal>,
    ty: Option<&'t Ty>,
    steps: &'t [Step],
) -> Result<(), NoMemory>
    ensures { OnOk result (found.new.items ≡ found.old.items ++ seen.step_t1 around.now (typed (option_copied ty.entry)) steps.now) }
{
    let mut known = ty;
    for step in steps {
        check_index(around, found, known, step)?;
        known = behind(around.declared, known, step);
    }
    Ok(())
}

#[tactic(auto, using(crate::proofs::Steps::no_field_alone, crate::proofs::Steps::only_field_alone, hv_lemmas::proofs::Lists::nothing))]
fn check_field<'t>(
    around: &Around<'_, 't>,
    found: &mut Vec<Refusal>,
    ty: Option<&'t Ty>,
    step: &Step,
) -> Result<(), NoMemory>
    ensures { OnOk result (found.new.items ≡ found.old.items ++ seen.one_t3 around.now (typed (option_copied ty.entry)) step.now) }
{
    match step {
        Step::Field(name) => refuse_if(found, no_field(around, ty, name), Rule::T3, name.place),
        Step::Index(_, _) => Ok(()),
    }
}

// The fields of a place whose root has this type.
pub(crate) fn check_fields<'t>(
    around: &Around<'_, 't>,
    found: &mut Vec<Refusal>,
    ty: Option<&'t Ty>,
    steps: &[Step],
) -> Result<(), NoMemory>
    ensures { OnOk result (found.new.items ≡ found.old.items ++ seen.step_t3 around.now (typed (option_copied ty.entry)) steps.now) }
{
    let mut known = ty;
    for step in steps {
        check_field(around, found, known, step)?;
        known = behind(around.declared, known, step);
    }
    Ok(())
}

fn asked_by<'t>(first: Typed<'t>) -> Option<HeldType<'t>>
    ensures { option_type result ≡ spec.asked_by (known_by first.entry) }
{
    match first {
        Typed::Is(ty) => Some(ty),
        _ => None,
    }
}

// The elements of an array literal, where the first one has this type.
pub(crate) fn check_elements<'t>(
    around: &Around<'_, 't>,
    found: &mut Vec<Refusal>,
    first: Typed<'t>,
    elements: &'t [Expr],
) -> Result<(), NoMemory>
    ensures { OnOk result (found.new.items ≡ found.old.items ++ seen.element_t1 around.now (known_by first.entry) elements.now) }
{
    let asked = asked_by(first);
    for element in elements {
        check_type(around, found, asked, element)?;
    }
    Ok(())
}

fn check_equal<'t>(
    around: &Around<'_, 't>,
    found: &mut Vec<Refusal>,
    left: &'t Expr,
    operator: Operator,
    at: Place,
    right: &'t Expr,
) -> Result<(), NoMemory>
    ensures { OnOk result (found.new.items ≡ found.old.items ++ seen.equal_t1 around.now left.now operator at right.now) }
{
    let one = type_of(around, left)?;
    let other = type_of(around, right)?;
    refuse_if(
        found,
        is_equality(operator) && differ(one, other),
        Rule::T1,
        at,
    )
}

// The operands of a chain behind its first one.
pub(crate) fn check_operands<'t>(
    around: &Around<'_, 't>,
    found: &mut Vec<Refusal>,
    first: &'t Expr,
    links: &'t [(Operator, Place, Expr)],
) -> Result<(), NoMemory>
    ensures { OnOk result (found.new.items ≡ found.old.items ++ seen.operand_t1 around.now first.now links.now) }
{
    let mut left = first;
    for (operator, at, right) in links {
        check_base(around, found, operand_type(*operator), right)?;
        check_equal(around, found, left, *operator, *at, right)?;
        left = right;
    }
    Ok(())
}

// All operands of a chain.
#[tactic(auto, using(hv_lemmas::proofs::Lists::nothing, hv_lemmas::proofs::Lists::two))]
pub(crate) fn check_chain<'t>(
    around: &Around<'_, 't>,
    found: &mut Vec<Refusal>,
    first: &'t Expr,
    links: &'t [(Operator, Place, Expr)],
) -> Result<(), NoMemory>
    ensures { OnOk result (found.new.items ≡ found.old.items ++ seen.chain_t1 around.now first.now links.now) }
{
    match links.split_first() {
        Some(((operator, _, _), _)) => {
            check_base(around, found, operand_type(*operator), first)?;
            check_operands(around, found, first, links)
        }
        None => Ok(()),
    }
}

fn check_function_free<'t>(
    around: &Around<'_, 't>,
    found: &mut Vec<Refusal>,
    left: &'t Expr,
    operator: Operator,
    at: Place,
    right: &'t Expr,
) -> Result<(), NoMemory>
    ensures { OnOk result (found.new.items ≡ found.old.items ++ seen.equal_t9 around.now left.now operator at right.now) }
{
    let one = type_of(around, left)?;
    let other = type_of(around, right)?;
    refuse_if(
        found,
        is_equality(operator)
            && (known_to_hold(around.holding, one) || known_to_hold(around.holding, other)),
        Rule::T9,
        at,
    )
}

// Function values are not compared.
pub(crate) fn check_compared<'t>(
    around: &Around<'_, 't>,
    found: &mut Vec<Refusal>,
    first: &'t Expr,
    links: &'t [(Operator, Place, Expr)],
) -> Result<(), NoMemory>
    ensures { OnOk result (found.new.items ≡ found.old.items ++ seen.link_t9 around.now first.now links.now) }
{
    let mut left = first;
    for (operator, at, right) in links {
        check_function_free(around, found, left, *operator, *at, right)?;
        left = right;
    }
    Ok(())
}

// Function values are not printed.
#[tactic(auto, using(crate::proofs::Places::place_of))]
pub(crate) fn check_printed<'t>(
    around: &Around<'_, 't>,
    found: &mut Vec<Refusal>,
    x: &'t Expr,
) -> Result<(), NoMemory>
    ensures { OnOk result (found.new.items ≡ found.old.items ++ seen.print_t9 around.now x.now) }
{
    let ty = type_of(around, x)?;
    refuse_if(found, known_to_hold(around.holding, ty), Rule::T9, x.place)
}
