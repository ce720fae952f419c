// Names that are looked up, and what is visible at the beginning of a body.
ghost use Rattle.std.specs.Prelude.{◌≡◌, [], ◌++◌, map, OnOk, IfOk};
ghost use Rattle.hv_tree.specs.Core.{core_param, core_block, core_stmt, core_option_ty};
ghost use Rattle.hv_type_names.specs.Found as spec;

use crate::declared::{bound, declare, declare_block, declare_params};
use crate::program::Program;
use crate::types::{walk_option_ty, walk_params};
use hv_symbols::Texts;
use hv_tree::{Block, Name, Param, Refusal, Rule, Stmt, Ty};
use std::alloc::AllocError as NoMemory;

// A name as a place's root, as a callee or in an await.
pub(crate) fn look_up<'a>(
    program: &Program<'a>,
    seen: &Texts<'a>,
    found: &mut Vec<Refusal>,
    name: &Name,
) -> Result<(), NoMemory>
    ensures { OnOk result (found.new.items ≡ found.old.items ++ spec.use_found program.now seen.now name.now) }
{
    let text = name.text.as_str();
    if !seen.has(text) && !program.tops.has(text) {
        found.push(Refusal {
            rule: Rule::N2,
            place: name.place,
        })?;
    }
    Ok(())
}

fn look_up_capture<'a>(
    seen: &Texts<'a>,
    found: &mut Vec<Refusal>,
    name: &Name,
) -> Result<(), NoMemory>
    ensures { OnOk result (found.new.items ≡ found.old.items ++ spec.capture_found seen.now name.now) }
{
    if !seen.has(name.text.as_str()) {
        found.push(Refusal {
            rule: Rule::N2,
            place: name.place,
        })?;
    }
    Ok(())
}

fn look_up_captures<'a>(
    seen: &Texts<'a>,
    found: &mut Vec<Refusal>,
    captures: &[Name],
) -> Result<(), NoMemory>
    ensures { OnOk result (found.new.items ≡ found.old.items ++ spec.captures_found seen.now captures.now) }
{
    for name in captures {
        look_up_capture(seen, found, name)?;
    }
    Ok(())
}

// Captures may not repeat each other.
pub(crate) fn declare_names<'a>(
    known: &mut Texts<'a>,
    found: &mut Vec<Refusal>,
    names: &'a [Name],
) -> Result<(), NoMemory>
    ensures found { OnOk result (found.new.items ≡ found.old.items ++ spec.repeats_found known.old names.now) }
    ensures known { OnOk result (known.new ≡ known.old ++ spec.texts_of names.now) }
{
    for name in names {
        declare(known, found, name)?;
    }
    Ok(())
}

// Sees what a body declares, and answers what is visible at its beginning.
#[tactic(auto, using(hv_lemmas::proofs::Lists::three, hv_lemmas::proofs::Lists::front_of))]
pub(crate) fn enter<'a>(
    program: &Program<'a>,
    found: &mut Vec<Refusal>,
    captures: &'a [Name],
    params: &'a [Param],
    body: &'a Block,
) -> Result<Texts<'a>, NoMemory>
    ensures found { OnOk result (found.new.items ≡ found.old.items ++ spec.declared_found program.now captures.now (map core_param params.now) (core_block body.now)) }
    ensures seen { IfOk result (λ seen. seen ≡ spec.texts_of captures.now ++ spec.texts_of (map spec.param_name (map core_param params.now))) }
{
    let mut known = program.tops.empty();
    declare_names(&mut known, found, captures)?;
    declare_params(program, &mut known, found, params)?;
    let visible = known.len();
    declare_block(program, &mut known, found, body)?;
    known.shorten(visible);
    Ok(known)
}

// What stands before the body of a lambda.
#[tactic(auto, using(hv_lemmas::proofs::Lists::three))]
pub(crate) fn walk_header<'a>(
    program: &Program<'a>,
    seen: &Texts<'a>,
    found: &mut Vec<Refusal>,
    captures: &[Name],
    params: &[Param],
    returned: &Option<Ty>,
) -> Result<(), NoMemory>
    ensures { OnOk result (found.new.items ≡ found.old.items ++ spec.header_found program.now seen.now captures.now (map core_param params.now) (core_option_ty returned.now)) }
{
    walk_params(program, found, params)?;
    walk_option_ty(program, found, returned)?;
    look_up_captures(seen, found, captures)
}

// The local that a statement declares, if it does, is visible behind it.
pub(crate) fn see_bound<'a>(seen: &mut Texts<'a>, stmt: &'a Stmt) -> Result<(), NoMemory>
    ensures { OnOk result (seen.new ≡ spec.behind seen.old (spec.bound (core_stmt stmt.now))) }
{
    match bound(stmt) {
        Some(name) => seen.push(name.text.as_str()),
        None => Ok(()),
    }
}
