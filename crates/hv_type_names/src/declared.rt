// Names that are declared a second time.
ghost use Rattle.std.specs.Prelude.{◌≡◌, [], ◌∷◌, ◌++◌, map, OnOk, None};
ghost use Rattle.hv_tree.specs.Core.{core_branches, core_block, core_param, core_stmt, core_stmts, core_option_block};
ghost use Rattle.std.specs.Option.{option_copied};
ghost use Rattle.hv_type_names.specs.Found as spec;

use crate::program::Program;
use hv_symbols::Texts;
use hv_tree::{Block, Branch, Name, Param, Refusal, Rule, Stmt, StmtKind};
use std::alloc::AllocError as NoMemory;

// A name that may be known already, and is from now on.
pub(crate) fn declare<'a>(
    known: &mut Texts<'a>,
    found: &mut Vec<Refusal>,
    name: &'a Name,
) -> Result<(), NoMemory>
    ensures found { OnOk result (found.new.items ≡ found.old.items ++ spec.again_found known.old name.now) }
    ensures known { OnOk result (known.new ≡ known.old ++ spec.texts_of (name.now ∷ [])) }
{
    if known.has(name.text.as_str()) {
        found.push(Refusal {
            rule: Rule::N1,
            place: name.place,
        })?;
    }
    known.push(name.text.as_str())
}

// A local, which may not share its name with a declaration of the program.
pub(crate) fn declare_local<'a>(
    program: &Program<'a>,
    known: &mut Texts<'a>,
    found: &mut Vec<Refusal>,
    name: &'a Name,
) -> Result<(), NoMemory>
    ensures found { OnOk result (found.new.items ≡ found.old.items ++ spec.locals_found program.now known.old (name.now ∷ [])) }
    ensures known { OnOk result (known.new ≡ known.old ++ spec.texts_of (name.now ∷ [])) }
{
    declare(known, found, name)?;
    share(program, found, name)
}

fn share<'a>(program: &Program<'a>, found: &mut Vec<Refusal>, name: &Name) -> Result<(), NoMemory>
    ensures { OnOk result (found.new.items ≡ found.old.items ++ spec.shared_found program.now name.now) }
{
    let Some(first) = program.tops.find(name.text.as_str()) else {
        return Ok(());
    };
    let Some(place) = program.places.get(first) else {
        return Ok(());
    };
    let later = if first <= program.number {
        name.place
    } else {
        *place
    };
    found.push(Refusal {
        rule: Rule::N1,
        place: later,
    })?;
    Ok(())
}

pub(crate) fn declare_params<'a>(
    program: &Program<'a>,
    known: &mut Texts<'a>,
    found: &mut Vec<Refusal>,
    params: &'a [Param],
) -> Result<(), NoMemory>
    ensures found { OnOk result (found.new.items ≡ found.old.items ++ spec.locals_found program.now known.old (map spec.param_name (map core_param params.now))) }
    ensures known { OnOk result (known.new ≡ known.old ++ spec.texts_of (map spec.param_name (map core_param params.now))) }
{
    for param in params {
        declare_local(program, known, found, &param.name)?;
    }
    Ok(())
}

/// The name that a statement declares for the rest of its block.
#[tactic(auto, using(crate::proofs::Declaring::bound_opened, hv_tree::specs::declared::ast::Arg::TheViews::the_lemmas), unfolding(crate::proofs::Declaring::bound_by))]
pub(crate) fn bound(stmt: &Stmt) -> Option<&Name>
    ensures { option_copied result ≡ spec.bound (core_stmt stmt.now) }
{
    match &stmt.kind {
        StmtKind::Var(name, _, _) => Some(name),
        StmtKind::Let(name, _, _) => Some(name),
        StmtKind::Inout(name, _, _) => Some(name),
        StmtKind::Task(name, _, _, _, _) => Some(name),
        _ => None,
    }
}

// The local that a statement declares, if it does.
fn declare_bound<'a>(
    program: &Program<'a>,
    known: &mut Texts<'a>,
    found: &mut Vec<Refusal>,
    stmt: &'a Stmt,
) -> Result<(), NoMemory>
    ensures found { OnOk result (found.new.items ≡ found.old.items ++ spec.locals_found program.now known.old (spec.bound_names (spec.bound (core_stmt stmt.now)))) }
    ensures known { OnOk result (known.new ≡ known.old ++ spec.texts_of (spec.bound_names (spec.bound (core_stmt stmt.now)))) }
{
    match bound(stmt) {
        Some(name) => declare_local(program, known, found, name),
        None => Ok(()),
    }
}

#[cycle(blocks)]
#[tactic(auto, using(crate::proofs::Declaring::block_opened))]
pub(crate) fn declare_block<'a>(
    program: &Program<'a>,
    known: &mut Texts<'a>,
    found: &mut Vec<Refusal>,
    block: &'a Block,
) -> Result<(), NoMemory>
    ensures found { OnOk result (found.new.items ≡ found.old.items ++ spec.locals_found program.now known.old (spec.block_names (core_block block.now))) }
    ensures known { OnOk result (known.new ≡ known.old ++ spec.texts_of (spec.block_names (core_block block.now))) }
{
    declare_stmts(program, known, found, block.stmts.as_slice())
}

#[cycle(blocks)]
fn declare_stmts<'a>(
    program: &Program<'a>,
    known: &mut Texts<'a>,
    found: &mut Vec<Refusal>,
    stmts: &'a [Stmt],
) -> Result<(), NoMemory>
    ensures found { OnOk result (found.new.items ≡ found.old.items ++ spec.locals_found program.now known.old (spec.stmts_names (core_stmts stmts.now))) }
    ensures known { OnOk result (known.new ≡ known.old ++ spec.texts_of (spec.stmts_names (core_stmts stmts.now))) }
{
    for stmt in stmts {
        declare_stmt(program, known, found, stmt)?;
    }
    Ok(())
}

#[cycle(blocks)]
#[tactic(auto, using(crate::proofs::Declaring::two_found, crate::proofs::Declaring::two_known))]
fn declare_stmt<'a>(
    program: &Program<'a>,
    known: &mut Texts<'a>,
    found: &mut Vec<Refusal>,
    stmt: &'a Stmt,
) -> Result<(), NoMemory>
    ensures found { OnOk result (found.new.items ≡ found.old.items ++ spec.locals_found program.now known.old (spec.stmt_names (core_stmt stmt.now))) }
    ensures known { OnOk result (known.new ≡ known.old ++ spec.texts_of (spec.stmt_names (core_stmt stmt.now))) }
{
    declare_bound(program, known, found, stmt)?;
    declare_inner(program, known, found, stmt)
}

// What the blocks of a statement declare.
#[cycle(blocks)]
#[tactic(auto, using(crate::proofs::Declaring::inner_opened, hv_tree::specs::declared::ast::Arg::TheViews::the_lemmas, crate::proofs::Declaring::none_found, crate::proofs::Declaring::none_known, crate::proofs::Declaring::two_found, crate::proofs::Declaring::two_known), unfolding(crate::proofs::Declaring::inner_by))]
fn declare_inner<'a>(
    program: &Program<'a>,
    known: &mut Texts<'a>,
    found: &mut Vec<Refusal>,
    stmt: &'a Stmt,
) -> Result<(), NoMemory>
    ensures found { OnOk result (found.new.items ≡ found.old.items ++ spec.locals_found program.now known.old (spec.inner_names (core_stmt stmt.now))) }
    ensures known { OnOk result (known.new ≡ known.old ++ spec.texts_of (spec.inner_names (core_stmt stmt.now))) }
{
    match &stmt.kind {
        StmtKind::If(branches, otherwise) => {
            declare_branches(program, known, found, branches.as_slice())?;
            declare_last(program, known, found, otherwise)
        }
        StmtKind::While(_, body) => declare_block(program, known, found, body),
        StmtKind::Block(body) => declare_block(program, known, found, body),
        _ => Ok(()),
    }
}

#[cycle(blocks)]
fn declare_branches<'a>(
    program: &Program<'a>,
    known: &mut Texts<'a>,
    found: &mut Vec<Refusal>,
    branches: &'a [Branch],
) -> Result<(), NoMemory>
    ensures found { OnOk result (found.new.items ≡ found.old.items ++ spec.locals_found program.now known.old (spec.branches_names (core_branches branches.now None))) }
    ensures known { OnOk result (known.new ≡ known.old ++ spec.texts_of (spec.branches_names (core_branches branches.now None))) }
{
    for branch in branches {
        declare_block(program, known, found, &branch.body)?;
    }
    Ok(())
}

#[cycle(blocks)]
fn declare_last<'a>(
    program: &Program<'a>,
    known: &mut Texts<'a>,
    found: &mut Vec<Refusal>,
    last: &'a Option<Block>,
) -> Result<(), NoMemory>
    ensures found { OnOk result (found.new.items ≡ found.old.items ++ spec.locals_found program.now known.old (spec.else_names last.now)) }
    ensures known { OnOk result (known.new ≡ known.old ++ spec.texts_of (spec.else_names last.now)) }
{
    match last {
        Some(block) => declare_block(program, known, found, block),
        None => Ok(()),
    }
}
