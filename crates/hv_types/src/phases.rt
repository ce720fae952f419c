ghost use Rattle.std.specs.Prelude.{◌≡◌, ◌++◌, [], ◌∷◌, map, IfOk, OnOk};
ghost use Rattle.hv_tree.specs.Core.{core_tree, core_decl};
ghost use Rattle.hv_tree.specs.Earlier.{IsFirst};
ghost use Rattle.hv_decls.specs.Sites.{decl_sites};
ghost use Rattle.hv_rules.specs.Accepted.{NamePhase, TypePhase, IsFirstOf, IsViolatedInPhase};
ghost use Rattle.hv_type_judge.specs.Judged.{sites_judged, struct_t4};
ghost use Rattle.hv_types.specs.Table.{table_of};
ghost use Rattle.hv_types.specs.Structs as spec;

use crate::counts::counts_of;
use crate::decls::walk_decls;
use crate::fields::{FieldType, rows_of};
use crate::here::Program;
use crate::holders::holders;
use crate::rounds::depths;
use crate::structs::{judge_structs, names_of};
use hv_items::Items;
use hv_scope::Declared;
use hv_symbols::Texts;
use hv_tree::{Decl, Refusal, Tree, first};
use hv_type_names::names;
use std::alloc::{AllocError as NoMemory, Global};

// The names of the structs whose values have function values in them.
fn holding_names<'t>(
    alloc: Global,
    declared: &Declared<'t>,
    rows: &[Items<FieldType>],
) -> Result<Texts<'t>, NoMemory>
    requires rows { rows.now ≡ table_of (core_tree declared.now) }
    ensures { IfOk result (λ names. spec.NamesHolders (core_tree declared.now) names) }
{
    let numbers = holders(alloc, rows)?;
    names_of(alloc, declared, numbers.as_slice())
}

// The structs that are too great.
fn judge_great(
    alloc: Global,
    declared: &Declared<'_>,
    rows: &[Items<FieldType>],
    found: &mut Vec<Refusal>,
) -> Result<(), NoMemory>
    requires rows { rows.now ≡ table_of (core_tree declared.now) }
    ensures { OnOk result (found.new.items ≡ found.old.items ++ struct_t4 (core_tree declared.now) (core_tree declared.now).decls) }
{
    let depths = depths(alloc, rows)?;
    let counts = counts_of(alloc, rows)?;
    judge_structs(declared, depths.as_slice(), counts.as_slice(), found)
}

// The bodies of the functions.
fn judge_bodies<'t>(
    alloc: Global,
    declared: &Declared<'t>,
    holding: &Texts<'t>,
    decls: &'t [Decl],
    found: &mut Vec<Refusal>,
) -> Result<(), NoMemory>
    ensures { OnOk result (found.new.items ≡ found.old.items ++ sites_judged (core_tree declared.now) holding.now (decl_sites (map core_decl decls.now))) }
{
    let program = Program {
        alloc,
        declared,
        holding,
    };
    walk_decls(&program, found, decls)
}

fn all_found(alloc: Global, tree: &Tree) -> Result<Vec<Refusal>, NoMemory>
    ensures { IfOk result (λ found. spec.IsAllJudged (core_tree tree.now) found.items) }
{
    let declared = Declared::new(alloc, tree)?;
    let rows = rows_of(alloc, &declared)?;
    let holding = holding_names(alloc, &declared, rows.as_slice())?;
    let mut found = Vec::new(alloc);
    judge_bodies(
        alloc,
        &declared,
        &holding,
        tree.decls.as_slice(),
        &mut found,
    )?;
    judge_great(alloc, &declared, rows.as_slice(), &mut found)?;
    Ok(found)
}

fn types(alloc: Global, tree: &Tree) -> Result<Option<Refusal>, NoMemory>
    ensures { IfOk result (IsFirst (IsViolatedInPhase TypePhase (core_tree tree.now))) }
{
    let found = all_found(alloc, tree)?;
    Ok(first(found.as_slice()))
}

/// The first violation of the rules of names, else that of the rules of types.
#[tactic(auto, using(hv_type_judge::proofs::Program::named_first, crate::proofs::Great::typed_first))]
pub fn names_and_types(alloc: Global, tree: &Tree) -> Result<Option<Refusal>, NoMemory>
    ensures first { IfOk result (IsFirstOf (NamePhase ∷ TypePhase ∷ []) (core_tree tree.now)) }
{
    match names(alloc, tree)? {
        Some(refusal) => Ok(Some(refusal)),
        None => types(alloc, tree),
    }
}
