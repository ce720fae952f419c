// What the table says of structs by name.
ghost use Rattle.std.specs.Prelude.{◌≡◌, ◌++◌, ◌∷◌, [], IfOk, OnOk};
ghost use Rattle.std.specs.List.{slice_get};
ghost use Rattle.std.specs.Option.{option_copied};
ghost use Rattle.hv_tree.specs.Core.{core_tree};
ghost use Rattle.hv_scope.specs.Known.{core_struct, option_struct};
ghost use Rattle.hv_scope.specs.Tops.{structs_in};
ghost use Rattle.hv_types.specs.Structs as spec;

use crate::counts::{MOST_LEAVES, count_at};
use crate::fields::MOST_DEPTH;
use crate::rounds::{number_at, settled};
use hv_scope::Declared;
use hv_symbols::Texts;
use hv_tree::{Refusal, Rule, StructDecl};
use std::alloc::{AllocError as NoMemory, Global};

fn is_number(number: Option<usize>, other: usize) -> bool
    ensures { result ≡ spec.is_number number other }
{
    match number {
        Some(number) => number == other,
        None => false,
    }
}

fn struct_at<'t>(declared: &Declared<'t>, number: usize) -> Option<&'t StructDecl>
    ensures { option_struct (option_copied result) ≡ slice_get (structs_in (core_tree declared.now).decls) number }
{
    declared.structs().get(number).copied()
}

fn push_name<'t>(
    declared: &Declared<'t>,
    names: &mut Texts<'t>,
    number: usize,
) -> Result<(), NoMemory>
    ensures { OnOk result (names.new ≡ names.old ++ spec.name_of (core_tree declared.now) number (slice_get (structs_in (core_tree declared.now).decls) number)) }
{
    let Some(found) = struct_at(declared, number) else {
        return Ok(());
    };
    let name = found.name.text.as_str();
    if is_number(declared.struct_number(name), number) {
        names.push(name)?;
    }
    Ok(())
}

/// The names of the structs with these numbers.
pub(crate) fn names_of<'t>(
    alloc: Global,
    declared: &Declared<'t>,
    numbers: &[usize],
) -> Result<Texts<'t>, NoMemory>
    ensures { IfOk result (λ names. names ≡ spec.names_of (core_tree declared.now) numbers.now) }
{
    let mut names = Texts::new(alloc);
    for number in numbers {
        push_name(declared, &mut names, *number)?;
    }
    Ok(names)
}

fn is_great(depths: &[usize], counts: &[usize], number: Option<usize>) -> bool
    ensures { result ≡ spec.is_great depths.now counts.now number }
{
    match number {
        Some(number) => {
            !settled(number_at(depths, number), MOST_DEPTH)
                || count_at(counts, number) > MOST_LEAVES
        }
        None => false,
    }
}

fn judge_struct(
    declared: &Declared<'_>,
    depths: &[usize],
    counts: &[usize],
    found: &mut Vec<Refusal>,
    judged: &StructDecl,
) -> Result<(), NoMemory>
    ensures { OnOk result (found.new.items ≡ found.old.items ++ spec.great_judged (core_tree declared.now) depths.now counts.now (core_struct judged.now ∷ [])) }
{
    let number = declared.struct_number(judged.name.text.as_str());
    if is_great(depths, counts, number) {
        found.push(Refusal {
            rule: Rule::T4,
            place: judged.name.place,
        })?;
    }
    Ok(())
}

/// The structs that are too deep or have too many leaves.
pub(crate) fn judge_structs(
    declared: &Declared<'_>,
    depths: &[usize],
    counts: &[usize],
    found: &mut Vec<Refusal>,
) -> Result<(), NoMemory>
    ensures { OnOk result (found.new.items ≡ found.old.items ++ spec.great_judged (core_tree declared.now) depths.now counts.now (structs_in (core_tree declared.now).decls)) }
{
    for judged in declared.structs() {
        judge_struct(declared, depths, counts, found, judged)?;
    }
    Ok(())
}
