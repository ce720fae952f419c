// Calls: their arguments, and what they take.
ghost use Rattle.std.specs.Prelude.{◌≡◌, ◌++◌, OnOk};
ghost use Rattle.hv_type_synth.specs.Held.{signature_by, wanted_next, wants_by};
ghost use Rattle.hv_type_judge.specs.Seen as seen;

use crate::names::{check_called, check_callee, check_changed, check_moved, check_root};
use crate::positions::check_base;
use crate::refuse::refuse_if;
use crate::wants::{count, is_changed, is_moved, others, wanted_by};
use hv_tree::{Arg, Call, Conv, Place, Refusal, Rule, Ty};
use hv_type_synth::{Around, Base, Signature, Wants, next_wanted, other, place_type, signature_of};
use std::alloc::AllocError as NoMemory;

#[tactic(auto, using(crate::proofs::Args::no_value, crate::proofs::Args::value_type, crate::proofs::Args::lent_type, hv_lemmas::proofs::Lists::nothing))]
fn check_value<'t>(
    around: &Around<'_, 't>,
    found: &mut Vec<Refusal>,
    wanted: Option<(Option<Conv>, &'t Ty, Wants<'t>)>,
    arg: &'t Arg,
) -> Result<(), NoMemory>
    ensures { OnOk result (found.new.items ≡ found.old.items ++ seen.this_t1 around.now (wanted_next wanted.entry) arg.now) }
{
    let Some((_, ty, _)) = wanted else {
        return Ok(());
    };
    match arg {
        Arg::Value(x) => check_base(around, found, Some(Base::Written(ty)), x),
        Arg::Ref(_, place) => refuse_if(
            found,
            other(ty, place_type(around, place)),
            Rule::T1,
            place.root.place,
        ),
    }
}

// The types of arguments.
fn check_values<'t>(
    around: &Around<'_, 't>,
    found: &mut Vec<Refusal>,
    wants: Wants<'t>,
    args: &'t [Arg],
) -> Result<(), NoMemory>
    ensures { OnOk result (found.new.items ≡ found.old.items ++ seen.arg_t1 around.now (wants_by wants.entry) args.now) }
{
    let mut left = wants;
    for arg in args {
        check_value(around, found, next_wanted(left), arg)?;
        left = others(left);
    }
    Ok(())
}

#[tactic(auto, using(crate::proofs::Args::no_mark, crate::proofs::Args::value_mark, crate::proofs::Args::lent_mark, hv_lemmas::proofs::Lists::nothing))]
fn check_mark<'t>(
    around: &Around<'_, 't>,
    found: &mut Vec<Refusal>,
    wanted: Option<(Option<Conv>, &'t Ty, Wants<'t>)>,
    arg: &Arg,
) -> Result<(), NoMemory>
    ensures { OnOk result (found.new.items ≡ found.old.items ++ seen.this_t5 around.now (wanted_next wanted.entry) arg.now) }
{
    let Some((conv, _, _)) = wanted else {
        return Ok(());
    };
    match arg {
        Arg::Value(x) => refuse_if(found, is_changed(conv), Rule::T5, x.place),
        Arg::Ref(at, _) => refuse_if(found, !is_changed(conv), Rule::T5, *at),
    }
}

// The marks of arguments.
fn check_marks<'t>(
    around: &Around<'_, 't>,
    found: &mut Vec<Refusal>,
    wants: Wants<'t>,
    args: &[Arg],
) -> Result<(), NoMemory>
    ensures { OnOk result (found.new.items ≡ found.old.items ++ seen.mark_t5 around.now (wants_by wants.entry) args.now) }
{
    let mut left = wants;
    for arg in args {
        check_mark(around, found, next_wanted(left), arg)?;
        left = others(left);
    }
    Ok(())
}

#[tactic(auto, using(crate::proofs::Args::value_root, crate::proofs::Args::lent_root, hv_lemmas::proofs::Lists::nothing))]
fn check_lent(around: &Around<'_, '_>, found: &mut Vec<Refusal>, arg: &Arg) -> Result<(), NoMemory>
    ensures { OnOk result (found.new.items ≡ found.old.items ++ seen.this_t6 around.now arg.now) }
{
    match arg {
        Arg::Value(_) => Ok(()),
        Arg::Ref(_, place) => check_root(around, found, &place.root),
    }
}

// The roots of arguments with `&`.
fn check_lents(
    around: &Around<'_, '_>,
    found: &mut Vec<Refusal>,
    args: &[Arg],
) -> Result<(), NoMemory>
    ensures { OnOk result (found.new.items ≡ found.old.items ++ seen.lent_t6 around.now args.now) }
{
    for arg in args {
        check_lent(around, found, arg)?;
    }
    Ok(())
}

// Whether the next argument is moved.
fn moves(wanted: Option<(Option<Conv>, &Ty, Wants<'_>)>) -> bool
    ensures { result ≡ seen.next_moved (wanted_next wanted.entry) }
{
    match wanted {
        Some((conv, _, _)) => is_moved(conv),
        None => false,
    }
}

#[tactic(auto, using(crate::proofs::Args::value_moved, crate::proofs::Args::value_kept, crate::proofs::Args::lent_changed, hv_lemmas::proofs::Lists::nothing))]
fn check_change<'t>(
    around: &Around<'_, 't>,
    found: &mut Vec<Refusal>,
    wanted: Option<(Option<Conv>, &'t Ty, Wants<'t>)>,
    arg: &Arg,
) -> Result<(), NoMemory>
    ensures { OnOk result (found.new.items ≡ found.old.items ++ seen.this_t7 around.now (wanted_next wanted.entry) arg.now) }
{
    match arg {
        Arg::Value(x) => {
            if moves(wanted) {
                check_moved(around, found, x)
            } else {
                Ok(())
            }
        }
        Arg::Ref(_, place) => check_changed(around, found, &place.root),
    }
}

// The changes and moves of arguments.
fn check_changes<'t>(
    around: &Around<'_, 't>,
    found: &mut Vec<Refusal>,
    wants: Wants<'t>,
    args: &[Arg],
) -> Result<(), NoMemory>
    ensures { OnOk result (found.new.items ≡ found.old.items ++ seen.arg_t7 around.now (wants_by wants.entry) args.now) }
{
    let mut left = wants;
    for arg in args {
        check_change(around, found, next_wanted(left), arg)?;
        left = others(left);
    }
    Ok(())
}

// The count of arguments.
#[tactic(auto, using(crate::proofs::Args::args_counted, hv_lemmas::proofs::Lists::nothing))]
fn check_count<'t>(
    around: &Around<'_, 't>,
    found: &mut Vec<Refusal>,
    signature: Signature<'t>,
    paren: Place,
    args: &[Arg],
) -> Result<(), NoMemory>
    ensures { OnOk result (found.new.items ≡ found.old.items ++ seen.count_t2 around.now (signature_by signature.entry) paren args.now) }
{
    match signature {
        Signature::Signed(wants, _) => {
            refuse_if(found, args.len() != count(wants), Rule::T2, paren)
        }
        Signature::Unknown => Ok(()),
    }
}

// The roots of a callee and of arguments with `&`.
#[tactic(auto, using(hv_lemmas::proofs::Lists::two))]
fn check_roots(
    around: &Around<'_, '_>,
    found: &mut Vec<Refusal>,
    call: &Call,
) -> Result<(), NoMemory>
    ensures { OnOk result (found.new.items ≡ found.old.items ++ seen.roots_t6 around.now call.now) }
{
    check_callee(around, found, &call.callee)?;
    check_lents(around, found, call.args.as_slice())
}

#[tactic(auto, using(hv_lemmas::proofs::Lists::three))]
fn check_uses<'t>(
    around: &Around<'_, 't>,
    found: &mut Vec<Refusal>,
    wants: Wants<'t>,
    call: &Call,
) -> Result<(), NoMemory>
    ensures { OnOk result (found.new.items ≡ found.old.items ++ seen.uses_judged around.now (wants_by wants.entry) call.now) }
{
    check_roots(around, found, call)?;
    check_changes(around, found, wants, call.args.as_slice())?;
    check_called(around, found, &call.callee)
}

#[tactic(auto, using(hv_lemmas::proofs::Lists::four))]
fn check_signed<'t>(
    around: &Around<'_, 't>,
    found: &mut Vec<Refusal>,
    signature: Signature<'t>,
    call: &'t Call,
) -> Result<(), NoMemory>
    ensures { OnOk result (found.new.items ≡ found.old.items ++ seen.signed_judged around.now (signature_by signature.entry) call.now) }
{
    let wants = wanted_by(signature);
    check_values(around, found, wants, call.args.as_slice())?;
    check_count(around, found, signature, call.paren, call.args.as_slice())?;
    check_marks(around, found, wants, call.args.as_slice())?;
    check_uses(around, found, wants, call)
}

/// A call.
#[tactic(auto, using(crate::proofs::Args::call_opened))]
pub fn judge_call<'t>(
    around: &Around<'_, 't>,
    found: &mut Vec<Refusal>,
    call: &'t Call,
) -> Result<(), NoMemory>
    ensures { OnOk result (found.new.items ≡ found.old.items ++ seen.call_judged around.now call.now) }
{
    check_signed(around, found, signature_of(around, &call.callee), call)
}
