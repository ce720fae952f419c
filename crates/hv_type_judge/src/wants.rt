// What arguments are for.
ghost use Rattle.std.specs.Prelude.{◌≡◌, drop, length};
ghost use Rattle.hv_type_synth.specs.Held.{signature_by, takes_by, wants_by};
ghost use Rattle.hv_type_synth.specs.Tests as tests;
ghost use Rattle.hv_type_judge.specs.Judged as spec;

use hv_tree::Conv;
use hv_type_synth::{Signature, Takes, Wants, next_wanted};

// What the arguments behind the next one are for.
#[tactic(auto, using(crate::proofs::Wanted::others_none, crate::proofs::Wanted::others_some))]
pub(crate) fn others<'t>(wants: Wants<'t>) -> Wants<'t>
    ensures { wants_by result ≡ drop 1 (wants_by wants.entry) }
{
    match next_wanted(wants) {
        Some((_, _, rest)) => rest,
        None => wants,
    }
}

// What is passed so is changed.
pub(crate) fn is_changed(conv: Option<Conv>) -> bool
    ensures { result ≡ tests.is_changed conv }
{
    match conv {
        Some(Conv::Inout) => true,
        Some(Conv::Set) => true,
        _ => false,
    }
}

// What is passed so is moved.
pub(crate) fn is_moved(conv: Option<Conv>) -> bool
    ensures { result ≡ tests.is_moved conv }
{
    match conv {
        Some(Conv::Sink) => true,
        _ => false,
    }
}

// How many arguments are taken.
#[tactic(auto, using(crate::proofs::Wanted::fields_counted, crate::proofs::Wanted::params_counted, crate::proofs::Wanted::types_counted))]
pub(crate) fn count(wants: Wants<'_>) -> usize
    ensures { result ≡ length (wants_by wants.entry) }
{
    match wants {
        Wants::Fields(fields) => fields.len(),
        Wants::Taken(Takes::Params(params)) => params.len(),
        Wants::Taken(Takes::Types(types)) => types.len(),
    }
}

// What a callee takes, nothing where that isn't known.
pub(crate) fn wanted_by<'t>(signature: Signature<'t>) -> Wants<'t>
    ensures { wants_by result ≡ spec.wanted_by (signature_by signature.entry) }
{
    match signature {
        Signature::Signed(wants, _) => wants,
        Signature::Unknown => Wants::Fields(&[]),
    }
}
