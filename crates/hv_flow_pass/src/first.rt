ghost use Rattle.std.specs.Prelude.{◌≡◌};
ghost use Rattle.hv_flow_pass.specs.Cells as spec;

use hv_tree::Refusal;

/// Whether x comes before y.
pub fn is_before(x: Refusal, y: Refusal) -> bool
    ensures { result ≡ spec.is_before x y }
{
    x.place.start < y.place.start || x.place.start == y.place.start && x.rule < y.rule
}

/// The one at the lesser place, at one place the one with the lesser rule; of two that are alike `a`.
pub fn earlier(a: Option<Refusal>, b: Option<Refusal>) -> Option<Refusal>
    ensures { result ≡ spec.earlier a b }
{
    match (a, b) {
        (Some(x), Some(y)) if is_before(y, x) => b,
        (Some(_), _) => a,
        (None, _) => b,
    }
}

/// The refusal, if it holds.
pub fn when(holds: bool, refusal: Option<Refusal>) -> Option<Refusal>
    ensures { result ≡ spec.when holds refusal }
{
    if holds { refusal } else { None }
}
