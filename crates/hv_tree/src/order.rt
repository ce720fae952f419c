ghost use Rattle.hv_tree.specs.Earlier.{IsEarlier};

use crate::Refusal;

/// The one with the lesser place, at one place the one with the lesser rule.
pub fn earlier(a: Option<Refusal>, b: Option<Refusal>) -> Option<Refusal>
    ensures first { IsEarlier a b result }
{
    match (a, b) {
        (None, other) | (other, None) => other,
        (Some(x), Some(y)) => {
            if y.place.start < x.place.start || y.place.start == x.place.start && y.rule < x.rule {
                b
            } else {
                a
            }
        }
    }
}
