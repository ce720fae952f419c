// How a local stands behind the events of a text.
ghost use Rattle.std.specs.Prelude.{◌≡◌};
ghost use Rattle.hv_init_needs.specs.Standings as spec;

use hv_items::Items;

/// Unless it is `Filled`, the local needs a state.
#[derive(Clone, Copy)]
pub enum Standing {
    /// Its declaration gives it no value.
    Unfilled,
    /// Its declaration gives it a value, and no event unsettles it.
    Filled,
    /// An event empties it, or asks for it where it isn't in sight.
    Unsettled,
}

/// An event unsettles this local, if any; a number of no local changes nothing.
#[tactic(auto, using(crate::proofs::Settling::past))]
pub fn unsettle(standings: &mut Items<Standing>, local: Option<u32>)
    ensures { standings.new ≡ spec.unsettled_at local standings.old }
{
    let Some(local) = local else {
        return;
    };
    let at = local as usize;
    if at < standings.len() {
        standings.set(at, Standing::Unsettled);
    }
}

/// A declaration gives a value to this local, if any.
pub fn fill(standings: &mut Items<Standing>, local: Option<u32>)
    ensures { standings.new ≡ spec.filled_at local standings.old }
{
    let Some(local) = local else {
        return;
    };
    let at = local as usize;
    if let Some(Standing::Unfilled) = standings.get(at) {
        standings.set(at, Standing::Filled);
    }
}

/// Whether a local that stands like this needs a state.
pub fn needs(standing: Standing) -> bool
    ensures { result ≡ spec.needs standing }
{
    match standing {
        Standing::Unfilled | Standing::Unsettled => true,
        Standing::Filled => false,
    }
}
