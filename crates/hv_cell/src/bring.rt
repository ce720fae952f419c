// How a party comes to its cell.
ghost use Rattle.std.specs.Prelude.{◌≡◌, ◌*◌, ◌<◌, not, IfOk, IfErr};
ghost use Rattle.hv_cell.specs.CellRule.{IsPut, side_number, bit_of};
ghost use Rattle.hv_cell.specs.Bringing.{IsRole, IsFreeBadge};
ghost use Rattle.hv_cell.specs.Heads.{task_in};

use crate::cell_plays::{Come, Hold, Reset, Sided};
use crate::cell_view::{Held, View};
use crate::joined::Joined;
use crate::make::{Grid, Place};
use crate::tokens::Parted;
use atomic_table::Badge;

fn side(is_awaiter: bool) -> usize
    ensures { result ≡ side_number is_awaiter }
{
    if is_awaiter { 1 } else { 0 }
}

fn bit(is_awaiter: bool) -> u64
    ensures { result ≡ bit_of is_awaiter }
{
    if is_awaiter { 2 } else { 1 }
}

// What the later party has: its own value, the other's, and the cell.
pub(crate) struct Brought<D, S, K> {
    pub(crate) mine: Held<D, S>,
    pub(crate) theirs: Held<D, S>,
    pub(crate) badge: Badge<View<K>>,
}

// A party puts its value into its slot and sets its bit. Where the other one came first, it gets
// that one's value and the cell.
pub(crate) fn bring<P: Joined, W: Sided>(
    grid: &Grid<P>,
    is_awaiter: bool,
    cell: u32,
    badge: Badge<View<P::Kin>>,
    value: Held<P::Done, P::Stack>,
) -> Result<Brought<P::Done, P::Stack, P::Kin>, Parted<P::Kin>>
    requires sized { (0 < grid.now.table_id.words) × (grid.now.table_id.slots ≡ 2 * grid.now.table_id.words) }
    requires side { is_awaiter ≡ W.side }
    requires own { badge.table_id ≡ grid.now.table_id }
    requires role { IsRole W.side cell grid.now.key badge }
    requires cell { cell < grid.now.table_id.words }
    requires value { IsPut P.done_id P.done_kin P.awaits P.stack_kin P.tokens W.side (task_in badge.views) grid.now.key badge.table_id value }
    ensures first { IfErr result (λ p. (p.table ≡ badge.table_id) × (p.seat ≡ badge.id)) }
    ensures mine { IfOk result (λ b. b.mine ≡ value) }
    ensures theirs { IfOk result (λ b. IsPut P.done_id P.done_kin P.awaits P.stack_kin P.tokens (not W.side) (task_in badge.views) grid.now.key badge.table_id b.theirs) }
    ensures cell { IfOk result (λ b. IsFreeBadge cell grid.now.key badge.table_id b.badge × (b.badge.id ≡ badge.id)) }
{
    let at = cell as usize;
    let mine = 2 * at + side(is_awaiter);
    let other = 2 * at + side(!is_awaiter);
    let mut seat: Place<P> = badge.into_seat();
    grid.load::<Hold<W>>(&mut seat, 0);
    let before = grid.exchange(&mut seat, mine, value);
    let Held::Nothing = before else {
        unreachable!()
    };
    let found = grid.fetch_or::<Come<P, W>>(&mut seat, at, bit(is_awaiter));
    if found != bit(!is_awaiter) {
        let badge = seat.into_badge();
        return Err(Parted { badge });
    }
    let theirs = grid.exchange(&mut seat, other, Held::Nothing);
    seat.turn();
    let mine = grid.exchange(&mut seat, mine, Held::Nothing);
    grid.swap::<Reset>(&mut seat, at, 0);
    Ok(Brought {
        mine,
        theirs,
        badge: seat.into_badge(),
    })
}
