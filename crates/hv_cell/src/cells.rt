// The cells and their calls.
ghost use Rattle.std.specs.Prelude.{◌≡◌, ◌*◌, ◌+◌, ◌<◌, [], true, Some, All, IfOk, length, map};
ghost use Rattle.hv_cell.specs.Tokens.{Made, home_of, stop_home_of};
ghost use Rattle.hv_cell.specs.Reasons.{no_reason, only, both, has, Within, answer_of};
ghost use Rattle.hv_cell.specs.Numbers.{numbers_below};

use crate::bring::{Brought, bring};
use crate::cell_plays::{Awaiting, Finishing, Pair, Tasking, Unpair};
use crate::cell_view::Held;
use crate::joined::Joined;
use crate::make::{CellTable, Grid, Place, make_cells};
use crate::stop_word::{StopTable, StopWord, look, make_stop, set_stop};
use crate::tokens::{Awaiter, Finisher, FreeCell, Parted};
use crate::watches::Watch;
use crate::why::Why;
use hv_tree::TaskId;
use std::alloc::{AllocError as NoMemory, Global};
use std::marker::{Brand, Model};

/// Cells, and the stop word of the workers that use them. Contracts see the kin of the cells and
/// which tables they are. It is `Drop` where results and stacks are.
#[derive(Drop)]
pub struct Cells<P: Joined> {
    stop: StopTable<P::Kin>,
    table: CellTable<P>,
}

impl<P: Joined> Model for Cells<P> {
    ghost use Rattle.std.specs.Prelude.{◌≡◌, ◌*◌, ◌<◌};
    ghost use Rattle.hv_cell.specs.Tokens.{Made};

    ghost Value = { Made P.Kin };

    ghost view = { λ c. record { kin = c.table.shared.key; cells = c.table.shared.table_id; stop = c.stop.shared.table_id } };

    ghost invariant = { λ c. (0 < c.table.shared.table_id.words) × (c.table.shared.table_id.slots ≡ 2 * c.table.shared.table_id.words) × (c.stop.shared.key ≡ c.table.shared.key) × (c.stop.shared.table_id.words ≡ 1) };
}

/// What `finish` answers.
pub enum Finished<P: Joined> {
    /// The stack is still to come.
    First(Parted<P::Kin>),
    /// The stack that was parked, the same result, and the cell, which is free again.
    Last(P::Stack, P::Done, FreeCell<P::Kin>),
}

/// What `park` answers.
pub enum Parked<P: Joined> {
    /// The result is still to come.
    First(Parted<P::Kin>),
    /// The same stack, the result, and the cell, which is free again.
    Last(P::Stack, P::Done, FreeCell<P::Kin>),
}

impl<P: Joined> Cells<P> {
    ghost use Rattle.hv_cell.specs.Outcomes.{MatchFinished, MatchParked};

    /// New cells of this kin, a free cell for each, from 0, and a watch for each worker.
    pub fn new(
        alloc: Global,
        cells: u32,
        workers: u32,
        kin: P::Kin,
    ) -> Result<(Cells<P>, Vec<FreeCell<P::Kin>>, Vec<Watch<P::Kin>>), NoMemory>
    where
        P::Kin: Drop,
        requires some { (0 < cells) × (0 < workers) }
        ensures kin { IfOk result (λ r. r.0.kin ≡ kin) }
        ensures each { IfOk result (λ r. map (λ f. f.cell) r.1.items ≡ numbers_below cells) }
        ensures cells { IfOk result (λ r. All (λ f. f.home ≡ home_of r.0) r.1.items) }
        ensures count { IfOk result (λ r. (length r.1.items ≡ cells) × (length r.2.items ≡ workers)) }
        ensures watches { IfOk result (λ r. All (λ w. w ≡ record { home = stop_home_of r.0; seen = no_reason; asked = no_reason; looks = 0 }) r.2.items) }
    {
        let (stop, watches) = make_stop(alloc, workers, &kin)?;
        let (table, free) = make_cells::<P>(alloc, cells, &kin)?;
        Ok((Cells { stop, table }, free, watches))
    }

    fn grid(&self) -> &Grid<P>
        ensures table { result.now.table_id ≡ self.now.cells }
        ensures kin { result.now.key ≡ self.now.kin }
        ensures sized { (0 < result.now.table_id.words) × (result.now.table_id.slots ≡ 2 * result.now.table_id.words) }
    {
        &self.table.shared
    }

    fn stop_word(&self) -> &StopWord<P::Kin>
        ensures table { result.now.table_id ≡ self.now.stop }
        ensures kin { result.now.key ≡ self.now.kin }
        ensures word { result.now.table_id.words ≡ 1 }
    {
        &self.stop.shared
    }

    /// Makes a free cell the cell of a task: the two parties stand for its id.
    pub fn pair(&self, cell: FreeCell<P::Kin>, task: &TaskId) -> (Finisher<P::Kin>, Awaiter<P::Kin>)
        requires { cell.home ≡ home_of self.now }
        ensures home { (result.0.home ≡ cell.home) × (result.1.home ≡ cell.home) }
        ensures cell { (result.0.cell ≡ cell.cell) × (result.1.cell ≡ cell.cell) }
        ensures task { (result.0.task ≡ task.now) × (result.1.task ≡ task.now) }
        ensures seat { result.0.seat ≡ cell.seat }
    {
        self.pair_for::<Brand>(cell, task)
    }

    fn pair_for<W: Tasking>(
        &self,
        free: FreeCell<P::Kin>,
        task: &TaskId,
    ) -> (Finisher<P::Kin>, Awaiter<P::Kin>)
        requires own { free.home ≡ home_of self.now }
        requires task { W.task ≡ task.now }
        ensures home { (result.0.home ≡ free.home) × (result.1.home ≡ free.home) }
        ensures cell { (result.0.cell ≡ free.cell) × (result.1.cell ≡ free.cell) }
        ensures task { (result.0.task ≡ task.now) × (result.1.task ≡ task.now) }
        ensures seat { result.0.seat ≡ free.seat }
    {
        let FreeCell { cell, badge } = free;
        let mut seat: Place<P> = badge.into_seat();
        let other = self.grid().split_seat::<Pair<W>>(&mut seat);
        (
            Finisher {
                cell,
                badge: seat.into_badge(),
            },
            Awaiter {
                cell,
                badge: other.into_badge(),
            },
        )
    }

    /// The cell of a pair that was not used.
    pub fn unpair(&self, f: Finisher<P::Kin>, a: Awaiter<P::Kin>) -> FreeCell<P::Kin>
        requires own { (f.home ≡ home_of self.now) × (a.home ≡ home_of self.now) }
        requires one_cell { a.cell ≡ f.cell }
        ensures { result ≡ record { home = f.home; cell = f.cell; seat = f.seat } }
    {
        let Finisher { cell, badge } = f;
        let Awaiter {
            cell: _,
            badge: other,
        } = a;
        let mut seat: Place<P> = badge.into_seat();
        let mate: Place<P> = other.into_seat();
        self.grid().join_seat::<Unpair>(&mut seat, mate);
        FreeCell {
            cell,
            badge: seat.into_badge(),
        }
    }

    /// Brings the result of the role's task to the cell. It is the last where the awaiter's bit
    /// was set when its own was.
    pub fn finish(&self, f: Finisher<P::Kin>, done: P::Done) -> Finished<P>
        requires own { f.home ≡ home_of self.now }
        requires done { (P.done_id done ≡ f.task) × (P.done_kin done ≡ self.now.kin) }
        ensures { MatchFinished result
            (λ parted. parted ≡ record { table = f.home.table; seat = f.seat })
            (λ stack same cell. (P.awaits stack ≡ f.task) × (P.stack_kin stack ≡ self.now.kin) × All (λ h. h ≡ home_of self.now) (P.tokens stack) × (same ≡ done) × (cell ≡ record { home = f.home; cell = f.cell; seat = f.seat })) }
    {
        let Finisher { cell, badge } = f;
        match bring::<P, Finishing>(self.grid(), false, cell, badge, Held::Done(done)) {
            Err(parted) => Finished::First(parted),
            Ok(
                Brought {
                    mine,
                    theirs,
                    badge,
                },
            ) => {
                let Held::Done(done) = mine else {
                    unreachable!()
                };
                let Held::Stack(stack) = theirs else {
                    unreachable!()
                };
                Finished::Last(stack, done, FreeCell { cell, badge })
            }
        }
    }

    /// Brings the stack that awaits the role's task to the cell. It is the last where the
    /// finisher's bit was set when its own was.
    pub fn park(&self, a: Awaiter<P::Kin>, stack: P::Stack) -> Parked<P>
        requires own { a.home ≡ home_of self.now }
        requires stack { (P.awaits stack ≡ a.task) × (P.stack_kin stack ≡ self.now.kin) }
        requires tokens { All (λ h. h ≡ home_of self.now) (P.tokens stack) }
        ensures { MatchParked result
            (λ parted. parted ≡ record { table = a.home.table; seat = a.seat })
            (λ same done cell. (same ≡ stack) × (P.done_id done ≡ a.task) × (P.done_kin done ≡ self.now.kin) × (cell ≡ record { home = a.home; cell = a.cell; seat = a.seat })) }
    {
        let Awaiter { cell, badge } = a;
        match bring::<P, Awaiting>(self.grid(), true, cell, badge, Held::Stack(stack)) {
            Err(parted) => Parked::First(parted),
            Ok(
                Brought {
                    mine,
                    theirs,
                    badge,
                },
            ) => {
                let Held::Stack(stack) = mine else {
                    unreachable!()
                };
                let Held::Done(done) = theirs else {
                    unreachable!()
                };
                Parked::Last(stack, done, FreeCell { cell, badge })
            }
        }
    }

    /// Sets the stop word's bit for this reason.
    pub fn stop(&self, watch: &mut Watch<P::Kin>, why: Why)
        requires { watch.old.home ≡ stop_home_of self.now }
        ensures own { watch.new.home ≡ watch.old.home }
        ensures looks { watch.new.looks ≡ watch.old.looks }
        ensures asked { watch.new.asked ≡ both watch.old.asked (only why) }
        ensures seen { has why watch.new.seen ≡ true }
        ensures kept { Within watch.old.seen watch.new.seen }
    {
        set_stop(self.stop_word(), watch, why);
    }

    /// What the stop word says, by one load.
    pub fn stopped(&self, watch: &mut Watch<P::Kin>) -> Option<Why>
        requires { watch.old.home ≡ stop_home_of self.now }
        ensures own { watch.new.home ≡ watch.old.home }
        ensures looks { watch.new.looks ≡ watch.old.looks + 1 }
        ensures asked { watch.new.asked ≡ watch.old.asked }
        ensures answer { result ≡ answer_of watch.new.seen }
        ensures kept { Within watch.old.seen watch.new.seen }
    {
        look(self.stop_word(), watch)
    }
}
