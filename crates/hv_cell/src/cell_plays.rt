// What each step on the cell table tells. These types are for the proofs alone.
ghost use Rattle.std.specs.Prelude.{Bool, List, ℕ, [], true, false};
ghost use Rattle.hv_cell.specs.CellRule.{spent, IsPut};
ghost use Rattle.hv_cell.specs.CellPlays.{named, took, came, reset, maker_left, maker_right, party_of, freed};
ghost use Rattle.hv_cell.specs.declared.cell_view.Held.TheVariants.{Nothing};

use crate::cell_view::{Held, View};
use crate::joined::Joined;
use crate::stop_plays::Naming;
use atomic_table::{Join, Play, Split};
use std::marker::{Brand, PhantomData};

/// Names the task. A call picks it.
pub(crate) trait Tasking {
    ghost task: { List ℕ };
}

impl Tasking for Brand {
    ghost task = { [] };
}

/// The maker's first load.
pub(crate) struct CellName<W> {
    naming: PhantomData<W>,
}

impl<S, K, W: Naming> Play<S, View<K>> for CellName<W> {
    ghost then = { λ s m r n. named W.table m n };
}

pub(crate) struct MakeCell;

impl<K> Split<View<K>> for MakeCell {
    ghost left = { maker_left };

    ghost right = { maker_right };
}

pub(crate) struct Pair<W> {
    tasking: PhantomData<W>,
}

impl<K, W: Tasking> Split<View<K>> for Pair<W> {
    ghost left = { party_of false W.task };

    ghost right = { party_of true W.task };
}

pub(crate) struct Unpair;

impl<K> Join<View<K>> for Unpair {
    ghost both = { λ v w. freed v };

    ghost spent = { spent };
}

/// Which party it is: a finisher (false) or an awaiter (true).
pub(crate) trait Sided {
    ghost side: { Bool };
}

pub(crate) struct Finishing;

impl Sided for Finishing {
    ghost side = { false };
}

pub(crate) struct Awaiting;

impl Sided for Awaiting {
    ghost side = { true };
}

/// A party takes its slot in hand.
pub(crate) struct Hold<W> {
    sided: PhantomData<W>,
}

impl<D, T, K, W: Sided> Play<Held<D, T>, View<K>> for Hold<W> {
    ghost then = { λ s m r n. took W.side Nothing m n };
}

/// A party sets its bit.
pub(crate) struct Come<P, W> {
    joined: PhantomData<(P, W)>,
}

impl<P: Joined, W: Sided> Play<Held<P::Done, P::Stack>, View<P::Kin>> for Come<P, W> {
    ghost then = { λ s m r n. came (IsPut P.done_id P.done_kin P.awaits P.stack_kin P.tokens) W.side m r n };
}

pub(crate) struct Reset;

impl<S, K> Play<S, View<K>> for Reset {
    ghost then = { λ s m r n. reset m n };
}
