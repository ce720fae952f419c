// What each step on the stop table tells. These types are for the proofs alone.
ghost use Rattle.atomic_table.specs.Seated.{TableId};
ghost use Rattle.hv_cell.specs.Tokens.{no_table};
ghost use Rattle.hv_cell.specs.StopRule.{named, newcomer, looked, stopped};

use crate::stop_view::StopView;
use atomic_table::{Play, Split};
use std::marker::{Brand, PhantomData};

/// Names the table. A call picks it.
pub(crate) trait Naming {
    ghost table: { TableId };
}

impl Naming for Brand {
    ghost table = { no_table };
}

/// The maker's first load.
pub(crate) struct StopName<W> {
    naming: PhantomData<W>,
}

impl<K, W: Naming> Play<(), StopView<K>> for StopName<W> {
    ghost then = { λ s m r n. named W.table m n };
}

pub(crate) struct MakeWatch;

impl<K> Split<StopView<K>> for MakeWatch {
    ghost left = { λ v. v };

    ghost right = { newcomer };
}

pub(crate) struct Look;

impl<K> Play<(), StopView<K>> for Look {
    ghost then = { λ s m r n. looked m r n };
}

pub(crate) struct SetStop;

impl<K> Play<(), StopView<K>> for SetStop {
    ghost then = { λ s m r n. stopped s.first m r n };
}
