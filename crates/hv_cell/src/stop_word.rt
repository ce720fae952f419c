// The stop word: one table of one word, and a watch for each worker.
ghost use Rattle.std.specs.Prelude.{◌≡◌, ◌+◌, ◌<◌, [], true, length, Some, IfOk, All};
ghost use Rattle.hv_cell.specs.Tokens.{Home, Watching};
ghost use Rattle.hv_cell.specs.Reasons.{no_reason, only, both, has, Within, answer_of};
ghost use Rattle.hv_cell.specs.StopRule.{making, watching, fresh};

use crate::stop_plays::{Look, MakeWatch, Naming, SetStop, StopName};
use crate::stop_view::{StopRule, StopView};
use crate::watches::Watch;
use crate::why::Why;
use atomic_table::{Seat, Shared, Table};
use std::alloc::{AllocError as NoMemory, Global};
use std::marker::Brand;

pub(crate) type StopTable<K> = Table<(), StopView<K>, K, StopRule, Global>;

pub(crate) type StopWord<K> = Shared<(), StopView<K>, K, StopRule>;

// The table, with no bit set, and so many watches.
pub(crate) fn make_stop<K>(
    alloc: Global,
    workers: u32,
    kin: &K,
) -> Result<(StopTable<K>, Vec<Watch<K>>), NoMemory>
    ensures count { IfOk result (λ r. length r.1.items ≡ workers) }
    ensures own { IfOk result (λ r. All (λ w. w ≡ record { home = record { table = r.0.shared.table_id; kin = Some kin.now }; seen = no_reason; asked = no_reason; looks = 0 }) r.1.items) }
    ensures kin { IfOk result (λ r. (r.0.shared.key ≡ kin.now) × (r.0.shared.table_id.words ≡ 1)) }
{
    let (table, seat) = Table::of_words(alloc, &[0], kin)?;
    let maker = name_stop::<K, Brand>(&table.shared, seat);
    let watches = make_watches(alloc, &table.shared, maker, workers)?;
    Ok((table, watches))
}

fn name_stop<K, W: Naming>(
    word: &StopWord<K>,
    mut seat: Seat<(), StopView<K>>,
) -> Seat<(), StopView<K>>
    requires word { word.now.table_id.words ≡ 1 }
    requires table { (seat.table_id ≡ word.now.table_id) × (W.table ≡ seat.table_id) }
    requires fresh { seat.me ≡ (fresh word.now.key, []) }
    ensures table { result.table_id ≡ seat.table_id }
    ensures maker { result.me ≡ (making word.now.key seat.table_id, []) }
{
    word.load::<StopName<W>>(&mut seat, 0);
    seat
}

fn make_watches<K>(
    alloc: Global,
    word: &StopWord<K>,
    mut maker: Seat<(), StopView<K>>,
    workers: u32,
) -> Result<Vec<Watch<K>>, NoMemory>
    requires word { word.now.table_id.words ≡ 1 }
    requires table { maker.table_id ≡ word.now.table_id }
    requires maker { maker.me ≡ (making word.now.key maker.table_id, []) }
    ensures count { IfOk result (λ v. length v.items ≡ workers) }
    ensures own { IfOk result (λ v. All (λ w. w ≡ record { home = record { table = word.now.table_id; kin = Some word.now.key }; seen = no_reason; asked = no_reason; looks = 0 }) v.items) }
{
    let mut watches = Vec::new(alloc);
    for _ in 0..workers {
        let seat = word.split_seat::<MakeWatch>(&mut maker);
        watches.push(Watch { seat })?;
    }
    Ok(watches)
}

// Sets the bit of this reason.
pub(crate) fn set_stop<K>(word: &StopWord<K>, watch: &mut Watch<K>, why: Why)
    requires word { word.now.table_id.words ≡ 1 }
    requires own { watch.old.home ≡ record { table = word.now.table_id; kin = Some word.now.key } }
    ensures own { watch.new.home ≡ watch.old.home }
    ensures looks { watch.new.looks ≡ watch.old.looks }
    ensures asked { watch.new.asked ≡ both watch.old.asked (only why) }
    ensures seen { has why watch.new.seen ≡ true }
    ensures kept { Within watch.old.seen watch.new.seen }
{
    word.fetch_or::<SetStop>(&mut watch.seat, 0, why.bit());
}

// What the word says.
pub(crate) fn look<K>(word: &StopWord<K>, watch: &mut Watch<K>) -> Option<Why>
    requires word { word.now.table_id.words ≡ 1 }
    requires own { watch.old.home ≡ record { table = word.now.table_id; kin = Some word.now.key } }
    ensures own { watch.new.home ≡ watch.old.home }
    ensures looks { watch.new.looks ≡ watch.old.looks + 1 }
    ensures asked { watch.new.asked ≡ watch.old.asked }
    ensures answer { result ≡ answer_of watch.new.seen }
    ensures kept { Within watch.old.seen watch.new.seen }
{
    let found = word.load::<Look>(&mut watch.seat, 0);
    if found % 2 == 1 {
        Some(Why::Finished)
    } else if found > 1 {
        Some(Why::NoMemory)
    } else {
        None
    }
}
