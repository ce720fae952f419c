// What a seat at the stop table knows, and the rule of that table.

use crate::why::Reasons;
use atomic_table::{Badge, TableRule};

/// No value of it is made.
pub enum StopRole {
    /// The maker before its first load: it doesn't know its table yet.
    Fresh,
    Maker,
    Watching,
    Spent,
}

/// No value of it is made.
pub struct StopView<K> {
    pub role: StopRole,
    /// The reasons that the watch found in the word, or set.
    pub seen: Reasons,
    /// The reasons that the watch set itself.
    pub asked: Reasons,
    /// The loads that the watch has made.
    pub looks: u64,
    pub kin: Option<K>,
    /// Names the table.
    pub of: Badge<()>,
}

/// The rule of the stop table: one word of reasons, and seats that hold no slot. No value of it is made.
pub struct StopRule;

impl<K> TableRule<(), StopView<K>, K> for StopRule {
    ghost use Rattle.hv_cell.specs.StopRule.{Stops, fresh};

    ghost holds = { Stops };

    ghost first = { fresh };
}
