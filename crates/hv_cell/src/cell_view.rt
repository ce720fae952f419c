// What a seat at the cell table knows, what a slot holds, and the rule of that table.

use crate::joined::Joined;
use atomic_table::{Badge, TableRule};
use hv_tree::TaskId;
use std::marker::PhantomData;

/// No value of it is made.
pub enum Role {
    /// The maker before its first load: it doesn't know its table yet.
    Fresh,
    Maker,
    Free,
    /// A finisher (false) or an awaiter (true), and whether it has its slot in hand.
    Party(bool, bool),
    Claim,
    Spent,
}

/// No value of it is made.
pub struct View<K> {
    pub role: Role,
    /// The cell; a maker's is the number of cells that have got their seat.
    pub cell: u64,
    pub id: TaskId,
    pub kin: Option<K>,
    /// Names the table.
    pub of: Badge<()>,
}

/// What lies in a slot.
#[derive(Drop)]
pub enum Held<D, S> {
    Nothing,
    Done(D),
    Stack(S),
}

/// The rule of the cell table, where `P` says what the parties bring. No value of it is made.
pub struct CellRule<P> {
    joined: PhantomData<P>,
}

impl<P: Joined> TableRule<Held<P::Done, P::Stack>, View<P::Kin>, P::Kin> for CellRule<P> {
    ghost use Rattle.hv_cell.specs.CellRule.{Kept, fresh, IsPut};
    ghost use Rattle.hv_cell.specs.declared.cell_view.Held.TheVariants.{Nothing};

    ghost holds = { Kept Nothing (IsPut P.done_id P.done_kin P.awaits P.stack_kin P.tokens) };

    ghost first = { fresh };
}
