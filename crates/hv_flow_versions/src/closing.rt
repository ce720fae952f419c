use crate::version::Site;

/// How a part ends for a cell that was changed in it.
#[derive(Clone, Copy)]
pub enum Closing {
    /// The cell is as before the part.
    Uncover,
    /// The other side begins, in a turn that is so deep.
    ChangeSides(usize),
    /// The side was one more of those that are passed outside, so many.
    Pass(Site, usize),
    /// So many sides are passed, and whether the last of them goes on too.
    Join(Site, usize, bool),
    /// A loop goes on.
    Leave(Site),
}
