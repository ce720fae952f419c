ghost use Rattle.std.specs.Prelude.{◌≡◌};
ghost use Rattle.hv_flow_versions.specs.Cells as spec;

/// What a cell may be, seen from where the innermost turn of a loop began. A cell that may be
/// nothing isn't reached.
#[derive(Clone, Copy)]
pub struct Cell {
    /// It may be as it was there.
    pub kept: bool,
    /// It may have got a no since.
    pub no: bool,
    /// It may have got a yes since.
    pub yes: bool,
}

impl Cell {
    /// Whether it may be anything at all.
    pub fn is_reached(self) -> bool
        ensures { result ≡ spec.is_reached self }
    {
        self.kept || self.no || self.yes
    }

    /// It gets a value, if it is reached.
    pub fn set(self, value: bool) -> Cell
        ensures { result ≡ spec.set_cell value self }
    {
        Cell {
            kept: false,
            no: self.is_reached() && !value,
            yes: self.is_reached() && value,
        }
    }

    /// Where two ways meet: what it may be on one of them.
    pub fn either(self, other: Cell) -> Cell
        ensures { result ≡ spec.either_cell self other }
    {
        Cell {
            kept: self.kept || other.kept,
            no: self.no || other.no,
            yes: self.yes || other.yes,
        }
    }

    /// Behind a loop, one turn of which leaves the cell so.
    pub fn turned(self, turn: Cell) -> Cell
        ensures { result ≡ spec.turned_cell self turn }
    {
        let reached = self.is_reached();
        Cell {
            kept: self.kept,
            no: self.no || reached && turn.no,
            yes: self.yes || reached && turn.yes,
        }
    }

    /// Whether it may have this value, seen from the turn; what it was before isn't counted.
    pub fn may(self, value: bool) -> bool
        ensures { result ≡ spec.cell_may self value }
    {
        if value { self.yes } else { self.no }
    }
}
