// What a cell may be since it was changed in a part.
ghost use Rattle.std.specs.Prelude.{◌≡◌};
ghost use Rattle.hv_flow_versions.specs.Histories as spec;

use crate::cell::Cell;

/// What a cell may be since it was changed in a part.
#[derive(Clone, Copy)]
pub struct Version {
    /// How deep the part is; the body is 0 deep.
    pub depth: usize,
    pub now: Cell,
    /// Behind the first sides that were passed.
    pub sides: Cell,
    /// How many those are.
    pub seen: usize,
}

/// Where a change is made.
#[derive(Clone, Copy)]
pub struct Site {
    /// How deep the part is.
    pub depth: usize,
    /// How many of its sides are passed and were reached to their end.
    pub sides: usize,
    /// How deep the innermost turn is; 0 is none.
    pub turn: usize,
}

impl Version {
    /// That of the body itself, for a cell that was never changed: a no.
    pub fn first() -> Version
        ensures { result ≡ spec.first_version }
    {
        let a_no = Cell {
            kept: false,
            no: true,
            yes: false,
        };
        Version {
            depth: 0,
            now: a_no,
            sides: a_no,
            seen: 0,
        }
    }

    /// What the cell may be, seen from a turn.
    pub fn visible(self, turn: usize) -> Cell
        ensures { result ≡ spec.visible turn self }
    {
        if self.depth < turn {
            Cell {
                kept: true,
                no: false,
                yes: false,
            }
        } else {
            self.now
        }
    }

    /// What the cell may be behind so many sides. At the end of each that it has not seen it was
    /// as it is now.
    pub fn behind(self, sides: usize) -> Cell
        ensures { result ≡ spec.behind sides self }
    {
        if self.seen == 0 {
            self.now
        } else if self.seen < sides {
            self.sides.either(self.now)
        } else {
            self.sides
        }
    }

    /// What the cell may be behind the sides that are passed here.
    pub fn sides_at(self, site: Site) -> Cell
        ensures { result ≡ spec.sides_at site self }
    {
        if self.depth == site.depth {
            self.behind(site.sides)
        } else {
            self.visible(site.turn)
        }
    }
}
