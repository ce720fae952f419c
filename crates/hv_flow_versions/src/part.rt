ghost use Rattle.std.specs.Prelude.{◌≡◌};
ghost use Rattle.hv_flow_versions.specs.States as spec;

/// A part of the walk that is open. Each tells whether what was before it was reached, or how
/// many sides are passed that were reached to their end.
#[derive(Clone, Copy)]
pub enum Kind {
    /// In the first of two sides: whether what was before it was reached.
    OneSide(bool),
    /// In another side: how many are passed that were reached to their end.
    OtherSide(usize),
    /// In a turn of a loop: whether what was before it was reached.
    Turn(bool),
}

/// A part that is open, with what was so as it began.
#[derive(Clone, Copy)]
pub struct Part {
    pub kind: Kind,
    /// How long the trail was as it began.
    pub from: usize,
    /// How deep the innermost turn around it is; 0 is none.
    pub around: usize,
}

impl Kind {
    /// How many sides are passed that were reached to their end; a turn and the one side have none.
    pub fn sides(self) -> usize
        ensures { result ≡ spec.number self }
    {
        match self {
            Kind::OtherSide(sides) => sides,
            Kind::OneSide(_) | Kind::Turn(_) => 0,
        }
    }
}
