ghost use Rattle.std.specs.Prelude.{◌≡◌, ◌↔◌, IsTrue};
ghost use Rattle.hv_decls.specs.Paths.{compatible, has_index, steps_meet, Overlap};

use hv_items::Items;

/// A place as far as it is known before the program runs.
#[derive(Drop)]
pub struct StaticPath {
    /// The number of a local.
    pub root: u32,
    pub steps: Items<StaticStep>,
}

/// A step as far as it is known before the program runs: two literal indices can be told apart, others can't.
#[derive(Clone, Copy, Debug, PartialEq, Eq)]
pub enum StaticStep {
    /// The field with this number.
    Field(u32),
    /// An index that is a number literal.
    Literal(i64),
    /// Any other index.
    Any,
}

/// Whether one of the steps is an index.
pub fn has_index(steps: &[StaticStep]) -> bool
    ensures { result ≡ has_index steps.now }
{
    for step in steps {
        match step {
            StaticStep::Field(_) => {}
            StaticStep::Literal(_) | StaticStep::Any => return true,
        }
    }
    false
}

fn compatible(a: StaticStep, b: StaticStep) -> bool
    ensures { result ≡ compatible a b }
{
    match (a, b) {
        (StaticStep::Field(x), StaticStep::Field(y)) => x == y,
        (StaticStep::Field(_), _) | (_, StaticStep::Field(_)) => false,
        (StaticStep::Literal(x), StaticStep::Literal(y)) => x == y,
        (StaticStep::Any, _) | (_, StaticStep::Any) => true,
    }
}

fn steps_meet(a: &[StaticStep], b: &[StaticStep]) -> bool
    ensures { result ≡ steps_meet a.now b.now }
{
    let mut left = a;
    let mut right = b;
    while let [x, xs @ ..] = left {
        let [y, ys @ ..] = right else {
            return true;
        };
        if !compatible(*x, *y) {
            return false;
        }
        left = xs;
        right = ys;
    }
    true
}

/// Whether two places may share a part.
#[tactic(auto, using(crate::proofs::Overlaps::meets, crate::proofs::Overlaps::meet_of))]
pub fn overlap(a: &StaticPath, b: &StaticPath) -> bool
    ensures meets { IsTrue result ↔ Overlap a.now b.now }
{
    a.root == b.root && steps_meet(a.steps.as_slice(), b.steps.as_slice())
}
