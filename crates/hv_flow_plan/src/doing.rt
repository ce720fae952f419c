// What is done with a place, and how arguments are passed.
ghost use Rattle.std.specs.Prelude.{◌≡◌};
ghost use Rattle.hv_rules.specs.Events as events;
ghost use Rattle.hv_flow_plan.specs.Plans.{done_by, doing_by, way_by};

use hv_decls::StaticPath;
use hv_rules::FlowEvent;
use hv_tree::{Conv, Operator};

/// What is done with a place.
#[derive(Clone, Copy)]
pub enum Doing {
    /// It is read and copied.
    Use,
    /// It is moved out.
    Move,
    /// It gets a value.
    Init,
    /// An access that reads it begins.
    Read,
    /// An access that changes it begins.
    Write,
    /// An access that fills it begins.
    Set,
}

/// How arguments are passed.
#[derive(Clone, Copy)]
pub enum Way {
    /// Their accesses close behind the last argument.
    Calling,
    /// Each access closes at once.
    Spawning,
}

/// The event of it at this place.
pub fn done(doing: Doing, path: StaticPath) -> FlowEvent
    ensures { result ≡ done_by doing path }
{
    match doing {
        Doing::Use => FlowEvent::Use(path),
        Doing::Move => FlowEvent::Move(path),
        Doing::Init => FlowEvent::Init(path),
        Doing::Read => FlowEvent::OpenRead(path),
        Doing::Write => FlowEvent::OpenWrite(path),
        Doing::Set => FlowEvent::OpenSet(path),
    }
}

/// What is done with an argument without `&`.
pub fn given(way: Way, conv: Option<Conv>) -> Doing
    ensures { doing_by result ≡ events.given (way_by way) conv }
{
    match (way, conv) {
        (Way::Calling, Some(Conv::Let)) => Doing::Read,
        (Way::Spawning, Some(Conv::Let)) => Doing::Use,
        (Way::Calling | Way::Spawning, Some(Conv::Sink)) => Doing::Move,
        (Way::Calling | Way::Spawning, Some(Conv::Inout | Conv::Set) | None) => Doing::Use,
    }
}

/// Whether that opens an access.
pub fn opens(way: Way, conv: Option<Conv>) -> bool
    ensures { result ≡ events.opens (way_by way) conv }
{
    match (way, conv) {
        (Way::Calling, Some(Conv::Let)) => true,
        (Way::Calling | Way::Spawning, _) => false,
    }
}

/// What is done with an argument with `&`.
pub fn lent(conv: Option<Conv>) -> Doing
    ensures { doing_by result ≡ events.lent conv }
{
    match conv {
        Some(Conv::Set) => Doing::Set,
        Some(Conv::Let | Conv::Inout | Conv::Sink) | None => Doing::Write,
    }
}

/// Whether the operator may stop before its right operand.
pub fn is_short(operator: Operator) -> bool
    ensures { result ≡ events.is_short operator }
{
    match operator {
        Operator::And | Operator::Or => true,
        _ => false,
    }
}
