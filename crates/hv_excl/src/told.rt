// Which binding an event belongs to, told by the words around it.
ghost use Rattle.std.specs.Prelude.{◌≡◌};
ghost use Rattle.hv_excl.specs.Told as spec;
ghost use Rattle.hv_excl.specs.Judged.{told_op};

use hv_flow_plan::FlowOp;
use hv_rules::FlowEvent;

/// The local that a word declares.
pub fn declares(word: &FlowOp) -> Option<u32>
    ensures { result ≡ spec.declares word.now }
{
    match word {
        FlowOp::Do(FlowEvent::Declare(local), _) => Some(*local),
        _ => None,
    }
}

fn declared_first(words: &[FlowOp]) -> Option<u32>
    ensures { result ≡ spec.declared_first words.now }
{
    let [first, ..] = words else {
        return None;
    };
    declares(first)
}

fn declared_next(words: &[FlowOp]) -> Option<u32>
    ensures { result ≡ spec.declared_next words.now }
{
    let [first, rest @ ..] = words else {
        return None;
    };
    match first {
        FlowOp::Then => declared_first(rest),
        _ => None,
    }
}

fn told_by(before: Option<u32>, behind: &[FlowOp], event: &FlowEvent) -> Option<u32>
    ensures { result ≡ spec.told_by before (spec.declared_next behind.now) event.now }
{
    match event {
        FlowEvent::Init(_) => before,
        FlowEvent::OpenRead(_) | FlowEvent::OpenWrite(_) | FlowEvent::OpenSet(_) => {
            declared_next(behind)
        }
        _ => None,
    }
}

/// The binding of a word's event, behind a word that declares `before`.
pub fn told_binding(before: Option<u32>, word: &FlowOp, behind: &[FlowOp]) -> Option<u32>
    ensures { result ≡ told_op before word.now behind.now }
{
    match word {
        FlowOp::Do(event, _) | FlowOp::Stop(event, _) => told_by(before, behind, event),
        FlowOp::Skip | FlowOp::Then | FlowOp::Either | FlowOp::Loop => None,
    }
}
