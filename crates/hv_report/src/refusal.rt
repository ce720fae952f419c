ghost use Rattle.std.specs.Prelude.{◌≡◌, ◌<◌, length, IfOk};
ghost use Rattle.hv_report.specs.Lines as spec;

use hv_tree::{Refusal, Rule, line_col};
use std::alloc::{AllocError, Global};

fn rule_name(rule: Rule) -> &'static str
    ensures { result.now ≡ spec.rule_name rule }
{
    match rule {
        Rule::L0 => "L0",
        Rule::L1 => "L1",
        Rule::L2 => "L2",
        Rule::L3 => "L3",
        Rule::P1 => "P1",
        Rule::P2 => "P2",
        Rule::N1 => "N1",
        Rule::N2 => "N2",
        Rule::N3 => "N3",
        Rule::T1 => "T1",
        Rule::T2 => "T2",
        Rule::T3 => "T3",
        Rule::T4 => "T4",
        Rule::T5 => "T5",
        Rule::T6 => "T6",
        Rule::T7 => "T7",
        Rule::T8 => "T8",
        Rule::T9 => "T9",
        Rule::I1 => "I1",
        Rule::I2 => "I2",
        Rule::I3 => "I3",
        Rule::X1 => "X1",
        Rule::X2 => "X2",
        Rule::S1 => "S1",
        Rule::S2 => "S2",
        Rule::S3 => "S3",
    }
}

/// The line of a refusal.
pub fn refusal_text(alloc: Global, source: &[u8], refusal: Refusal) -> Result<Vec<u8>, AllocError>
    requires { length source.now < 4294967295 }
    ensures { IfOk result (λ text. text.items ≡ spec.refusal_text source.now refusal) }
{
    let rule = rule_name(refusal.rule);
    let (line, column) = line_col(source, refusal.place);
    let text = format!(in alloc; "refused {rule} at {line}:{column}\n")?;
    Vec::from_slice(alloc, text.as_bytes())
}
