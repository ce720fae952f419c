// Operators, and how tightly they and expressions bind.
ghost use Rattle.std.specs.Prelude.{◌≡◌, map, nat_le};
ghost use Rattle.hv_tree.specs.Core.{core_of, core_links};
ghost use Rattle.hv_tree.specs.Printed as printed;

use hv_tree::{Expr, ExprKind, Operator, Place};

// Of an operator before its operand.
pub(crate) const PREFIXED: u32 = 5;

// Of what isn't made by an operator.
const TIGHTEST: u32 = 6;

pub(crate) fn operator_text(operator: Operator) -> &'static str
    ensures { result.now ≡ printed.operator_text operator }
{
    match operator {
        Operator::Add => "+",
        Operator::Sub | Operator::Neg => "-",
        Operator::Mul => "*",
        Operator::Div => "/",
        Operator::Rem => "%",
        Operator::Eq => "==",
        Operator::Ne => "!=",
        Operator::Lt => "<",
        Operator::Le => "<=",
        Operator::Gt => ">",
        Operator::Ge => ">=",
        Operator::And => "&&",
        Operator::Or => "||",
        Operator::Not => "!",
    }
}

fn tightness(operator: Operator) -> u32
    ensures { result ≡ printed.tightness operator }
{
    match operator {
        Operator::Or => 0,
        Operator::And => 1,
        Operator::Eq | Operator::Ne | Operator::Lt | Operator::Le | Operator::Gt | Operator::Ge =>
            2,
        Operator::Add | Operator::Sub => 3,
        Operator::Mul | Operator::Div | Operator::Rem => 4,
        Operator::Neg | Operator::Not => PREFIXED,
    }
}

// Of a chain, by its first operator.
pub(crate) fn links_tightness(links: &[(Operator, Place, Expr)]) -> u32
    ensures { result ≡ printed.links_tightness (core_links links.now) }
{
    match links {
        [] => TIGHTEST,
        [(operator, _, _), ..] => tightness(*operator),
    }
}

#[tactic(auto, using(crate::proofs::Parts::tightness_opened, crate::proofs::Parts::tightness_chain), unfolding(crate::proofs::Parts::tightness_by))]
pub(crate) fn expr_tightness(x: &Expr) -> u32
    ensures { result ≡ printed.expr_tightness (core_of x.now) }
{
    match &x.kind {
        ExprKind::Prefix(_, _) => PREFIXED,
        ExprKind::Chain(_, links) => links_tightness(links.as_slice()),
        _ => TIGHTEST,
    }
}

// Whether an operand of an operator that binds as tightly as `outer` says is in brackets.
pub(crate) fn is_grouped(outer: u32, x: &Expr) -> bool
    ensures { result ≡ nat_le (printed.expr_tightness (core_of x.now)) outer }
{
    expr_tightness(x) <= outer
}
