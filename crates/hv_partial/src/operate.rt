// Operators.

ghost use Rattle.std.specs.Prelude.{◌≡◌, option_map};
ghost use Rattle.hv_value.specs.ValueTree.{Number};
ghost use Rattle.hv_value.specs.Operators as spec;
ghost use Rattle.hv_partial.specs.HeldTree.{held_tree};
ghost use Rattle.hv_partial.specs.Results.{given_of, both_numbers, if_fits};

use crate::compare::equal;
use crate::tree::Held;
use hv_tree::Operator;

/// What an operator gives, or how it traps.
#[derive(Drop)]
pub enum Computed {
    Gives(Held),
    Overflow,
    DivZero,
}

/// None where the operands are of another kind.
#[tactic(auto, using(crate::proofs::NumberLemmas::by_kind))]
pub fn binary(operator: Operator, a: &Held, b: &Held) -> Option<Computed>
    ensures { option_map given_of result ≡ spec.binary operator (held_tree a.now) (held_tree b.now) }
{
    match operator {
        Operator::Eq => Some(truth(equal(a, b))),
        Operator::Ne => Some(truth(!equal(a, b))),
        Operator::And | Operator::Or => match (a, b) {
            (Held::Bool(_), Held::Bool(right)) => Some(truth(*right)),
            _ => None,
        },
        Operator::Add
        | Operator::Sub
        | Operator::Mul
        | Operator::Div
        | Operator::Rem
        | Operator::Lt
        | Operator::Le
        | Operator::Gt
        | Operator::Ge => {
            let (x, y) = numbers(a, b)?;
            of_numbers(operator, x, y)
        }
        Operator::Neg | Operator::Not => None,
    }
}

/// None where the operand is of another kind.
pub fn unary(operator: Operator, a: &Held) -> Option<Computed>
    ensures { option_map given_of result ≡ spec.unary operator (held_tree a.now) }
{
    match (operator, a) {
        (Operator::Neg, Held::Int(x)) => Some(number(x.checked_neg())),
        (Operator::Not, Held::Bool(b)) => Some(truth(!*b)),
        _ => None,
    }
}

fn numbers(a: &Held, b: &Held) -> Option<(i64, i64)>
    ensures { result ≡ both_numbers (held_tree a.now) (held_tree b.now) }
{
    match (a, b) {
        (Held::Int(x), Held::Int(y)) => Some((*x, *y)),
        _ => None,
    }
}

#[tactic(auto, using(hv_value::proofs::OperatorLaws::operator_laws))]
fn of_numbers(operator: Operator, x: i64, y: i64) -> Option<Computed>
    ensures { option_map given_of result ≡ spec.binary operator (Number x) (Number y) }
{
    match operator {
        Operator::Add => Some(number(x.checked_add(y))),
        Operator::Sub => Some(number(x.checked_sub(y))),
        Operator::Mul => Some(number(x.checked_mul(y))),
        Operator::Div => Some(quotient(x, y)),
        Operator::Rem => Some(remainder(x, y)),
        Operator::Lt => Some(truth(x < y)),
        Operator::Le => Some(truth(x <= y)),
        Operator::Gt => Some(truth(x > y)),
        Operator::Ge => Some(truth(x >= y)),
        Operator::Eq => Some(truth(x == y)),
        Operator::Ne => Some(truth(x != y)),
        Operator::And | Operator::Or | Operator::Neg | Operator::Not => None,
    }
}

fn quotient(x: i64, y: i64) -> Computed
    ensures { given_of result ≡ spec.divide x y }
{
    if y == 0 {
        return Computed::DivZero;
    }
    number(x.checked_div(y))
}

fn remainder(x: i64, y: i64) -> Computed
    ensures { given_of result ≡ spec.remainder x y }
{
    match y {
        0 => Computed::DivZero,
        -1 => Computed::Gives(Held::Int(0)),
        _ => Computed::Gives(Held::Int(x % y)),
    }
}

fn number(z: Option<i64>) -> Computed
    ensures { given_of result ≡ if_fits z }
{
    match z {
        Some(z) => Computed::Gives(Held::Int(z)),
        None => Computed::Overflow,
    }
}

fn truth(b: bool) -> Computed
    ensures { given_of result ≡ spec.truth b }
{
    Computed::Gives(Held::Bool(b))
}
