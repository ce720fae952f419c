//! How tightly binary operators bind.

ghost use Rattle.std.specs.Prelude.{◌≡◌};
ghost use Rattle.hv_syn_grammar.specs.Levels.{level_of, infixes, entry};

use hv_tree::Operator;

/// A level of binary operators, from loose to tight.
#[derive(Clone, Copy, Debug, PartialEq, Eq)]
pub enum Strength {
    /// `||`.
    Or,
    /// `&&`.
    And,
    /// `==`, `!=`, `<`, `<=`, `>`, `>=`.
    Comparison,
    /// `+`, `-`.
    Sum,
    /// `*`, `/`, `%`.
    Product,
}

/// The binary operator with this spelling, if it is of the level; `-` is `Sub` here and never `Neg`.
pub fn infix(strength: Strength, text: &str) -> Option<Operator>
    ensures { result ≡ entry (infixes (level_of strength)) text.now }
{
    match strength {
        Strength::Or => {
            if text == "||" {
                Some(Operator::Or)
            } else {
                None
            }
        }
        Strength::And => {
            if text == "&&" {
                Some(Operator::And)
            } else {
                None
            }
        }
        Strength::Comparison => comparison(text),
        Strength::Sum => {
            if text == "+" {
                Some(Operator::Add)
            } else if text == "-" {
                Some(Operator::Sub)
            } else {
                None
            }
        }
        Strength::Product => {
            if text == "*" {
                Some(Operator::Mul)
            } else if text == "/" {
                Some(Operator::Div)
            } else if text == "%" {
                Some(Operator::Rem)
            } else {
                None
            }
        }
    }
}

ghost use Rattle.hv_tree.specs.Tokens.{Comparisons};

fn comparison(text: &str) -> Option<Operator>
    ensures { result ≡ entry (infixes Comparisons) text.now }
{
    if text == "==" {
        Some(Operator::Eq)
    } else if text == "!=" {
        Some(Operator::Ne)
    } else if text == "<" {
        Some(Operator::Lt)
    } else if text == "<=" {
        Some(Operator::Le)
    } else if text == ">" {
        Some(Operator::Gt)
    } else if text == ">=" {
        Some(Operator::Ge)
    } else {
        None
    }
}
