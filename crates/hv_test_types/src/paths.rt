use hv_decls::{StaticPath, StaticStep, overlap};
use hv_items::Items;
use hv_tree::{Place, Refusal, Rule, earlier};
use std::test::Fail;

#[test]
fn paths_overlap_unless_a_field_or_a_literal_differs(rt: HostRuntime) -> Result<(), Fail> {
    let field = StaticStep::Field;
    let literal = StaticStep::Literal;
    let rows = [
        (0, [field(0), literal(1)], [field(0), literal(1)], true),
        (0, [field(0), literal(1)], [field(0), StaticStep::Any], true),
        (0, [field(0), literal(1)], [field(0), literal(2)], false),
        (0, [field(0), literal(1)], [field(1), literal(1)], false),
        (1, [field(0), literal(1)], [field(0), literal(1)], false),
    ];
    for (root, left, right, want) in rows {
        let mut a = Items::new(rt.alloc());
        let mut b = Items::new(rt.alloc());
        for k in 0..2 {
            a.push(left[k])?;
            b.push(right[k])?;
        }
        let a = StaticPath { root: 0, steps: a };
        let b = StaticPath { root, steps: b };
        assert_eq!(rt;
            overlap(&a, &b),
            want,
            "{left:?} of 0 and {right:?} of {root}"
        );
    }
    Ok(())
}

#[test]
fn the_lesser_place_comes_first_and_then_the_lesser_rule(rt: HostRuntime) {
    let at = |rule, start| {
        Some(Refusal {
            rule,
            place: Place { start },
        })
    };
    let rows = [
        (None, None, None),
        (None, at(Rule::T1, 5), at(Rule::T1, 5)),
        (at(Rule::T1, 5), None, at(Rule::T1, 5)),
        (at(Rule::T1, 5), at(Rule::T9, 4), at(Rule::T9, 4)),
        (at(Rule::T6, 4), at(Rule::T5, 4), at(Rule::T5, 4)),
    ];
    for (a, b, want) in rows {
        assert_eq!(rt; earlier(a, b), want, "of {a:?} and {b:?}");
    }
}
