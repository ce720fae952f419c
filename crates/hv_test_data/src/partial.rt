ghost use Rattle.std.specs.Prelude.{◌≡◌, [], ◌∷◌, IfOk};

use hv_items::Items;
use hv_partial::{
    Computed, Held, Length, Link, Way, binary, copy, emptied, equal, filled, get, is_whole,
    length_of, length_to_fill, of_value, put, size, take_out, text, to_value, unary, walk,
};
use hv_tree::{Operator, Place};
use hv_value::PathStep;
use std::alloc::{AllocError as NoMemory, Global};
use std::test::Fail;

fn pair(alloc: Global, left: Held, right: Held) -> Result<Items<Held>, NoMemory>
    ensures { IfOk result (λ parts. parts ≡ left ∷ right ∷ []) }
{
    let mut parts = Items::new(alloc);
    parts.push(left)?;
    parts.push(right)?;
    Ok(parts)
}

// The struct `(-1, [true, 20])`.
fn sample(alloc: Global) -> Result<Held, NoMemory> {
    let array = Held::Array(pair(alloc, Held::Bool(true), Held::Int(20))?);
    Ok(Held::Struct(pair(alloc, Held::Int(-1), array)?))
}

#[test]
fn trees_are_read_copied_and_written_down(rt: HostRuntime) -> Result<(), Fail> {
    let alloc = rt.alloc();
    let held = sample(alloc)?;
    let bytes = text(alloc, &held)?;
    assert_eq!(rt; bytes.as_slice(), "(-1, [true, 20])".as_bytes());
    for (limit, want) in [(0, None), (4, None), (5, Some(5)), (u64::MAX, Some(5))] {
        assert_eq!(rt; size(&held, limit), want, "limit {limit}");
    }
    assert!(rt; equal(&copy(alloc, &held)?, &held));
    if let Some(value) = to_value(alloc, &held)? {
        assert!(rt; equal(&of_value(alloc, &value)?, &held));
    }
    let array = filled(alloc, 3, &Held::Int(7))?;
    assert_eq!(rt; length_of(&array), Some(3));
    for (z, want) in [
        (-1, Length::Bad),
        (0, Length::Right(0)),
        (1_048_576, Length::Right(1_048_576)),
        (1_048_577, Length::TooLong),
        (i64::MAX, Length::TooLong),
    ] {
        assert_eq!(rt; length_to_fill(z), want, "{z}");
    }
    Ok(())
}

#[test]
fn parts_are_reached_changed_and_taken_out(rt: HostRuntime) -> Result<(), Fail> {
    let alloc = rt.alloc();
    let mut held = sample(alloc)?;
    let at = Place { start: 9 };
    let path = [PathStep::Field(1), PathStep::At(1)];
    match walk(alloc, &held, &[Link::Field(1), Link::Index(1, at)])? {
        Way::Reaches(steps) => assert_eq!(rt; steps.as_slice(), &path[..]),
        _ => assert!(rt; false),
    }
    match walk(alloc, &held, &[Link::Field(1), Link::Index(2, at)])? {
        Way::Outside(place) => assert_eq!(rt; place, at),
        _ => assert!(rt; false),
    }
    put(&mut held, &path, Held::Int(8));
    if let Some(there) = get(&held, &path) {
        assert!(rt; equal(there, &Held::Int(8)));
    }
    let taken = take_out(alloc, &mut held, &[PathStep::Field(0)])?;
    assert!(rt; taken.is_some());
    assert!(rt; !is_whole(&held));
    let bytes = text(alloc, &held)?;
    assert_eq!(rt; bytes.as_slice(), "(, [true, 8])".as_bytes());
    let rest = emptied(alloc, &held)?;
    let bytes = text(alloc, &rest)?;
    assert_eq!(rt; bytes.as_slice(), "(, )".as_bytes());
    Ok(())
}

fn number(computed: Option<Computed>) -> Option<i64> {
    match computed {
        Some(Computed::Gives(Held::Int(z))) => Some(z),
        _ => None,
    }
}

#[test]
fn operators_compute_within_64_bits(rt: HostRuntime) -> Result<(), Fail> {
    for (operator, x, y, want) in [
        (Operator::Add, 2, 3, Some(5)),
        (Operator::Add, i64::MAX, 1, None),
        (Operator::Sub, 2, 3, Some(-1)),
        (Operator::Mul, -4, 3, Some(-12)),
        (Operator::Div, -7, 2, Some(-3)),
        (Operator::Div, i64::MIN, -1, None),
        (Operator::Rem, -7, 2, Some(-1)),
        (Operator::Rem, i64::MIN, -1, Some(0)),
        (Operator::Rem, 5, 0, None),
    ] {
        let result = number(binary(operator, &Held::Int(x), &Held::Int(y)));
        assert_eq!(rt; result, want, "{x} {y}");
    }
    assert_eq!(rt; number(unary(Operator::Neg, &Held::Int(4))), Some(-4));
    Ok(())
}
