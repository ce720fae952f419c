use hv_flow_versions::{Cell, Versions};
use std::alloc::{AllocError as NoMemory, Global};
use std::test::Fail;

const NOTHING: u8 = 0;

const YES: u8 = 1;

const NO: u8 = 2;

const EITHER: u8 = 3;

const KEPT: u8 = 4;

const KEPT_OR_YES: u8 = 5;

fn seen(cell: Option<Cell>) -> u8 {
    let Some(cell) = cell else {
        return NOTHING;
    };
    let yes = if cell.yes { YES } else { NOTHING };
    let no = if cell.no { NO } else { NOTHING };
    let kept = if cell.kept { KEPT } else { NOTHING };
    yes | no | kept
}

// A letter a call: `+`, `-` and `w` set, brackets begin and end parts.
fn walk(alloc: Global, text: &str) -> Result<Versions, NoMemory> {
    let mut versions = Versions::new(alloc, 3)?;
    for byte in text.bytes() {
        match byte {
            b'+' => versions.set(0, 1, true)?,
            b'-' => versions.set(0, 1, false)?,
            b'w' => versions.set(1, 2, true)?,
            b'x' => versions.stop(),
            b'(' => versions.split()?,
            b'|' => versions.change_sides(),
            b':' => versions.change_sides_within()?,
            b')' => versions.join(),
            b'{' => versions.enter()?,
            b'}' => versions.leave(),
            _ => {}
        }
    }
    Ok(versions)
}

#[test]
fn what_a_cell_may_be_along_a_walk(rt: HostRuntime) -> Result<(), Fail> {
    let alloc = rt.alloc();
    let rows = [
        ("", NO, NO),
        ("+", YES, NO),
        ("w", NO, YES),
        ("x", NOTHING, NOTHING),
        ("(+", YES, NO),
        ("(+|", NO, NO),
        ("(+|)", EITHER, NO),
        ("(|+)", EITHER, NO),
        ("(+|+)", YES, NO),
        ("(+w|-)", EITHER, EITHER),
        ("(+x|)", NO, NO),
        ("(|+x)", NO, NO),
        ("(+|x)", YES, NO),
        ("(x|x)", NOTHING, NOTHING),
        ("((+|)|)", EITHER, NO),
        ("(+(-|)|+)", EITHER, NO),
        ("(+|(-:+)", EITHER, NO),
        ("(+|(+:+)", YES, NO),
        ("(+|(w:)", EITHER, EITHER),
        ("(+|(x:+)", YES, NO),
        ("(x|(+:)", EITHER, NO),
        ("(+|+(w:-(w:+)", EITHER, EITHER),
        ("(|(:(:+)", EITHER, NO),
        ("(+:)", EITHER, NO),
        ("{", KEPT, KEPT),
        ("{+", YES, KEPT),
        ("{+}", EITHER, NO),
        ("+{+}", YES, NO),
        ("{+x}", NO, NO),
        ("x{+}", NOTHING, NOTHING),
        ("{(+|)", KEPT_OR_YES, KEPT),
        ("{{+}", KEPT_OR_YES, KEPT),
        ("+{(-|)}", EITHER, NO),
        ("({w}|+)", EITHER, EITHER),
        (")}+", YES, NO),
    ];
    for (text, first, last) in rows {
        let versions = walk(alloc, text)?;
        assert_eq!(rt; seen(versions.at(0)), first, "{text}");
        assert_eq!(rt; seen(versions.at(2)), last, "{text}");
        assert_eq!(rt; versions.at(2).is_none(), first == NOTHING, "{text}");
        assert!(rt; versions.at(3).is_none(), "{text}");
    }
    Ok(())
}
