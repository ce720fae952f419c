use hv_decls::StaticStep;
use hv_flow_pass::Range;
use hv_init_leaves::{Leaves, Sizes};
use hv_scope::{Declared, Kind, Known};
use hv_tree::{Decl, Field, Name, Place, Tree, Ty, builders as build};
use std::alloc::{AllocError as NoMemory, Global};
use std::test::Fail;

const AT: Place = Place { start: 0 };

fn name(alloc: Global, text: &str) -> Result<Name, NoMemory> {
    build::name(alloc, String::from_str(alloc, text)?, AT)
}

fn ty(alloc: Global, text: &str) -> Result<Ty, NoMemory> {
    if text == "Int" {
        build::ty_int(alloc, AT)
    } else {
        build::ty_named(alloc, name(alloc, text)?)
    }
}

fn structure(alloc: Global, text: &str, types: &[&str]) -> Result<Decl, NoMemory> {
    let mut fields = Vec::new(alloc);
    for of in types {
        fields.push(build::field(alloc, name(alloc, "x")?, ty(alloc, *of)?)?)?;
    }
    build::decl_struct(
        alloc,
        build::struct_decl(alloc, name(alloc, text)?, fields)?,
    )
}

// `Q` has an `Int`, a `P` and an `E`, and `P` has two `Int`s.
fn program(alloc: Global) -> Result<Tree, NoMemory> {
    let mut decls = Vec::new(alloc);
    decls.push(structure(alloc, "Q", ["Int", "P", "E"].as_slice())?)?;
    decls.push(structure(alloc, "P", ["Int", "Int"].as_slice())?)?;
    decls.push(structure(alloc, "E", [].as_slice())?)?;
    build::tree(alloc, decls)
}

// `Int`, `Q`, `[P]` and `E`
fn types(alloc: Global) -> Result<Vec<Ty>, NoMemory> {
    let mut types = Vec::new(alloc);
    types.push(ty(alloc, "Int")?)?;
    types.push(ty(alloc, "Q")?)?;
    types.push(build::ty_array(alloc, AT, ty(alloc, "P")?)?)?;
    types.push(ty(alloc, "E")?)?;
    Ok(types)
}

fn locals<'t>(alloc: Global, name: &'t Name, types: &'t [Ty]) -> Result<Vec<Known<'t>>, NoMemory> {
    let kind = Kind::Var;
    let mut locals = Vec::new(alloc);
    for ty in types {
        let ty = Some(ty);
        locals.push(Known { name, kind, ty })?;
    }
    Ok(locals)
}

// A field by its number, or any index.
fn steps(alloc: Global, text: &str) -> Result<Vec<StaticStep>, NoMemory> {
    let mut steps = Vec::new(alloc);
    for letter in text.as_bytes() {
        steps.push(match *letter {
            b'0' => StaticStep::Field(0),
            b'1' => StaticStep::Field(1),
            b'2' => StaticStep::Field(2),
            b'3' => StaticStep::Field(3),
            _ => StaticStep::Any,
        })?;
    }
    Ok(steps)
}

fn range(
    alloc: Global,
    tree: &Tree,
    locals: &[Known<'_>],
    root: u32,
    text: &str,
) -> Result<Range, NoMemory> {
    let declared = Declared::new(alloc, tree)?;
    let sizes = Sizes::of(alloc, &declared)?;
    let leaves = Leaves::of(alloc, &declared, &sizes, locals)?;
    let steps = steps(alloc, text)?;
    leaves.range(&sizes, root, steps.as_slice())
}

#[test]
fn ranges_of_leaves(rt: HostRuntime) -> Result<(), Fail> {
    let alloc = rt.alloc();
    let tree = program(alloc)?;
    let name = name(alloc, "v")?;
    let types = types(alloc)?;
    let locals = locals(alloc, &name, types.as_slice())?;
    let rows = [
        (0, "", 1, 1),
        (0, "0", 1, 0),
        (1, "", 2, 4),
        (1, "0", 2, 1),
        (1, "1", 3, 2),
        (1, "11", 4, 1),
        (1, "1?1", 3, 2),
        (1, "2", 5, 1),
        (1, "3", 6, 0),
        (2, "?0", 6, 1),
        (3, "", 7, 1),
        (4, "", 8, 0),
    ];
    for (root, text, from, count) in rows {
        let found = range(alloc, &tree, locals.as_slice(), root, text)?;
        assert_eq!(rt; found, Range { from, count }, "{root} {text}");
    }
    Ok(())
}
