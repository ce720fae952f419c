use hv_excl::excl_refusal;
use hv_tree::{
    Arg, Block, Conv, Decl, Expr, Field, Name, Param, Place, PlaceExpr, Refusal, Rule, Step, Stmt,
    StmtKind, Tree, Ty, builders as build,
};
use std::alloc::{AllocError as NoMemory, Global};
use std::test::Fail;

const AT: Place = Place { start: 0 };

fn name(alloc: Global, text: &str, start: u32) -> Result<Name, NoMemory> {
    build::name(alloc, String::from_str(alloc, text)?, Place { start })
}

fn int(alloc: Global) -> Result<Ty, NoMemory> {
    build::ty_int(alloc, AT)
}

fn number(alloc: Global, value: i64) -> Result<Expr, NoMemory> {
    build::expr(alloc, AT, build::expr_kind_int(alloc, value)?)
}

fn value(alloc: Global, place: PlaceExpr) -> Result<Expr, NoMemory> {
    build::expr(alloc, AT, build::expr_kind_path(alloc, place)?)
}

fn whole(alloc: Global, text: &str) -> Result<PlaceExpr, NoMemory> {
    build::place_expr(alloc, name(alloc, text, 0)?, Vec::new(alloc))
}

fn field_step(alloc: Global, text: &str) -> Result<Vec<Step>, NoMemory> {
    let mut steps = Vec::new(alloc);
    steps.push(build::step_field(alloc, name(alloc, text, 0)?)?)?;
    Ok(steps)
}

fn index_step(alloc: Global, index: Expr) -> Result<Vec<Step>, NoMemory> {
    let mut steps = Vec::new(alloc);
    steps.push(build::step_index(alloc, AT, index)?)?;
    Ok(steps)
}

// `a`, `a[0]`, `a[1]`, `a[i]`, `p.x`, `p.y`, `i` or `r`.
fn place(alloc: Global, letter: u8, start: u32) -> Result<PlaceExpr, NoMemory> {
    let (root, steps) = match letter {
        b'0' => ("a", index_step(alloc, number(alloc, 0)?)?),
        b'1' => ("a", index_step(alloc, number(alloc, 1)?)?),
        b'?' => ("a", index_step(alloc, value(alloc, whole(alloc, "i")?)?)?),
        b'x' => ("p", field_step(alloc, "x")?),
        b'y' => ("p", field_step(alloc, "y")?),
        b'i' => ("i", Vec::new(alloc)),
        b'r' => ("r", Vec::new(alloc)),
        _ => ("a", Vec::new(alloc)),
    };
    build::place_expr(alloc, name(alloc, root, start)?, steps)
}

fn lent(alloc: Global, letter: u8, start: u32) -> Result<Arg, NoMemory> {
    build::arg_ref(alloc, AT, place(alloc, letter, start)?)
}

// `f(&ONE, g(&TWO), &THREE)`
fn called(alloc: Global, letters: [u8; 3], start: u32) -> Result<StmtKind, NoMemory> {
    let mut inner = Vec::new(alloc);
    inner.push(lent(alloc, letters[1], start.saturating_sub(1))?)?;
    let g = build::call(alloc, whole(alloc, "g")?, AT, inner)?;
    let g = build::expr(alloc, AT, build::expr_kind_call(alloc, g)?)?;
    let mut args = Vec::new(alloc);
    args.push(lent(alloc, letters[0], start)?)?;
    args.push(build::arg_value(alloc, g)?)?;
    args.push(lent(alloc, letters[2], start.saturating_sub(2))?)?;
    build::stmt_kind_call(alloc, build::call(alloc, whole(alloc, "f")?, AT, args)?)
}

// `if true { return }`
fn left(alloc: Global) -> Result<StmtKind, NoMemory> {
    let mut stmts = Vec::new(alloc);
    stmts.push(build::stmt(alloc, AT, build::stmt_kind_return(alloc, None)?)?)?;
    let body = build::block(alloc, stmts, AT)?;
    let test = build::expr(alloc, AT, build::expr_kind_bool(alloc, true)?)?;
    let mut branches = Vec::new(alloc);
    branches.push(build::branch(alloc, test, body)?)?;
    build::stmt_kind_if(alloc, branches, None)
}

// `let r: Int = PLACE`, `inout r: Int = &PLACE`, `&PLACE = 1` or `print(PLACE)`.
fn one_place(alloc: Global, word: u8, place: PlaceExpr) -> Result<StmtKind, NoMemory> {
    let r = name(alloc, "r", 0)?;
    match word {
        b'L' => build::stmt_kind_let(alloc, r, int(alloc)?, value(alloc, place)?),
        b'K' => build::stmt_kind_inout(alloc, r, int(alloc)?, place),
        b'C' => build::stmt_kind_assign(alloc, place, number(alloc, 1)?),
        _ => build::stmt_kind_print(alloc, value(alloc, place)?),
    }
}

fn stmt(alloc: Global, word: u8, letters: [u8; 3], start: u32) -> Result<Stmt, NoMemory> {
    let kind = match word {
        b'F' => called(alloc, letters, start)?,
        b'!' => left(alloc)?,
        _ => one_place(alloc, word, place(alloc, letters[0], start)?)?,
    };
    build::stmt(alloc, AT, kind)
}

fn variable(alloc: Global, text: &str, ty: Ty) -> Result<Stmt, NoMemory> {
    let kind = build::stmt_kind_var(alloc, name(alloc, text, 0)?, ty, None)?;
    build::stmt(alloc, AT, kind)
}

// Four letters a statement: which one, and its places. They fall from 99 on. No block stands in a block.
fn body(alloc: Global, text: &str) -> Result<Block, NoMemory> {
    let mut stmts = Vec::new(alloc);
    stmts.push(variable(alloc, "a", int(alloc)?)?)?;
    stmts.push(variable(alloc, "i", int(alloc)?)?)?;
    let pair = build::ty_named(alloc, name(alloc, "P", 0)?)?;
    stmts.push(variable(alloc, "p", pair)?)?;
    let mut outer = Vec::new(alloc);
    let mut letters = text.as_bytes();
    let mut start = 99u32;
    while let [word, one, two, three, rest @ ..] = letters {
        match *word {
            b'{' => {
                outer = stmts;
                stmts = Vec::new(alloc);
            }
            b'}' => {
                let kind = build::stmt_kind_block(alloc, build::block(alloc, stmts, AT)?)?;
                outer.push(build::stmt(alloc, AT, kind)?)?;
                stmts = outer;
                outer = Vec::new(alloc);
            }
            other => stmts.push(stmt(alloc, other, [*one, *two, *three], start)?)?,
        }
        letters = rest;
        start = start.saturating_sub(4);
    }
    build::block(alloc, stmts, AT)
}

fn function(alloc: Global, text: &str, params: Vec<Param>, body: Block) -> Result<Decl, NoMemory> {
    let function = build::fun_decl(alloc, name(alloc, text, 0)?, params, None, body)?;
    build::decl_fun(alloc, function)
}

fn field(alloc: Global, text: &str) -> Result<Field, NoMemory> {
    build::field(alloc, name(alloc, text, 0)?, int(alloc)?)
}

// `struct P { var x: Int var y: Int } fun g(v: inout Int) { } fun main() { .. }`
fn program(alloc: Global, text: &str) -> Result<Tree, NoMemory> {
    let mut fields = Vec::new(alloc);
    fields.push(field(alloc, "x")?)?;
    fields.push(field(alloc, "y")?)?;
    let pair = build::struct_decl(alloc, name(alloc, "P", 0)?, fields)?;
    let mut params = Vec::new(alloc);
    let v = build::param(alloc, name(alloc, "v", 0)?, Conv::Inout, int(alloc)?)?;
    params.push(v)?;
    let empty = build::block(alloc, Vec::new(alloc), AT)?;
    let mut decls = Vec::new(alloc);
    decls.push(build::decl_struct(alloc, pair)?)?;
    decls.push(function(alloc, "g", params, empty)?)?;
    decls.push(function(alloc, "main", Vec::new(alloc), body(alloc, text)?)?)?;
    build::tree(alloc, decls)
}

#[test]
fn the_first_violation_by_its_place(rt: HostRuntime) -> Result<(), Fail> {
    let alloc = rt.alloc();
    let rows = [
        ("F?i1", Some((Rule::X1, 97))),
        ("F0i1", None),
        ("F1i1", Some((Rule::X1, 97))),
        ("F1i?Ca  ", Some((Rule::X1, 97))),
        ("F0i1Ca  ", None),
        ("Kx  Sy  Sx  ", Some((Rule::X2, 91))),
        ("Kx  Sy  ", None),
        ("Ka  Cr  ", None),
        ("Ka  Ca  ", Some((Rule::X1, 95))),
        ("Ka  !   S1  ", Some((Rule::X2, 91))),
        ("{   Ka  }   Ca  ", None),
        ("{   Ka  Ca  }   ", Some((Rule::X1, 91))),
        ("La  Sa  ", None),
        ("La  Sa  Ca  ", Some((Rule::X1, 91))),
        ("K1  F0i?", Some((Rule::X1, 93))),
        ("K1  Ca  S1  ", Some((Rule::X2, 91))),
        ("Kr  ", None),
        ("Kr  Cr  ", Some((Rule::X1, 95))),
    ];
    for (text, want) in rows {
        let tree = program(alloc, text)?;
        let found = excl_refusal(alloc, &tree)?;
        let refusal = want.map(|(rule, start)| Refusal {
            rule,
            place: Place { start },
        });
        assert_eq!(rt; found, refusal, "{text}");
    }
    Ok(())
}
