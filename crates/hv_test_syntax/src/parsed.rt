use hv_parse::{ParseEnd, parse};
use hv_token::lex;
use hv_tree::{Decl, Stmt, StmtKind, Tree};
use std::alloc::{AllocError, Global};
use std::process::Abort;
use std::test::Fail;

fn read(
    rt: &impl Abort,
    alloc: Global,
    source: &[u8],
) -> Result<Result<Tree, ParseEnd>, AllocError> {
    assert!(rt; source.len() < 4_294_967_295);
    let lexed = lex(alloc, source)?;
    Ok(parse(alloc, &lexed))
}

// Each statement as a word with its place, what is inside left out.
fn stmts(alloc: Global, stmts: &[Stmt]) -> Result<String, AllocError> {
    let mut text = String::new(alloc);
    for stmt in stmts {
        let word = match &stmt.kind {
            StmtKind::Var(_, _, value) => format!(in alloc; "var {}", value.is_some())?,
            StmtKind::Let(name, _, _) => format!(in alloc; "let {}", name.text.as_str())?,
            StmtKind::Inout(name, _, _) => format!(in alloc; "inout {}", name.text.as_str())?,
            StmtKind::Assign(place, _) => format!(in alloc; "assign {}", place.steps.len())?,
            StmtKind::If(branches, otherwise) => {
                format!(in alloc; "if {} {}", branches.len(), otherwise.is_some())?
            }
            StmtKind::While(_, body) => format!(in alloc; "while {}", body.stmts.len())?,
            StmtKind::Return(value) => format!(in alloc; "return {}", value.is_some())?,
            StmtKind::Print(_) => format!(in alloc; "print")?,
            StmtKind::Task(_, ty, spawn, _, call) => {
                format!(in alloc; "task {} {} {}", ty.is_some(), spawn.start, call.args.len())?
            }
            StmtKind::Await(name) => format!(in alloc; "await {}", name.text.as_str())?,
            StmtKind::Call(call) => format!(in alloc; "call {}", call.args.len())?,
            StmtKind::Block(block) => format!(in alloc; "block {}", block.stmts.len())?,
        };
        let line = format!(in alloc; "{word}@{} ", stmt.place.start)?;
        text.push_str(line.as_str())?;
    }
    Ok(text)
}

// Each declaration, or the refusal.
fn shown(alloc: Global, read: &Result<Tree, ParseEnd>) -> Result<String, AllocError> {
    let tree = match read {
        Ok(tree) => tree,
        Err(ParseEnd::Refused(refusal)) => {
            return format!(in alloc; "{:?}@{}", refusal.rule, refusal.place.start);
        }
        Err(ParseEnd::NoMemory) => return format!(in alloc; "no memory"),
    };
    let mut text = String::new(alloc);
    for decl in tree.decls.as_slice() {
        let line = match decl {
            Decl::Struct(declared) => {
                format!(in alloc;
                    "struct {} {} ",
                    declared.name.text.as_str(),
                    declared.fields.len()
                )?
            }
            Decl::Fun(declared) => {
                let body = stmts(alloc, declared.body.stmts.as_slice())?;
                format!(in alloc;
                    "fun {} {} {} {body}",
                    declared.name.text.as_str(),
                    declared.params.len(),
                    declared.result.is_some()
                )?
            }
        };
        text.push_str(line.as_str())?;
    }
    Ok(text)
}

#[test]
fn each_source_has_its_tree_or_its_refusal(rt: HostRuntime) -> Result<(), Fail> {
    let cases: [(&[u8], &str); 24] = [
        (b"", ""),
        (b"struct S { var x: Int; var y: [Bool] }", "struct S 2 "),
        (b"struct S { var x: Int;; }", "P1@22"),
        (
            b"fun f(a: inout Int, b: sink S) -> Int { return 1 }",
            "fun f 2 true return true@40 ",
        ),
        // the end, a token and the lexer's stop
        (b"fun main() {", "P1@12"),
        (b"fun main() { print(1 2 @) }", "P1@21"),
        (b"fun main() { print(1 @) }", "L2@21"),
        (b"fun main() { } @", "L2@15"),
        (b"fun main() { } 1 @", "P1@15"),
        // semicolons
        (
            b"fun main() { print(1) print(2); print(3) }",
            "fun main 0 false print@13 print@22 print@32 ",
        ),
        (b"fun main() { print(1);; }", "P1@22"),
        // returns
        (b"fun f() { return }", "fun f 0 false return false@10 "),
        (
            b"fun f() { return; f() }",
            "fun f 0 false return false@10 call 0@18 ",
        ),
        (
            b"fun f() { return f() f() }",
            "fun f 0 false return true@10 call 0@21 ",
        ),
        (b"fun f() { return print(1) }", "P1@17"),
        // branches
        (
            b"fun f() { if a { } else if b { } else { } }",
            "fun f 0 false if 2 true@10 ",
        ),
        (
            b"fun f() { if a { } else if b { } f(a) }",
            "fun f 0 false if 2 false@10 call 1@33 ",
        ),
        (b"fun f() { if a { } else { } else { } }", "P1@28"),
        (
            b"fun f() { while a { if b { } } }",
            "fun f 0 false while 1@10 ",
        ),
        // bindings
        (
            b"fun f() { var a: Int var b: Int = 1 let c: Int = 2 inout d: Int = &a }",
            "fun f 0 false var false@10 var true@21 let c@36 inout d@51 ",
        ),
        (
            b"fun f() { &a.b[1] = 2 { } }",
            "fun f 0 false assign 2@10 block 0@22 ",
        ),
        // tasks
        (
            b"fun f() { task t: Int = spawn(9) f(1, &a) await t }",
            "fun f 0 false task true 24 2@10 await t@42 ",
        ),
        (b"fun f() { task t = f(1) }", "P1@19"),
        (b"fun f() { let a: Int }", "P1@21"),
    ];
    for (source, want) in cases {
        let found = read(&rt, rt.alloc(), source)?;
        assert_eq!(rt; shown(rt.alloc(), &found)?.as_str(), want);
    }
    Ok(())
}

fn nested(alloc: Global, further: usize) -> Result<Vec<u8>, AllocError> {
    let mut source = Vec::new(alloc);
    source.extend_from_slice(b"fun main() { print(")?;
    for _turn in 0..further {
        source.push(b'(')?;
    }
    source.push(b'1')?;
    for _turn in 0..further {
        source.push(b')')?;
    }
    source.extend_from_slice(b") }")?;
    Ok(source)
}

#[test]
fn a_bracket_is_one_too_many_where_a_hundred_are_open(rt: HostRuntime) -> Result<(), Fail> {
    let deep = nested(rt.alloc(), 99)?;
    let found = read(&rt, rt.alloc(), deep.as_slice())?;
    assert_eq!(rt; shown(rt.alloc(), &found)?.as_str(), "P2@117");
    let within = nested(rt.alloc(), 98)?;
    let found = read(&rt, rt.alloc(), within.as_slice())?;
    assert_eq!(rt;
        shown(rt.alloc(), &found)?.as_str(),
        "fun main 0 false print@13 "
    );
    Ok(())
}
