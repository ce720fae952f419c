use hv_items::Items;
use hv_print::print;
use hv_tree::{Decl, Name, Place, StructDecl, Text, Tree};
use std::test::Fail;

#[test]
fn an_empty_struct_takes_two_lines(rt: HostRuntime) -> Result<(), Fail> {
    let alloc = rt.alloc();
    let text = Text::from_string(String::from_str(alloc, "P")?);
    let name = Name {
        text,
        place: Place { start: 7 },
    };
    let mut decls = Items::new(alloc);
    decls.push(Decl::Struct(StructDecl {
        name,
        fields: Items::new(alloc),
    }))?;
    let printed = print(alloc, &Tree { decls })?;
    assert_eq!(rt; printed.as_slice(), b"struct P {\n}\n".as_slice());
    Ok(())
}
