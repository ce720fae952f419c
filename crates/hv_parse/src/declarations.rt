//! Declarations, and a whole list of them.

ghost use Rattle.hv_syn_grammar.specs.Reads.{Reads};
ghost use Rattle.hv_syn_grammar.specs.Parser.{passes};
ghost use Rattle.hv_syn_grammar.specs.Declarations as spec;
ghost use Rattle.std.specs.Prelude.{◌≡◌};
ghost use Rattle.hv_tree.specs.Refusal.{most_open};

use crate::knot::block_at;
use crate::marks::semicolon;
use hv_items::{Items, beside};
use hv_syn_grammar::{Cursor, Stop};
use hv_syn_terms::{bracketed_params, returned, type_at};
use hv_tree::{Decl, Field, FunDecl, StructDecl, Tree};
use std::alloc::Global;

/// How many brackets may be open.
const MOST_OPEN: usize = 100;

#[tactic(auto, unfolding(hv_syn_grammar::specs::Declarations::field, hv_items::specs::Kept::paired))]
fn field(alloc: Global, cursor: &mut Cursor<'_>, room: usize) -> Result<Field, Stop>
    ensures { Reads (spec.field room cursor.old) result cursor.new }
{
    cursor.keyword("var")?;
    let name = cursor.word(alloc)?;
    let (name, _) = beside(name, cursor.mark(":"))?;
    let typed = beside(name, type_at(alloc, cursor, room))?;
    let ((name, ty), _) = beside(typed, semicolon(cursor))?;
    Ok(Field { name, ty })
}

#[tactic(auto, using(hv_syn_grammar::proofs::Loops::many_begins, hv_syn_grammar::proofs::Loops::turn_none, hv_syn_grammar::proofs::Loops::turn_end, hv_syn_grammar::proofs::Loops::turn_more, hv_syn_grammar::proofs::Loops::turn_off, hv_syn_grammar::proofs::Loops::turn_deep), unfolding(hv_syn_grammar::specs::Declarations::fields))]
fn fields(alloc: Global, cursor: &mut Cursor<'_>, room: usize) -> Result<Items<Field>, Stop>
    ensures { Reads (spec.fields room cursor.old) result cursor.new }
{
    let mut found = Items::new(alloc);
    for _turn in 0..cursor.left() {
        if !cursor.sees_keyword("var") {
            return Ok(found);
        }
        let field = field(alloc, cursor, room)?;
        found.push(field)?;
    }
    Ok(found)
}

#[tactic(auto, unfolding(hv_syn_grammar::specs::Declarations::struct_decl, hv_items::specs::Kept::paired))]
fn struct_decl(alloc: Global, cursor: &mut Cursor<'_>, room: usize) -> Result<Decl, Stop>
    ensures { Reads (spec.struct_decl room cursor.old) result cursor.new }
{
    cursor.keyword("struct")?;
    let name = cursor.word(alloc)?;
    let (name, _) = beside(name, cursor.opening(room, "{"))?;
    let named = beside(name, fields(alloc, cursor, room - 1))?;
    let ((name, fields), _) = beside(named, cursor.mark("}"))?;
    Ok(Decl::Struct(StructDecl { name, fields }))
}

#[tactic(auto, unfolding(hv_syn_grammar::specs::Declarations::fun_decl, hv_items::specs::Kept::paired))]
fn fun_decl(alloc: Global, cursor: &mut Cursor<'_>, room: usize) -> Result<Decl, Stop>
    ensures { Reads (spec.fun_decl room cursor.old) result cursor.new }
{
    cursor.keyword("fun")?;
    let name = cursor.word(alloc)?;
    let taking = beside(name, bracketed_params(alloc, cursor, room))?;
    let giving = beside(taking, returned(alloc, cursor, room))?;
    let (((name, params), returned), body) = beside(giving, block_at(alloc, cursor, room))?;
    Ok(Decl::Fun(FunDecl {
        name,
        params,
        result: returned,
        body,
    }))
}

#[tactic(auto, unfolding(hv_syn_grammar::specs::Declarations::one_decl))]
fn one_decl(alloc: Global, cursor: &mut Cursor<'_>, room: usize) -> Result<Decl, Stop>
    ensures { Reads (spec.one_decl room cursor.old) result cursor.new }
{
    if cursor.sees_keyword("struct") {
        struct_decl(alloc, cursor, room)
    } else {
        fun_decl(alloc, cursor, room)
    }
}

fn begins_decl(cursor: &Cursor<'_>) -> bool
    ensures { result ≡ passes spec.begins_decl cursor.now }
{
    cursor.sees_keyword("struct") || cursor.sees_keyword("fun")
}

#[tactic(auto, using(hv_syn_grammar::proofs::Loops::many_begins, hv_syn_grammar::proofs::Loops::turn_none, hv_syn_grammar::proofs::Loops::turn_end, hv_syn_grammar::proofs::Loops::turn_more, hv_syn_grammar::proofs::Loops::turn_off, hv_syn_grammar::proofs::Loops::turn_deep), unfolding(hv_syn_grammar::specs::Declarations::decls))]
fn decls(alloc: Global, cursor: &mut Cursor<'_>, room: usize) -> Result<Items<Decl>, Stop>
    ensures { Reads (spec.decls room cursor.old) result cursor.new }
{
    let mut found = Items::new(alloc);
    for _turn in 0..cursor.left() {
        if !begins_decl(cursor) {
            return Ok(found);
        }
        let decl = one_decl(alloc, cursor, room)?;
        found.push(decl)?;
    }
    Ok(found)
}

/// The tree of all tokens that are left.
#[tactic(auto, using(crate::proofs::Ends::at_end, crate::proofs::Ends::before_end), unfolding(hv_syn_grammar::specs::Declarations::program))]
pub(crate) fn program(alloc: Global, cursor: &mut Cursor<'_>) -> Result<Tree, Stop>
    ensures { Reads (spec.program most_open cursor.old) result cursor.new }
{
    let decls = decls(alloc, cursor, MOST_OPEN)?;
    if cursor.left() == 0 {
        Ok(Tree { decls })
    } else {
        Err(Stop::Off)
    }
}
