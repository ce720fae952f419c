//! Names, types, parameters and results.

ghost use Rattle.std.specs.Prelude.{◌≡◌, IfOk, codes};
ghost use Rattle.hv_syn_grammar.specs.Parser.{passes};
ghost use Rattle.hv_syn_grammar.specs.Reads.{Reads};
ghost use Rattle.hv_syn_grammar.specs.Signatures as sig;
ghost use Rattle.hv_syn_terms.specs.Parts.{parts_after};

use hv_items::{Boxed, Items};
use hv_syn_grammar::{Cursor, Stop};
use hv_tree::{Conv, Name, Param, Place, Ty};
use std::alloc::{AllocError, Global};

fn begins_conv(cursor: &Cursor<'_>) -> bool
    ensures { result ≡ passes sig.begins_conv cursor.now }
{
    cursor.sees_keyword("let")
        || cursor.sees_keyword("inout")
        || cursor.sees_keyword("sink")
        || cursor.sees_keyword("set")
}

fn begins_type(cursor: &Cursor<'_>) -> bool
    ensures { result ≡ passes sig.begins_type cursor.now }
{
    cursor.sees_keyword("fun")
        || cursor.sees_keyword("Int")
        || cursor.sees_keyword("Bool")
        || cursor.sees_word()
        || cursor.sees_mark("[")
        || cursor.sees_mark("(")
}

#[tactic(auto, using(crate::proofs::NextToken::begins_conv_type))]
fn begins_conv_type(cursor: &Cursor<'_>) -> bool
    ensures { result ≡ passes sig.begins_conv_type cursor.now }
{
    begins_conv(cursor) || begins_type(cursor)
}

#[tactic(auto, unfolding(hv_syn_grammar::specs::Signatures::a_name))]
fn a_name(alloc: Global, cursor: &mut Cursor<'_>) -> Result<Name, Stop>
    ensures { Reads (sig.a_name cursor.old) result cursor.new }
{
    cursor.word(alloc)
}

#[tactic(auto, using(hv_syn_grammar::proofs::Loops::many_begins, hv_syn_grammar::proofs::Loops::turn_none, hv_syn_grammar::proofs::Loops::turn_end, hv_syn_grammar::proofs::Loops::turn_more, hv_syn_grammar::proofs::Loops::turn_off, hv_syn_grammar::proofs::Loops::turn_deep), unfolding(hv_syn_grammar::specs::Lexemes::more_parts, crate::specs::Parts::parts_after))]
fn more_names(alloc: Global, cursor: &mut Cursor<'_>, first: Name) -> Result<Items<Name>, Stop>
    ensures { Reads (parts_after first sig.a_name cursor.old) result cursor.new }
{
    let mut found = Items::new(alloc);
    found.push(first)?;
    for _turn in 0..cursor.left() {
        if !cursor.sees_mark(",") {
            return Ok(found);
        }
        cursor.mark(",")?;
        let name = a_name(alloc, cursor)?;
        found.push(name)?;
    }
    Ok(found)
}

#[tactic(auto, unfolding(hv_syn_grammar::specs::Signatures::names, hv_syn_grammar::specs::Lexemes::separated, crate::specs::Parts::parts_after))]
pub fn names(alloc: Global, cursor: &mut Cursor<'_>) -> Result<Items<Name>, Stop>
    ensures { Reads (sig.names cursor.old) result cursor.new }
{
    if !cursor.sees_word() {
        return Ok(Items::new(alloc));
    }
    let first = a_name(alloc, cursor)?;
    more_names(alloc, cursor, first)
}

#[tactic(auto, unfolding(hv_syn_grammar::specs::Signatures::convention))]
fn convention(cursor: &mut Cursor<'_>) -> Result<Conv, Stop>
    ensures { Reads (sig.convention cursor.old) result cursor.new }
{
    if cursor.sees_keyword("let") {
        cursor.keyword("let")?;
        Ok(Conv::Let)
    } else if cursor.sees_keyword("inout") {
        cursor.keyword("inout")?;
        Ok(Conv::Inout)
    } else if cursor.sees_keyword("sink") {
        cursor.keyword("sink")?;
        Ok(Conv::Sink)
    } else if cursor.sees_keyword("set") {
        cursor.keyword("set")?;
        Ok(Conv::Set)
    } else {
        Ok(Conv::Let)
    }
}

fn array_of(alloc: Global, at: Place, element: Ty) -> Result<Ty, AllocError>
    ensures { IfOk result (λ t. t ≡ Ty.Array at element) }
{
    Ok(Ty::Array(at, Boxed::new(alloc, element)?))
}

fn function_of(
    alloc: Global,
    at: Place,
    params: Items<(Conv, Ty)>,
    returned: Option<Ty>,
) -> Result<Ty, AllocError>
    ensures { IfOk result (λ t. t ≡ Ty.Fun at params returned) }
{
    let returned = match returned {
        Some(returned) => Some(Boxed::new(alloc, returned)?),
        None => None,
    };
    Ok(Ty::Fun(at, params, returned))
}

#[cycle(types)]
#[tactic(auto, using(crate::proofs::InsideTypes::inner_type))]
fn array_type(alloc: Global, cursor: &mut Cursor<'_>, room: usize) -> Result<Ty, Stop>
    ensures { Reads (sig.array_type room (sig.inner_types room) cursor.old) result cursor.new }
{
    let left = cursor.opening(room, "[")?;
    let element = any_type(alloc, cursor, room - 1)?;
    cursor.mark("]")?;
    Ok(array_of(alloc, left, element)?)
}

#[cycle(types)]
#[tactic(auto, using(crate::proofs::InsideTypes::inner_type))]
fn group_type(alloc: Global, cursor: &mut Cursor<'_>, room: usize) -> Result<Ty, Stop>
    ensures { Reads (sig.group_type room (sig.inner_types room) cursor.old) result cursor.new }
{
    cursor.opening(room, "(")?;
    let inner = any_type(alloc, cursor, room - 1)?;
    cursor.mark(")")?;
    Ok(inner)
}

#[cycle(types)]
#[tactic(auto, unfolding(hv_syn_grammar::specs::Signatures::result_type))]
fn result_type(alloc: Global, cursor: &mut Cursor<'_>, room: usize) -> Result<Ty, Stop>
    ensures { Reads (sig.result_type room (sig.inner_types room) cursor.old) result cursor.new }
{
    if cursor.sees_keyword("Int") {
        Ok(Ty::Int(cursor.keyword("Int")?))
    } else if cursor.sees_keyword("Bool") {
        Ok(Ty::Bool(cursor.keyword("Bool")?))
    } else if cursor.sees_word() {
        Ok(Ty::Named(cursor.word(alloc)?))
    } else if cursor.sees_mark("[") {
        array_type(alloc, cursor, room)
    } else {
        group_type(alloc, cursor, room)
    }
}

#[cycle(types)]
#[tactic(auto, unfolding(hv_syn_grammar::specs::Signatures::function_result))]
fn function_result(alloc: Global, cursor: &mut Cursor<'_>, room: usize) -> Result<Option<Ty>, Stop>
    ensures { Reads (sig.function_result room (sig.inner_types room) cursor.old) result cursor.new }
{
    if !cursor.sees_mark("->") {
        return Ok(None);
    }
    cursor.mark("->")?;
    Ok(Some(result_type(alloc, cursor, room)?))
}

#[cycle(types)]
#[tactic(auto, using(crate::proofs::InsideTypes::inner_list), unfolding(hv_syn_grammar::specs::Signatures::function_type))]
fn function_type(alloc: Global, cursor: &mut Cursor<'_>, room: usize) -> Result<Ty, Stop>
    ensures { Reads (sig.function_type room (sig.inner_types room) cursor.old) result cursor.new }
{
    let at = cursor.keyword("fun")?;
    cursor.opening(room, "(")?;
    let params = types(alloc, cursor, room - 1)?;
    cursor.mark(")")?;
    let returned = function_result(alloc, cursor, room)?;
    Ok(function_of(alloc, at, params, returned)?)
}

#[cycle(types)]
#[tactic(auto, using(crate::proofs::InsideTypes::type_function, crate::proofs::InsideTypes::type_other))]
fn any_type(alloc: Global, cursor: &mut Cursor<'_>, room: usize) -> Result<Ty, Stop>
    ensures { Reads (sig.type room (sig.inner_types room) cursor.old) result cursor.new }
{
    if cursor.sees_keyword("fun") {
        function_type(alloc, cursor, room)
    } else {
        result_type(alloc, cursor, room)
    }
}

#[cycle(types)]
#[tactic(auto, unfolding(hv_syn_grammar::specs::Signatures::conv_type))]
fn conv_type(alloc: Global, cursor: &mut Cursor<'_>, room: usize) -> Result<(Conv, Ty), Stop>
    ensures { Reads (sig.conv_type room (sig.inner_types room) cursor.old) result cursor.new }
{
    let conv = convention(cursor)?;
    let ty = any_type(alloc, cursor, room)?;
    Ok((conv, ty))
}

#[cycle(types)]
#[tactic(auto, using(hv_syn_grammar::proofs::Loops::many_begins, hv_syn_grammar::proofs::Loops::turn_none, hv_syn_grammar::proofs::Loops::turn_end, hv_syn_grammar::proofs::Loops::turn_more, hv_syn_grammar::proofs::Loops::turn_off, hv_syn_grammar::proofs::Loops::turn_deep), unfolding(hv_syn_grammar::specs::Lexemes::more_parts, crate::specs::Parts::parts_after))]
fn more_types(
    alloc: Global,
    cursor: &mut Cursor<'_>,
    room: usize,
    first: (Conv, Ty),
) -> Result<Items<(Conv, Ty)>, Stop>
    ensures { Reads (parts_after first (sig.conv_type room (sig.inner_types room)) cursor.old) result cursor.new }
{
    let mut found = Items::new(alloc);
    found.push(first)?;
    for _turn in 0..cursor.left() {
        if !cursor.sees_mark(",") {
            return Ok(found);
        }
        cursor.mark(",")?;
        let next = conv_type(alloc, cursor, room)?;
        found.push(next)?;
    }
    Ok(found)
}

#[cycle(types)]
#[tactic(auto, unfolding(hv_syn_grammar::specs::Signatures::types, hv_syn_grammar::specs::Lexemes::separated, crate::specs::Parts::parts_after))]
fn types(alloc: Global, cursor: &mut Cursor<'_>, room: usize) -> Result<Items<(Conv, Ty)>, Stop>
    ensures { Reads (sig.types room (sig.inner_types room) cursor.old) result cursor.new }
{
    if !begins_conv_type(cursor) {
        return Ok(Items::new(alloc));
    }
    let first = conv_type(alloc, cursor, room)?;
    more_types(alloc, cursor, room, first)
}

/// A type, where `room` more brackets may be opened.
#[tactic(auto, unfolding(hv_syn_grammar::specs::Signatures::type_at))]
pub fn type_at(alloc: Global, cursor: &mut Cursor<'_>, room: usize) -> Result<Ty, Stop>
    ensures { Reads (sig.type_at room cursor.old) result cursor.new }
{
    any_type(alloc, cursor, room)
}

#[tactic(auto, unfolding(hv_syn_grammar::specs::Signatures::param))]
fn param(alloc: Global, cursor: &mut Cursor<'_>, room: usize) -> Result<Param, Stop>
    ensures { Reads (sig.param room cursor.old) result cursor.new }
{
    let name = cursor.word(alloc)?;
    cursor.mark(":")?;
    let conv = convention(cursor)?;
    let ty = type_at(alloc, cursor, room)?;
    Ok(Param { name, conv, ty })
}

#[tactic(auto, using(hv_syn_grammar::proofs::Loops::many_begins, hv_syn_grammar::proofs::Loops::turn_none, hv_syn_grammar::proofs::Loops::turn_end, hv_syn_grammar::proofs::Loops::turn_more, hv_syn_grammar::proofs::Loops::turn_off, hv_syn_grammar::proofs::Loops::turn_deep), unfolding(hv_syn_grammar::specs::Lexemes::more_parts, crate::specs::Parts::parts_after))]
fn more_params(
    alloc: Global,
    cursor: &mut Cursor<'_>,
    room: usize,
    first: Param,
) -> Result<Items<Param>, Stop>
    ensures { Reads (parts_after first (sig.param room) cursor.old) result cursor.new }
{
    let mut found = Items::new(alloc);
    found.push(first)?;
    for _turn in 0..cursor.left() {
        if !cursor.sees_mark(",") {
            return Ok(found);
        }
        cursor.mark(",")?;
        let next = param(alloc, cursor, room)?;
        found.push(next)?;
    }
    Ok(found)
}

#[tactic(auto, unfolding(hv_syn_grammar::specs::Signatures::params, hv_syn_grammar::specs::Lexemes::separated, crate::specs::Parts::parts_after))]
fn params(alloc: Global, cursor: &mut Cursor<'_>, room: usize) -> Result<Items<Param>, Stop>
    ensures { Reads (sig.params room cursor.old) result cursor.new }
{
    if !cursor.sees_word() {
        return Ok(Items::new(alloc));
    }
    let first = param(alloc, cursor, room)?;
    more_params(alloc, cursor, room, first)
}

/// The type behind a `->`, if there is one.
#[tactic(auto, unfolding(hv_syn_grammar::specs::Signatures::returned))]
pub fn returned(alloc: Global, cursor: &mut Cursor<'_>, room: usize) -> Result<Option<Ty>, Stop>
    ensures { Reads (sig.returned room cursor.old) result cursor.new }
{
    if !cursor.sees_mark("->") {
        return Ok(None);
    }
    cursor.mark("->")?;
    Ok(Some(type_at(alloc, cursor, room)?))
}

/// Parameters in brackets.
#[tactic(auto, unfolding(hv_syn_grammar::specs::Signatures::bracketed_params))]
pub fn bracketed_params(
    alloc: Global,
    cursor: &mut Cursor<'_>,
    room: usize,
) -> Result<Items<Param>, Stop>
    ensures { Reads (sig.bracketed_params room cursor.old) result cursor.new }
{
    cursor.opening(room, "(")?;
    let found = params(alloc, cursor, room - 1)?;
    cursor.mark(")")?;
    Ok(found)
}
