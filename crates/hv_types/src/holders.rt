// The structs that have functions in them.
ghost use Rattle.std.specs.Prelude.{◌≡◌, ◌++◌, get_or, IfOk, OnOk};
ghost use Rattle.std.specs.List.{slice_get};
ghost use Rattle.hv_types.specs.Holders as spec;

use crate::fields::{FieldBase, FieldType};
use hv_items::Items;
use std::alloc::{AllocError as NoMemory, Global};

fn is_function(base: FieldBase) -> bool
    ensures { result ≡ spec.is_function base }
{
    match base {
        FieldBase::Function => true,
        _ => false,
    }
}

fn has_function(row: &[FieldType]) -> bool
    ensures { result ≡ spec.has_function row.now }
{
    for field in row {
        if is_function(field.base) {
            return true;
        }
    }
    false
}

// Those with a function as a field.
fn direct(alloc: Global, rows: &[Items<FieldType>]) -> Result<Items<usize>, NoMemory>
    ensures { IfOk result (λ found. found ≡ spec.direct_from 0 rows.now) }
{
    let mut found = Items::new(alloc);
    for (number, row) in rows.iter().enumerate() {
        if has_function(row.as_slice()) {
            found.push(number)?;
        }
    }
    Ok(found)
}

#[tactic(auto, using(crate::proofs::Users::user_set, crate::proofs::Users::user_past))]
fn add_user(
    alloc: Global,
    users: &mut Items<Items<usize>>,
    of: usize,
    user: usize,
) -> Result<(), NoMemory>
    ensures { OnOk result (users.new ≡ spec.with_user users.old of user) }
{
    if of >= users.len() {
        return Ok(());
    }
    let mut list = users.replace(of, Items::new(alloc));
    list.push(user)?;
    users.set(of, list);
    Ok(())
}

fn add_field(
    alloc: Global,
    users: &mut Items<Items<usize>>,
    number: usize,
    base: FieldBase,
) -> Result<(), NoMemory>
    ensures { OnOk result (users.new ≡ spec.with_field users.old number base) }
{
    match base {
        FieldBase::Struct(of) => add_user(alloc, users, of, number),
        _ => Ok(()),
    }
}

fn add_row(
    alloc: Global,
    users: &mut Items<Items<usize>>,
    number: usize,
    row: &[FieldType],
) -> Result<(), NoMemory>
    ensures { OnOk result (users.new ≡ spec.with_row users.old number row.now) }
{
    for field in row {
        add_field(alloc, users, number, field.base)?;
    }
    Ok(())
}

fn nobody(alloc: Global, rows: &[Items<FieldType>]) -> Result<Items<Items<usize>>, NoMemory>
    ensures { IfOk result (λ users. users ≡ spec.nobody rows.now) }
{
    let mut users = Items::new(alloc);
    for _row in rows {
        users.push(Items::new(alloc))?;
    }
    Ok(users)
}

// For each struct those that have it as a field.
fn users_of(alloc: Global, rows: &[Items<FieldType>]) -> Result<Items<Items<usize>>, NoMemory>
    ensures { IfOk result (λ users. users ≡ spec.users_of rows.now) }
{
    let mut users = nobody(alloc, rows)?;
    for (number, row) in rows.iter().enumerate() {
        add_row(alloc, &mut users, number, row.as_slice())?;
    }
    Ok(users)
}

fn push_all(found: &mut Items<usize>, more: &[usize]) -> Result<(), NoMemory>
    ensures { OnOk result (found.new ≡ found.old ++ more.now) }
{
    for number in more {
        found.push(*number)?;
    }
    Ok(())
}

// Takes the users of one struct away.
#[tactic(auto, using(crate::proofs::Users::taken_set, crate::proofs::Users::taken_past, crate::proofs::Users::got, crate::proofs::Users::got_past))]
fn take_users(alloc: Global, users: &mut Items<Items<usize>>, of: usize) -> Items<usize>
    ensures list { result ≡ spec.users_at users.old of }
    ensures users { users.new ≡ spec.without users.old of }
{
    if of < users.len() {
        users.replace(of, Items::new(alloc))
    } else {
        Items::new(alloc)
    }
}

fn number_in(found: &Items<usize>, place: usize) -> Option<usize>
    ensures { result ≡ slice_get found.now place }
{
    found.get(place).copied()
}

// The first ones, their users, the users of these, and so on.
fn reached(
    alloc: Global,
    users: Items<Items<usize>>,
    first: Items<usize>,
) -> Result<Items<usize>, NoMemory>
    ensures { IfOk result (λ found. spec.IsReached users first found) }
{
    let mut left = users;
    let mut found = first;
    for taken in 0..usize::MAX {
        match number_in(&found, taken) {
            Some(number) => {
                let more = take_users(alloc, &mut left, number);
                push_all(&mut found, more.as_slice())?;
            }
            None => return Ok(found),
        }
    }
    // No list is so long.
    Err(NoMemory)
}

/// The numbers of the structs that have functions in them.

pub(crate) fn holders(alloc: Global, rows: &[Items<FieldType>]) -> Result<Items<usize>, NoMemory>
    ensures { IfOk result (λ found. spec.AreHolders rows.now found) }
{
    let users = users_of(alloc, rows)?;
    let first = direct(alloc, rows)?;
    reached(alloc, users, first)
}
