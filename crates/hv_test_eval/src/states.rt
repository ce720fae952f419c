use hv_eval_state::{
    Access, Halt, Mode, Spot, Task, binary, close_all, copy_there, decides, look, number, open,
    pay, pay_size, print, put_there, set_local, take_there, truth, unary,
};
use hv_items::Items;
use hv_partial::{Held, Link};
use hv_sem_copying::TrapKind;
use hv_tree::{Operator, Place};
use std::alloc::{AllocError as NoMemory, Global};
use std::test::Fail;

// Locals 0, the struct `(1, 2)`, and 1, the number 5.
fn sample(alloc: Global) -> Result<Task, NoMemory> {
    let mut parts = Items::new(alloc);
    parts.push(Held::Int(1))?;
    parts.push(Held::Int(2))?;
    let mut locals = Items::new(alloc);
    set_local(&mut locals, 0, Held::Struct(parts))?;
    set_local(&mut locals, 1, Held::Int(5))?;
    Ok(Task {
        steps: 10,
        output: Items::new(alloc),
        locals,
    })
}

fn step(alloc: Global, task: &mut Task) -> Result<(), Halt> {
    let at = Place { start: 3 };
    let spot = look(alloc, task, 0, &[Link::Field(1)])?;
    let copy = copy_there(alloc, task, &spot, at)?;
    let access = Access {
        mode: Mode::Writes,
        reference: 2,
        place: spot,
    };
    open(alloc, task, &access)?;
    let sum = binary(task, Operator::Add, at, &copy, &Held::Int(40))?;
    let all = Spot {
        root: 2,
        path: Items::new(alloc),
    };
    put_there(task, &all, sum)?;
    let mut accesses = Vec::new(alloc);
    accesses.push(access).map_err(NoMemory::from)?;
    close_all(task, accesses)?;
    let first = look(alloc, task, 0, &[Link::Field(0)])?;
    let taken = take_there(alloc, task, &first)?;
    print(alloc, task, &taken)?;
    pay(task, 2, at)?;
    pay_size(task, &taken, at)?;
    let back = look(alloc, task, 0, &[Link::Field(1)])?;
    let changed = copy_there(alloc, task, &back, at)?;
    print(alloc, task, &changed)?;
    let _ = number(task, &changed)?;
    let _ = truth(task, &Held::Bool(decides(Operator::And, &changed)))?;
    let _ = unary(task, Operator::Neg, at, &Held::Int(i64::MIN))?;
    Ok(())
}

#[test]
fn an_access_changes_its_place_when_it_closes(rt: HostRuntime) -> Result<(), Fail> {
    let alloc = rt.alloc();
    let mut task = sample(alloc)?;
    let end = step(alloc, &mut task);
    assert_eq!(rt;
        end,
        Err(Halt::Trap(TrapKind::Overflow, Place { start: 3 }))
    );
    assert_eq!(rt; task.output.as_slice(), "1\n42\n".as_bytes());
    assert_eq!(rt; task.steps, 5);
    Ok(())
}
