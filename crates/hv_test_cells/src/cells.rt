ghost use Rattle.std.specs.Prelude.{◌≡◌, IfSome, IfOk};
ghost use Rattle.hv_cell.specs.Tokens.{home_of};

use hv_cell::{Awaiter, Cells, Finished, Finisher, FreeCell, Joined, Parked, Why};
use hv_tree::TaskId;
use std::alloc::{AllocError, Global};
use std::test::Fail;
use std::thread::{Threads, join};

#[derive(Drop)]
struct Out {
    id: TaskId,
    n: u32,
}

// It may hold a right to another cell, which is given up with it.
struct Waiting {
    id: TaskId,
    n: u32,
    child: Option<Awaiter<u8>>,
}

impl Drop for Waiting {
    fn drop(self) {
        let Waiting { id: _, n: _, child } = self;
        match child {
            Some(token) => token.abandon(),
            None => {}
        }
    }
}

#[derive(Drop)]
struct Toy;

impl Joined for Toy {
    ghost use Rattle.std.specs.Prelude.{map};
    ghost use Rattle.std.specs.Option.{option_to_list};

    type Kin = u8;

    type Stack = Waiting;

    type Done = Out;

    ghost done_id = { λ d. d.id };

    ghost awaits = { λ s. s.id };

    ghost done_kin = { λ _. 7 };

    ghost stack_kin = { λ _. 7 };

    ghost tokens = { λ s. map (λ t. t.home) (option_to_list s.child) };
}

// A closure may hold only what is `Drop`, so the parties go to their threads in these.
struct Finishing {
    role: Finisher<u8>,
    id: TaskId,
}

impl Drop for Finishing {
    fn drop(self) {
        let Finishing { role, id: _ } = self;
        role.abandon();
    }
}

struct Parking {
    role: Awaiter<u8>,
    id: TaskId,
}

impl Drop for Parking {
    fn drop(self) {
        let Parking { role, id: _ } = self;
        role.abandon();
    }
}

// The two numbers and the cell, for the later party.
type Both = Option<(u32, u32, FreeCell<u8>)>;

impl Finishing {
    fn bring(self, cells: &Cells<Toy>, n: u32) -> Both
        requires own { self.role.home ≡ home_of cells.now }
        requires result { (cells.now.kin ≡ 7) × (self.id ≡ self.role.task) }
        ensures { IfSome result (λ r. r.2.home ≡ home_of cells.now) }
    {
        let Finishing { role, id } = self;
        match cells.finish(role, Out { id, n }) {
            Finished::First(_) => None,
            Finished::Last(stack, done, cell) => Some((stack.n, done.n, cell)),
        }
    }
}

impl Parking {
    fn bring(self, cells: &Cells<Toy>, n: u32) -> Both
        requires own { self.role.home ≡ home_of cells.now }
        requires stack { (cells.now.kin ≡ 7) × (self.id ≡ self.role.task) }
        ensures { IfSome result (λ r. r.2.home ≡ home_of cells.now) }
    {
        let Parking { role, id } = self;
        match cells.park(role, Waiting { id, n, child: None }) {
            Parked::First(_) => None,
            Parked::Last(stack, done, cell) => Some((stack.n, done.n, cell)),
        }
    }
}

// The parties of a cell that is paired for the root.
fn parties(
    alloc: Global,
    cells: &Cells<Toy>,
    free: FreeCell<u8>,
) -> Result<(Finishing, Parking), AllocError>
    requires own { free.home ≡ home_of cells.now }
    ensures finishing { IfOk result (λ r. (r.0.role.home ≡ home_of cells.now) × (r.0.id ≡ r.0.role.task)) }
    ensures parking { IfOk result (λ r. (r.1.role.home ≡ home_of cells.now) × (r.1.id ≡ r.1.role.task)) }
{
    match (TaskId::root(alloc), TaskId::root(alloc)) {
        (Ok(id), Ok(mine)) => {
            let (f, a) = cells.pair(free, &id);
            Ok((Finishing { role: f, id: mine }, Parking { role: a, id }))
        }
        _ => {
            free.abandon();
            Err(AllocError)
        }
    }
}

// The two parties of a cell, each in a thread. The cell, where exactly one was last and got
// what both brought.
fn round<R: Threads + Sync>(
    rt: &R,
    alloc: Global,
    cells: &Cells<Toy>,
    free: FreeCell<u8>,
) -> Option<FreeCell<u8>>
    requires own { free.home ≡ home_of cells.now }
    requires kin { cells.now.kin ≡ 7 }
    ensures { IfSome result (λ f. f.home ≡ home_of cells.now) }
{
    let Ok((one, two)) = parties(alloc, cells, free) else {
        return None;
    };
    let (one, two) = join(
        rt,
        move || -> Both
            requires { (one.role.home ≡ home_of cells.now) × (cells.now.kin ≡ 7) × (one.id ≡ one.role.task) }
            ensures { IfSome result (λ r. r.2.home ≡ home_of cells.entry.now) }
        { one.bring(cells, 5) },
        move || -> Both
            requires { (two.role.home ≡ home_of cells.now) × (cells.now.kin ≡ 7) × (two.id ≡ two.role.task) }
            ensures { IfSome result (λ r. r.2.home ≡ home_of cells.entry.now) }
        { two.bring(cells, 6) },
    );
    let last = match one {
        Some((stack, done, cell)) => {
            if is_first(two) {
                Some((stack, done, cell))
            } else {
                cell.abandon();
                None
            }
        }
        None => two,
    };
    match last {
        Some((6, 5, cell)) => Some(cell),
        Some((_, _, cell)) => {
            cell.abandon();
            None
        }
        None => None,
    }
}

fn is_first(both: Both) -> bool {
    match both {
        Some((_, _, cell)) => {
            cell.abandon();
            false
        }
        None => true,
    }
}

#[test]
fn exactly_one_party_is_last_in_each_round(rt: HostRuntime) -> Result<(), Fail> {
    let alloc = rt.alloc();
    let (cells, mut free, _watches) = Cells::<Toy>::new(alloc, 1, 1, 7)?;
    let mut cell = free.pop().expect(&rt, "a cell");
    FreeCell::abandon_all(free);
    for _ in 0..1000 {
        cell = round(&rt, alloc, &cells, cell).expect(&rt, "exactly one is last");
    }
    cell.abandon();
    Ok(())
}

#[test]
fn the_later_party_gets_what_both_brought(rt: HostRuntime) -> Result<(), Fail> {
    let alloc = rt.alloc();
    let (cells, mut free, _watches) = Cells::<Toy>::new(alloc, 1, 1, 7)?;
    let cell = free.pop().expect(&rt, "a cell");
    FreeCell::abandon_all(free);

    let (f, a) = parties(alloc, &cells, cell)?;
    assert!(rt; is_first(f.bring(&cells, 5)), "finish is first");
    let (stack, done, cell) = a.bring(&cells, 6).expect(&rt, "park is last");
    assert_eq!(rt; (stack, done), (6, 5), "park has both");

    let (f, a) = parties(alloc, &cells, cell)?;
    assert!(rt; is_first(a.bring(&cells, 8)), "park is first");
    let (stack, done, cell) = f.bring(&cells, 7).expect(&rt, "finish is last");
    assert_eq!(rt; (stack, done), (8, 7), "finish has both");
    cell.abandon();
    Ok(())
}

#[test]
fn a_cell_that_was_unpaired_pairs_again(rt: HostRuntime) -> Result<(), Fail> {
    let alloc = rt.alloc();
    let id = TaskId::root(alloc)?;
    let (cells, mut free, _watches) = Cells::<Toy>::new(alloc, 1, 1, 7)?;
    let cell = free.pop().expect(&rt, "a cell");
    FreeCell::abandon_all(free);
    let (f, a) = cells.pair(cell, &id);
    let (f, a) = parties(alloc, &cells, cells.unpair(f, a))?;
    assert!(rt; is_first(f.bring(&cells, 5)), "finish is first");
    let (stack, done, cell) = a.bring(&cells, 6).expect(&rt, "park is last");
    assert_eq!(rt; (stack, done), (6, 5), "park has both");
    cell.abandon();
    Ok(())
}

#[test]
fn a_stop_is_seen(rt: HostRuntime) -> Result<(), Fail> {
    let (cells, free, mut watches) = Cells::<Toy>::new(rt.alloc(), 1, 2, 7)?;
    FreeCell::abandon_all(free);
    let mut one = watches.pop().expect(&rt, "a watch");
    let mut two = watches.pop().expect(&rt, "another watch");
    assert!(rt; cells.stopped(&mut one).is_none(), "nobody stopped");
    cells.stop(&mut one, Why::NoMemory);
    assert_eq!(rt;
        cells.stopped(&mut one),
        Some(Why::NoMemory),
        "its own stop"
    );
    assert_eq!(rt;
        cells.stopped(&mut two),
        Some(Why::NoMemory),
        "another's stop"
    );
    cells.stop(&mut two, Why::Finished);
    assert_eq!(rt;
        cells.stopped(&mut one),
        Some(Why::Finished),
        "Finished goes first"
    );
    Ok(())
}
