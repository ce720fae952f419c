use hv_items::Items;
use hv_partial::Held;
use hv_report::{refusal_text, report};
use hv_sem_copying::TrapKind;
use hv_task_tree::{End, TaskNode};
use hv_tree::{Place, Refusal, Rule};
use std::alloc::{AllocError as NoMemory, Global};
use std::test::Fail;

const SOURCE: &[u8] = b"fun main() {\n  print(1 / 0)\n}\n";

fn node(alloc: Global, end: End) -> Result<TaskNode, NoMemory> {
    let mut output = Items::new(alloc);
    output.push(b'7')?;
    output.push(b'\n')?;
    Ok(TaskNode {
        used: 12,
        end,
        output,
    })
}

#[test]
fn a_run_has_its_report(rt: HostRuntime) -> Result<(), Fail> {
    let alloc = rt.alloc();
    let at = Place { start: 23 };
    let rows: [(End, bool, &[u8]); 5] = [
        (End::Done(Held::Int(0)), false, b"7\n"),
        (End::Done(Held::Int(0)), true, b"7\ntask 0 steps 12 done\n"),
        (
            End::Trap(TrapKind::DivZero, at),
            false,
            b"7\ntrap divzero at 2:11 in 0\n",
        ),
        (
            End::Trap(TrapKind::TooDeep, at),
            true,
            b"7\ntrap toodeep at 2:11 in 0\ntask 0 steps 12 trap toodeep at 2:11 in 0\n",
        ),
        (
            End::Spent(Place { start: 0 }),
            true,
            b"7\nspent at 1:1 in 0\ntask 0 steps 12 spent at 1:1 in 0\n",
        ),
    ];
    for (end, trace, text) in rows {
        let found = report(alloc, SOURCE, &node(alloc, end)?, trace)?;
        assert_eq!(rt; found.as_slice(), text);
    }
    let refusal = Refusal {
        rule: Rule::T8,
        place: at,
    };
    assert_eq!(rt;
        refusal_text(alloc, SOURCE, refusal)?.as_slice(),
        b"refused T8 at 2:11\n".as_slice()
    );
    Ok(())
}
