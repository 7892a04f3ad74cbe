//! The schedule of a block.
ghost use Rattle.std.specs.Prelude.{◌≡◌, IfOk};
ghost use Rattle.session_tests.specs.{tests_at};

use block_schedule::{Schedule, Slot};
use flow_design::{Block, BlockKind, Next, Op, Timed};
use flow_word::{List, OutOfMemory};
use std::alloc::Global;
use std::test::Fail;

/// A block whose operations, at these offsets, each test whether the only channel is empty.
fn block_of_tests(
    alloc: Global,
    kind: BlockKind,
    len: u64,
    offsets: &[u64],
) -> Result<Block, OutOfMemory>
    ensures { IfOk result (λ block. block ≡ tests_at kind len offsets.now) }
{
    let mut ops = List::new(alloc);
    for offset in offsets {
        ops.push(Timed {
            offset: *offset,
            guard: None,
            op: Op::Empty {
                channel: 0,
                target: 0,
            },
        })?;
    }
    Ok(Block {
        kind,
        len,
        temps: List::new(alloc),
        ops,
        next: Next::Stop,
    })
}

/// A slot of the table.
fn slot(rank: u64, op: u32) -> Slot {
    Slot { rank, op }
}

#[test]
fn iterations_overlap(rt: HostRuntime) -> Result<(), Fail> {
    let alloc = rt.alloc();
    let kind = BlockKind::Loop { ii: 2, again: 0 };
    let block = block_of_tests(alloc, kind, 5, [3, 0, 3, 4].as_slice())?;
    let schedule = Schedule::new(alloc, &block)?;
    let slots = [slot(1021, 3), slot(1023, 1), slot(2046, 0), slot(2046, 2)];
    assert_eq!(rt; schedule.slots(), slots.as_slice());
    Ok(())
}
