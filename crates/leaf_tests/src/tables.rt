//! The calls of a FIFO table that take memory.
use fifo_table::{FifoTable, TableChannel};
use flow_word::Place;
use std::test::Fail;

#[test]
fn pushes_and_pops_are_kept(rt: HostRuntime) -> Result<(), Fail> {
    let channels = vec![in rt.alloc(); TableChannel::Fifo { depth: 2, delay: 5 }]?;
    let mut table = FifoTable::new(rt.alloc(), channels)?;
    table.reserve(0, 2, 1)?;
    table.add_push(0, Place { module: 0, step: 4 }, 31)?;
    table.add_pop(0, Place { module: 1, step: 6 })?;
    assert_eq!(rt; (table.value(0, 1), table.value(0, 2)), (Some(31), None));
    assert_eq!(rt; (table.pushes(0), table.pops(0)), (1, 1));
    Ok(())
}
