//! Tests of the room for a module's steps.
use engine_view::Engine;
use event_graph::Graph;
use fifo_table::{FifoTable, TableChannel};
use flow_word::{Port, Side};
use query_log::QueryLog;
use std::test::Fail;

#[test]
fn a_module_has_room_for_many_steps_at_once(rt: HostRuntime) -> Result<(), Fail> {
    let mut ends = Vec::new(rt.alloc());
    ends.push(None)?;
    let mut engine = Engine {
        graph: Graph::new(rt.alloc(), 1)?,
        fifos: FifoTable::new(
            rt.alloc(),
            vec![in rt.alloc(); TableChannel::Fifo { depth: 2, delay: 1 }]?,
        )?,
        log: QueryLog::new(rt.alloc(), 1)?,
        ends,
        credits: vec![in rt.alloc(); 0; 1]?,
    };
    let ports = [Port {
        side: Side::Push,
        channel: 0,
    }];
    engine.make_room(0, &ports, 3)?;
    assert_eq!(rt; engine.credits[0], 512);
    Ok(())
}
