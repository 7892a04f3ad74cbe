//! The calls of an event graph that take memory, and how it reads the steps that it keeps.
ghost use Rattle.std.specs.Prelude.{◌≡◌, [], length, IfOk};

use event_graph::{Access, Accesses, Graph, Kind, NewStep, Place, Step, StepView};
use flow_word::OutOfMemory;
use std::alloc::Global;
use std::process::Abort;
use std::test::Fail;

/// A step without an access, this many local clocks after the step before it.
pub(crate) fn step_after(alloc: Global, gap: u64) -> Step
    ensures gap { result.gap ≡ gap }
    ensures accesses { result.accesses ≡ [] }
{
    Step {
        gap,
        accesses: Accesses::new(alloc),
        first_query: 0,
    }
}

/// A step as the test writes it: its gap, its accesses, and how many queries its module made before it.
type Row = (u64, &'static [Access], u64);

/// An access to channel 5.
const QUERY: Access = Access {
    kind: Kind::Empty,
    channel: 5,
    ordinal: 7,
    value: 0,
};

const WRITE: Access = Access {
    kind: Kind::Write,
    channel: 5,
    ordinal: 8,
    value: 3,
};

const TRIED: Access = Access {
    kind: Kind::TryWrite,
    channel: 5,
    ordinal: 9,
    value: u64::MAX,
};

const LATE: Access = Access {
    kind: Kind::Read,
    channel: 5,
    ordinal: 5_000_000_000,
    value: 0,
};

const ZERO: Access = Access {
    kind: Kind::Write,
    channel: 5,
    ordinal: 10,
    value: 0,
};

/// Eight accesses, and with one before them nine.
const EIGHT: [Access; 8] = [TRIED, QUERY, ZERO, WRITE, QUERY, WRITE, TRIED, QUERY];

const NINE: [Access; 9] = [QUERY, TRIED, QUERY, ZERO, WRITE, QUERY, WRITE, TRIED, QUERY];

/// The most accesses of a step that is kept as words, each with a value, and one access more.
const WIDE: [Access; 64] = [TRIED; 64];

const WIDER: [Access; 65] = [QUERY; 65];

/// Steps that a lane keeps in different ways.
const ROWS: [Row; 14] = [
    (1, &[QUERY], 0),
    (100_000, &WIDE, 1),
    (2, &[WRITE, TRIED], 1),
    (3, &[WRITE, QUERY, TRIED], 3),
    (5_000_000_000, &[QUERY], 6),
    (4, &[LATE], 7),
    (5, &[TRIED, QUERY, ZERO, WRITE], 7),
    (6, &EIGHT, 9),
    (7, &[WRITE, QUERY, LATE], 12),
    (8, &NINE, 13),
    (9, &EIGHT, 16),
    (10, &NINE, 18),
    (11, &WIDER, 20),
    (12, &WIDE, 0),
];

/// A step with these accesses.
fn step_with(
    alloc: Global,
    gap: u64,
    items: &[Access],
    first_query: u64,
) -> Result<Step, OutOfMemory>
    ensures gap { IfOk result (λ step. step.gap ≡ gap) }
    ensures accesses { IfOk result (λ step. length step.accesses ≡ length items.now) }
{
    let mut accesses = Accesses::new(alloc);
    for access in items {
        accesses.push(*access)?;
    }
    Ok(Step {
        gap,
        accesses,
        first_query,
    })
}

/// Adds a step to the only module of a graph.
fn add<R: Abort>(
    rt: &R,
    alloc: Global,
    graph: &mut Graph,
    (gap, items, first_query): Row,
) -> Result<(), OutOfMemory> {
    assert!(rt; graph.modules() == 1);
    assert!(rt; 0 < gap && gap <= 5_000_000_000);
    assert!(rt; items.len() < 100);
    let step = step_with(alloc, gap, items, first_query)?;
    graph.push_step(0, NewStep::Whole(step))
}

/// Asserts that the module's step with this number is read back with these parts.
fn is_read<R: Abort>(
    rt: &R,
    graph: &Graph,
    step: u64,
    gap: u64,
    accesses: &[Access],
    first_query: u64,
) {
    assert!(rt; graph.modules() == 1);
    assert!(rt; step < graph.len(0));
    let place = Place { module: 0, step };
    let step = graph.look(place);
    assert_eq!(rt; (step.gap, step.first_query), (gap, first_query));
    assert_eq!(rt; step.accesses.len(), accesses.len() as u64);
    let mut left = accesses;
    for access in step.accesses {
        assert_eq!(rt; Some(&access), left.first());
        left = left.get(1..).unwrap_or(&[]);
    }
    assert_eq!(rt; left.len(), 0);
}

/// A graph of one module with all these steps.
fn graph_of_rows<R: Abort>(rt: &R, alloc: Global) -> Result<Graph, OutOfMemory> {
    let mut graph = Graph::new(alloc, 1)?;
    assert!(rt; graph.modules() == 1);
    graph.reserve(0, 3)?;
    for row in ROWS {
        add(rt, alloc, &mut graph, row)?;
    }
    Ok(graph)
}

#[test]
fn a_copied_step_is_read_as_it_was_added(rt: HostRuntime) -> Result<(), Fail> {
    let mut graph = Graph::new(rt.alloc(), 1)?;
    assert!(rt; graph.modules() == 1);
    let step = StepView {
        gap: 3,
        accesses: &[TRIED],
        first_query: 2,
    };
    graph.push_step(0, NewStep::Few(step))?;
    is_read(&rt, &graph, 0, 3, &[TRIED], 2);
    Ok(())
}

#[test]
fn steps_are_read_as_they_were_added(rt: HostRuntime) -> Result<(), Fail> {
    let graph = graph_of_rows(&rt, rt.alloc())?;
    for (step, (gap, accesses, first_query)) in ROWS.iter().enumerate() {
        is_read(&rt, &graph, step as u64, *gap, accesses, *first_query);
    }
    Ok(())
}
