//! The calls of a query log that take memory, and the one that the engine has no use for.
use query_log::QueryLog;
use std::test::Fail;

#[test]
fn outcomes_are_added_where_there_is_room(rt: HostRuntime) -> Result<(), Fail> {
    let mut log = QueryLog::new(rt.alloc(), 2)?;
    log.reserve(1, 1)?;
    log.add(1, true);
    log.assume_from(1, 0);
    assert_eq!(rt; (log.len(1), log.verified(1)), (1, 0));
    log.verify_next(1);
    assert_eq!(rt; log.verified(1), 1);
    Ok(())
}
