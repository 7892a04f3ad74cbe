use flow_text::Names;
use std::test::Fail;

#[test]
fn names_once(rt: HostRuntime) -> Result<(), Fail> {
    let mut names = Names::new(rt.alloc());
    names.add(b"b")?;
    assert_eq!(rt; names.has(b"b"), true);
    assert_eq!(rt; names.has(b"B"), false);
    names.clear();
    assert_eq!(rt; names.has_room(1), true);
    Ok(())
}
