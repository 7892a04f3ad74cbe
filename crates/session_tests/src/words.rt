//! Every call of lists, words and numbers, at least once.
use flow_word::{
    Access, Accesses, Boxed, Flags, Kind, List, NumberFault, Queue, RoomyList, TryCopy, Words,
    read_number,
};
use std::test::Fail;

#[test]
fn lists_grow(rt: HostRuntime) -> Result<(), Fail> {
    let alloc = rt.alloc();
    let mut words: Words = List::with_room(alloc, 3)?;
    words.push(7)?;
    words.extend_from_slice(&[8, 9])?;
    assert_eq!(rt; words.as_slice(), [7, 8, 9].as_slice());
    assert_eq!(rt; words.try_copy(alloc)?, words);
    assert_eq!(rt; Words::zeros(alloc, 2)?, List::from_slice(alloc, &[0, 0])?);
    let flags: Flags = List::from_slice(alloc, &[true])?;
    assert_eq!(rt; flags.len(), 1);
    Ok(())
}

#[test]
fn queues_and_reserved_room(rt: HostRuntime) -> Result<(), Fail> {
    let alloc = rt.alloc();
    let mut queue = Queue::new(alloc);
    queue.push(4u64)?;
    queue.push(5)?;
    assert_eq!(rt; queue.pop(), Some(4));
    assert_eq!(rt; queue.front(), Some(5));
    let mut places = RoomyList::new(alloc);
    places.reserve(1)?;
    places.push(6u64)?;
    assert_eq!(rt; places.as_slice(), [6].as_slice());
    Ok(())
}

#[test]
fn accesses_and_boxes(rt: HostRuntime) -> Result<(), Fail> {
    let alloc = rt.alloc();
    let read = Access {
        kind: Kind::Read,
        channel: 1,
        ordinal: 2,
        value: 0,
    };
    let mut accesses = Accesses::new(alloc);
    for _ in 0..3 {
        accesses.push(read)?;
    }
    assert_eq!(rt; accesses.as_slice(), [read, read, read].as_slice());
    let boxed = Boxed::new(alloc, 11u64)?;
    assert_eq!(rt; *boxed.get(), 11);
    Ok(())
}

#[test]
fn numbers(rt: HostRuntime) {
    assert_eq!(rt; read_number(b"0018446744073709551615"), Ok(u64::MAX));
    assert_eq!(rt;
        read_number(b"18446744073709551616"),
        Err(NumberFault::TooLarge)
    );
    assert_eq!(rt; read_number(b"12x"), Err(NumberFault::NotDigit(2)));
}
