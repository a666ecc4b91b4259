use super::*;
use std::test::Fail;
use std::thread;
use std::thread::Threads;

#[test]
fn refuses_the_second_growth(rt: HostRuntime) -> Result<(), Fail> {
    let memory = Failing::new(rt.alloc());
    memory.refuse(2);
    let mut bytes = Vec::new(&memory);
    bytes.push(1u8)?;
    assert!(rt; bytes.reserve(100).is_err());
    assert_eq!(rt; bytes.as_slice(), [1u8].as_slice());
    assert_eq!(rt; memory.asked(2), 2);
    bytes.reserve(100)?;
    assert_eq!(rt; memory.asked(2), 3);
    Ok(())
}

#[test]
fn refuses_none_until_told(rt: HostRuntime) -> Result<(), Fail> {
    let memory = Failing::new(rt.alloc());
    let mut bytes = Vec::new(&memory);
    bytes.push(1u8)?;
    bytes.reserve(100)?;
    assert_eq!(rt; memory.asked(0), 2);
    memory.refuse(0);
    bytes.reserve(1000)?;
    assert_eq!(rt; memory.asked(0), 1);
    Ok(())
}

fn pushes<A: Allocator>(memory: A) -> bool {
    let mut bytes = Vec::new(memory);
    bytes.push(7u8).is_ok()
}

fn both_push<R: Threads, A: Allocator + Copy + Send + Sync>(rt: &R, memory: A) -> (bool, bool) {
    thread::join(rt, move || pushes(memory), move || pushes(memory))
}

#[test]
fn threads_share_one_count(rt: HostRuntime) -> Result<(), Fail> {
    let memory = Failing::new(rt.alloc());
    memory.refuse(2);
    let (left, right) = both_push(&rt, &memory);
    assert!(rt; left != right);
    assert_eq!(rt; memory.asked(2), 2);
    Ok(())
}
