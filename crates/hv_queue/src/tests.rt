//! Queues worked out by hand.

use super::*;
use std::test::Fail;

#[test]
fn takes_the_first_of_the_greatest_priority(rt: HostRuntime) -> Result<(), Fail> {
    let mut queue = Queue::new(rt.alloc())?;
    assert!(rt; queue.pop_head().is_none());
    assert!(rt; queue.pop_last().is_none());
    queue.push(1, 3);
    queue.push(2, 5);
    queue.push(3, 5);
    assert!(rt; queue.head() == Some(2));
    assert!(rt; queue.last().map(|entry| entry.vcpu) == Some(3));
    assert!(rt; queue.pop_last() == Some((3, 5)));
    queue.remove(2);
    assert!(rt; queue.pop_head() == Some(1));
    assert!(rt; queue.pop_head().is_none());
    Ok(())
}

#[test]
fn holds_each_vcpu_once(rt: HostRuntime) -> Result<(), Fail> {
    let mut queue = Queue::new(rt.alloc())?;
    for vcpu in 0..33u8 {
        queue.push(vcpu, 3);
    }
    for vcpu in 0..33u8 {
        queue.push(vcpu, 3);
    }
    assert!(rt; queue.len() == 33);
    queue.push(0, 2);
    assert!(rt; queue.head() == Some(1));
    assert!(rt; queue.pop_last() == Some((0, 2)));
    assert!(rt; queue.len() == 32);
    Ok(())
}
