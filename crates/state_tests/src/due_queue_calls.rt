//! What a queue takes out, one after the other.
use due_queue::DueQueue;
use grid_model::Stamp;
use std::alloc::AllocError;
use std::process::Abort;

// Takes out what is due, at one time after another.
fn check(rt: &impl Abort, queue: &mut DueQueue, due: &[(u64, Option<u32>)]) {
    for (now, key) in due {
        assert!(rt; queue.pop_due(Stamp(*now)) == *key);
    }
}

#[test]
fn takes_out_in_order(rt: HostRuntime) -> Result<(), AllocError> {
    let mut queue = DueQueue::new(rt.alloc(), 6)?;
    queue.set(5, Stamp(10));
    queue.set(0, Stamp(30));
    queue.set(3, Stamp(10));
    queue.set(4, Stamp(5));
    queue.set(1, Stamp(20));
    queue.set(0, Stamp(10));
    queue.clear(4);
    assert!(rt; queue.time_of(0) == Some(Stamp(10)) && queue.time_of(4).is_none());
    let due = [
        (9, None),
        (10, Some(0)),
        (15, Some(3)),
        (10, Some(5)),
        (19, None),
        (u64::MAX, Some(1)),
        (u64::MAX, None),
    ];
    check(&rt, &mut queue, &due);
    Ok(())
}
