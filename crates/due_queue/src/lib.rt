//! A queue of keys by time: a key's time may be changed or dropped, and the keys whose time has
//! come are taken out, the earliest first.
#![tactic(auto)]

ghost use Rattle.std.specs.Prelude.{◌≡◌, IfOk};
ghost use Rattle.std.specs.List.{range_with_len};

mod heap;

use crate::heap::{put, take_out};
use grid_model::Stamp;
use std::alloc::{AllocError, Global};
use std::marker::Model;

/// A time for some of the keys below a capacity. In contracts it is the list of the times by key,
/// none where the key has none.
#[derive(Drop)]
pub struct DueQueue {
    // All keys. Those with a time come first, and are a binary heap by time and key.
    heap: Vec<u32>,
    // Where each key stands in the heap.
    place: Vec<u32>,
    // By key. Of a key that has no time, an earlier one may stand here.
    times: Vec<u64>,
    // How many keys have a time.
    count: usize,
}

impl Model for DueQueue {
    ghost use Rattle.std.specs.Prelude.{List, Option, ℕ};

    ghost Value = { List (Option ℕ) };

    ghost use Rattle.due_queue.specs.Inside.{times_of, IsQueueInside};

    ghost view = { times_of };

    ghost invariant = { IsQueueInside };
}

impl DueQueue {
    ghost use Rattle.std.specs.Prelude.{◌≡◌, ◌<◌, ◌↔◌, ℕ, Some, None, length, replicate, slice_index_or, slice_set, option_map, IfOk, IfSome, IsNone, MatchOption};
    ghost use Rattle.due_queue.specs.Due.{IsNothingDue, IsFirstDue};

    /// No key below the capacity has a time. An error says that memory ran out: no other call takes
    /// any.
    pub fn new(alloc: Global, capacity: u32) -> Result<DueQueue, AllocError>
        ensures { IfOk result (λ queue. queue ≡ replicate capacity None) }
    {
        Ok(DueQueue {
            heap: numbers(alloc, capacity)?,
            place: numbers(alloc, capacity)?,
            times: vec![in alloc; 0; capacity as usize]?,
            count: 0,
        })
    }

    /// Gives the key, which is below the capacity, this time in place of any that it had.
    pub fn set(&mut self, key: u32, at: Stamp)
        requires { key < length self.old }
        ensures { self.new ≡ slice_set self.old key (Some at.0) }
    {
        self.count = put(
            &mut self.heap,
            &mut self.place,
            &mut self.times,
            self.count,
            key,
            at.0,
        );
    }

    /// Takes any time from the key, which is below the capacity.
    pub fn clear(&mut self, key: u32)
        requires { key < length self.old }
        ensures { self.new ≡ slice_set self.old key None }
    {
        self.count = take_out(
            &mut self.heap,
            &mut self.place,
            &self.times,
            self.count,
            key,
        );
    }

    /// The time of the key, which is below the capacity.
    pub fn time_of(&self, key: u32) -> Option<Stamp>
        requires { key < length self.now }
        ensures { option_map (λ t. t.0) result ≡ slice_index_or self.now key None }
    {
        let place = self.place[key as usize] as usize;
        if place < self.count {
            Some(Stamp(self.times[key as usize]))
        } else {
            None
        }
    }

    /// The key of the earliest time, and of its keys the least, if that time is at most now: it has
    /// no time afterwards.
    pub fn pop_due(&mut self, now: Stamp) -> Option<u32>
        ensures none { IsNone result ↔ IsNothingDue self.old now.0 }
        ensures first { IfSome result (λ key. IsFirstDue self.old now.0 key) }
        ensures below { IfSome result (λ key. key < length self.old) }
        ensures after { MatchOption result (self.new ≡ self.old) (λ key. self.new ≡ slice_set self.old key None) }
    {
        if self.count == 0 {
            return None;
        }
        let key = self.heap[0];
        if self.times[key as usize] > now.0 {
            return None;
        }
        self.clear(key);
        Some(key)
    }
}

// The numbers below a count.
fn numbers(alloc: Global, count: u32) -> Result<Vec<u32>, AllocError>
    ensures { IfOk result (λ v. v.items ≡ range_with_len 0 count) }
{
    (0..count).collect(alloc)
}
