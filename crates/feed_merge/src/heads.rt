//! The first lines of what is left of the feeds.
ghost use Rattle.std.specs.Prelude.{◌≡◌, ◌↔◌, ◌≤◌, ◌<◌, ℕ, [], ◌∷◌, List, max, map, length, vec_len, slice_index_or, slice_set, IsNone, IfSome, MatchOption, IfOk};
ghost use Rattle.event_rules.specs.Lines.{lines};
ghost use Rattle.feed_merge.specs.Merging as spec;
ghost use Rattle.feed_merge.specs.Heads.{last_second, key_in, AreLeft, TakesFirst, bytes_left};

use due_queue::DueQueue;
use grid_model::Stamp;
use line_text::{cut_at, next_line, read_stamp};
use std::alloc::{AllocError, Global};

/// The first line of what is left of a feed.
#[derive(Clone, Copy)]
pub(crate) struct Head<'a> {
    // The greatest second of the feed's lines up to this one.
    key: Stamp,
    line: &'a [u8],
    behind: &'a [u8],
}

// What stands before the first comma of a line, and all of it where it has none.
fn first_field(line: &[u8]) -> &[u8]
    ensures { result.now ≡ spec.first_field line.now }
{
    match cut_at(line, b',') {
        Some((field, _)) => field,
        None => line,
    }
}

// The second that a line's first field names, and 0 where it is no stamp.
fn second_of(line: &[u8]) -> Stamp
    ensures second { result.0 ≡ spec.second_of line.now }
    ensures known { result.0 ≤ last_second }
{
    read_stamp(first_field(line)).unwrap_or(Stamp(0))
}

// The head of a text behind lines with this greatest second; none where the text is empty.
fn head_of(key: Stamp, text: &[u8]) -> Option<Head<'_>>
    ensures none { IsNone result ↔ (text.now ≡ []) }
    ensures line { IfSome result (λ head. lines text.now ≡ head.line.now ∷ lines head.behind.now) }
    ensures key { IfSome result (λ head. head.key.0 ≡ max key.0 (spec.second_of head.line.now)) }
    ensures known { key.0 ≤ last_second → IfSome result (λ head. head.key.0 ≤ last_second) }
    ensures shorter { IfSome result (λ head. length head.behind.now < length text.now) }
{
    let (line, behind) = next_line(text)?;
    let key = key.max(second_of(line));
    Some(Head { key, line, behind })
}

/// The heads of whole feeds.
pub(crate) fn first_heads<'a>(
    alloc: Global,
    feeds: &'a [Vec<u8>],
) -> Result<Vec<Option<Head<'a>>>, AllocError>
    ensures len { IfOk result (λ heads. vec_len heads ≡ length feeds.now) }
    ensures left { IfOk result (λ heads. AreLeft heads.items (spec.entries_by_feed 0 (map (λ feed. feed.items) feeds.now))) }
{
    let mut heads = Vec::with_capacity(alloc, feeds.len())?;
    for feed in feeds {
        heads.push(head_of(Stamp(0), feed))?;
    }
    Ok(heads)
}

// Lets a feed wait by its head, where it has one.
fn set_key(queue: &mut DueQueue, feed: u32, head: Option<Head<'_>>)
    requires { feed < length queue.old }
    ensures { queue.new ≡ slice_set queue.old feed (key_in head.entry) }
{
    match head {
        Some(head) => queue.set(feed, head.key),
        None => queue.clear(feed),
    }
}

/// The queue in which the feeds wait by their heads.
pub(crate) fn queue_of(alloc: Global, heads: &[Option<Head<'_>>]) -> Result<DueQueue, AllocError>
    requires { length heads.now ≤ 16 }
    ensures { IfOk result (λ queue. queue ≡ map key_in heads.now) }
{
    let mut queue = DueQueue::new(alloc, heads.len() as u32)?;
    for (feed, head) in heads.iter().enumerate() {
        set_key(&mut queue, feed as u32, *head);
    }
    Ok(queue)
}

/// Takes the line that comes first of all that are left; none where no line is left.
pub(crate) fn take_first<'a>(
    queue: &mut DueQueue,
    heads: &mut [Option<Head<'a>>],
) -> Option<&'a [u8]>
    requires { queue.old ≡ map key_in heads.old }
    ensures queue { queue.new ≡ map key_in heads.new }
    ensures first { (parts : List (List spec.Entry)) → AreLeft heads.old parts → MatchOption result (spec.joined parts ≡ []) (λ line. TakesFirst parts line.now heads.new) }
    ensures fewer { IfSome result (λ _. bytes_left heads.new < bytes_left heads.old) }
{
    let feed = queue.pop_due(Stamp(u64::MAX))?;
    let head = heads[feed as usize]?;
    let next = head_of(head.key, head.behind);
    heads[feed as usize] = next;
    set_key(queue, feed, next);
    Some(head.line)
}
