//! The merged text.
ghost use Rattle.std.specs.Prelude.{◌≡◌, ◌≤◌, ◌++◌, [], List, length, map, OnOk, IfOk};
ghost use Rattle.event_rules.specs.Lines.{lines};
ghost use Rattle.feed_merge.specs.Merging.{Entry, joined, sorted, ended, text_of, merged_list, merged_text};
ghost use Rattle.feed_merge.specs.Heads.{key_in, AreLeft};

use crate::heads::{Head, first_heads, queue_of, take_first};
use due_queue::DueQueue;
use std::alloc::{AllocError, Global};

// Adds a line with its end.
fn put_line(text: &mut Vec<u8>, line: &[u8]) -> Result<(), AllocError>
    ensures { OnOk result (text.new.items ≡ text.old.items ++ ended line.now) }
{
    text.extend_from_slice(line)?;
    text.extend_from_slice(b"\r\n")
}

// Adds all lines that are left, in their order.
fn put_lines(
    text: &mut Vec<u8>,
    queue: &mut DueQueue,
    heads: &mut [Option<Head<'_>>],
) -> Result<(), AllocError>
    requires { queue.old ≡ map key_in heads.old }
    ensures { OnOk result ((parts : List (List Entry)) → AreLeft heads.old parts → text.new.items ≡ text.old.items ++ text_of (sorted (joined parts))) }
{
    'lines: while let Some(line) = take_first(queue, heads) {
        put_line(text, line)?;
    }
    Ok(())
}

/// The lines of up to 16 feeds in one text, each followed by a CR and an LF: by the greatest time
/// that stands in its feed up to the line, then by feed, then as they stand there. An error says
/// that memory ran out.
pub fn merge(alloc: Global, feeds: &[Vec<u8>]) -> Result<Vec<u8>, AllocError>
    requires { length feeds.now ≤ 16 }
    ensures text { IfOk result (λ text. text.items ≡ merged_text (map (λ feed. feed.items) feeds.now)) }
    ensures lines { IfOk result (λ text. lines text.items ≡ map (λ entry. entry.line) (merged_list (map (λ feed. feed.items) feeds.now))) }
{
    let mut heads = first_heads(alloc, feeds)?;
    let mut queue = queue_of(alloc, &heads)?;
    let mut text = Vec::new(alloc);
    put_lines(&mut text, &mut queue, &mut heads)?;
    Ok(text)
}
