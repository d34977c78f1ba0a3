//! A caller that knows of the top call no more than how it ends.
ghost use Rattle.std.specs.Prelude.{◌≡◌, map, string_bytes, Some};
ghost use Rattle.outage_ports.specs.Bytes.{Files};
ghost use Rattle.command_words.specs.Forms.{command_of, Allows, Places, Replay};
ghost use Rattle.command_words.specs.declared.words.Wish.{Wish};
ghost use Rattle.run_tests.specs.Shown.{PrintsLeast};

use crate::worked::{files, words};
use outage_cli::{Status, outage_main};
use outage_ports::{MemoryShelf, MemorySink, Shelf, Sink};
use std::alloc::Global;
use std::test::Fail;

// Runs the words. Where that is a replay that is done, the rows that were written show a feasible
// set, and no feasible set costs less.
fn run_words<S: Shelf, K: Sink>(
    alloc: Global,
    words: &[String],
    shelf: &mut S,
    out: &mut K,
) -> Status
    requires { Allows S.allows (command_of (map string_bytes words.now)) }
    ensures { result ≡ Status.Done → (files : Files) → (places : Places) → (wish : Wish)
        → S.files shelf.old ≡ Some files
        → command_of (map string_bytes words.now) ≡ Some (Replay places wish)
        → PrintsLeast (K.written out.old) (K.written out.new) }
{
    outage_main(alloc, words, shelf, out)
}

#[test]
fn knows_what_is_printed(rt: HostRuntime) -> Result<(), Fail> {
    let alloc = rt.alloc();
    let mut shelf = MemoryShelf::new(files(alloc)?, Vec::new(alloc), 4096);
    let mut out = MemorySink::new(alloc, Vec::new(alloc), 4096, 10_000)?;
    let given = words(alloc, "outage replay tree.net calls.events")?;
    let status = run_words(alloc, &given, &mut shelf, &mut out);
    assert_eq!(rt; status, Status::Done);
    Ok(())
}
