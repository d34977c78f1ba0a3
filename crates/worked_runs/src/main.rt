//! Worked runs: for each line of the file `cases` a run of the top call over files in memory. Prints
//! the line, what the run wrote, and how it ended.
#![tactic(auto)]

use anyhow::{Context, Result, ensure};
use outage_cli::{Status, outage_main};
use outage_ports::{MemoryShelf, MemorySink};
use std::alloc::Global;
use std::io::Write;
use std::rt::Files;
use std::{fs, io};

// How many bytes a run may write.
const ROOM: usize = 1_048_576;

// The files that the words name, each under its word, and standard input under its own name. What
// can't be read is missing.
fn files_of<R: Files + AllocGlobal>(
    rt: &R,
    words: &[String],
    input: &str,
) -> io::Result<Vec<(String, Vec<u8>)>> {
    let mut files = Vec::new(rt.alloc());
    for word in words {
        if let Ok(bytes) = fs::read(rt, word.as_str()) {
            files.push((word.clone()?, bytes))?;
        }
    }
    if let Ok(bytes) = fs::read(rt, input) {
        files.push((String::from_str(rt.alloc(), "-")?, bytes))?;
    }
    Ok(files)
}

// The status of the top call over files and an output in memory.
fn call_main(
    alloc: Global,
    words: &[String],
    shelf: &mut MemoryShelf,
    sink: &mut MemorySink,
) -> Status {
    outage_main(alloc, words, shelf, sink)
}

// Runs the words of a line. In front of them stand how many bytes one read gives and one write takes
// at most, and the file that is standard input.
fn run_case<R: Files + Print + AllocGlobal>(rt: &R, case: &str) -> Result<()> {
    let mut parts = case.split(' ');
    let piece = parts.next().context("no piece")?.parse::<usize>()?;
    ensure!(piece > 0, "an empty piece");
    let input = parts.next().context("no standard input")?;
    let words: Vec<String> = parts
        .map(|word| String::from_str(rt.alloc(), word))
        .try_collect(rt.alloc())?;
    let files = files_of(rt, &words, input)?;
    let mut shelf = MemoryShelf::new(files, Vec::new(rt.alloc()), piece);
    let mut sink = MemorySink::new(rt.alloc(), Vec::new(rt.alloc()), piece, ROOM)?;
    let status = call_main(rt.alloc(), &words, &mut shelf, &mut sink);
    println!(rt; "> {case}")?;
    io::writer(rt).write_all(sink.bytes())?;
    println!(rt; "status {status:?}")?;
    Ok(())
}

fn main(rt: HostRuntime) -> Result<()> {
    let cases = fs::read_to_string(&rt, "cases")?;
    for case in cases.lines() {
        if !case.is_empty() && !case.starts_with('#') {
            run_case(&rt, case)?;
        }
    }
    Ok(())
}
