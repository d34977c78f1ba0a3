//! The program: the host's files and output under the top call.
#![tactic(auto)]

use outage_cli::{Status, outage_main};
use outage_ports::{HostShelf, HostSink};
use std::io::ErrorKind;
use std::process::ExitCode;
use std::rt::Env;
use std::{env, io};

// The command words.
fn words_of<R: Env + AllocGlobal>(rt: &R) -> io::Result<Vec<String>> {
    let args = env::args(rt)?;
    Ok(args.collect(rt.alloc())?)
}

// The line of a status on standard error.
fn tell<R: Eprint>(rt: &R, status: Status) -> io::Result<()> {
    match status {
        Status::Done | Status::Invalid { .. } => Ok(()),
        Status::Usage => eprintln!(rt;
            "outage: usage: replay NET EVENTS [--bounds] [--from T] [--to T], follow NET, check NET EVENTS REPORT, trial N"
        ),
        Status::ReadFault => eprintln!(rt; "outage: a read failed"),
        Status::WriteFault => eprintln!(rt; "outage: a write failed"),
        Status::NetworkRefused { line, rule } => {
            eprintln!(rt; "outage: network line {line}: {rule}")
        }
        Status::ReportRefused { line, rule } => {
            eprintln!(rt; "outage: report line {line}: {rule}")
        }
        Status::Limit { which } => eprintln!(rt; "outage: limit: {which}"),
        Status::Memory => eprintln!(rt; "outage: no memory"),
    }
}

fn main(rt: HostRuntime) -> ExitCode {
    let words = match words_of(&rt) {
        Ok(words) => words,
        Err(error) => {
            if error.kind() == ErrorKind::OutOfMemory {
                let _ = tell(&rt, Status::Memory);
                return ExitCode::from(Status::Memory.number());
            }
            let _ = eprintln!(rt; "outage: the command words can't be read");
            return ExitCode::from(11);
        }
    };
    let mut shelf = HostShelf::new(&rt);
    let mut out = HostSink::new(&rt);
    let status = outage_main(rt.alloc(), &words, &mut shelf, &mut out);
    let _ = tell(&rt, status);
    ExitCode::from(status.number())
}
