//! The worked network, its calls, and what a replay of them writes.
use std::alloc::{AllocError, Global};

pub(crate) const NET: &str = "source,S
device,B1,breaker,S,A,closed,-
device,F1,fuse,A,C,closed,-
device,T1,transformer,A,D,closed,-
device,T2,transformer,A,E,closed,-
meter,M1,C,10
meter,M2,C,20
meter,M3,D,5
meter,M4,E,5
";

pub(crate) const CALLS: &str = "2024-03-01T10:00:00Z,call,M1
2024-03-01T10:01:00Z,call,M2
";

pub(crate) const WRITTEN: &str = "cost,1,30
enters,2,F1
cost,2,40
report,2024-03-01T10:01:00Z
counts,2,0
total,40
outage,F1,none,2,30,2024-03-01T10:00:00Z,plain
crew,1,F1
line,M1,2024-03-01T10:01:00Z,open
line,M2,2024-03-01T10:01:00Z,open
index,saifi,0/1,0.0000
index,saidi,0/1,0.0000
index,caidi,none
end
";

/// The network, and its calls as a file and as standard input.
pub(crate) fn files(alloc: Global) -> Result<Vec<(String, Vec<u8>)>, AllocError> {
    let mut files = Vec::new(alloc);
    for (name, text) in [("tree.net", NET), ("calls.events", CALLS), ("-", CALLS)] {
        let name = String::from_str(alloc, name)?;
        files.push((name, text.as_bytes().to_vec(alloc)?))?;
    }
    Ok(files)
}

/// The words of a command line.
pub(crate) fn words(alloc: Global, line: &str) -> Result<Vec<String>, AllocError> {
    line.split(' ')
        .map(|word| String::from_str(alloc, word))
        .try_collect(alloc)
}
