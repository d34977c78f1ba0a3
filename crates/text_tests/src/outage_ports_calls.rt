//! A file of the host, its standard output, and both objects in memory.
use outage_ports::{
    Failed, HostShelf, HostSink, MemoryShelf, MemorySink, Mishap, Shelf, Sink, put_all,
};
use std::alloc::{AllocError, Global};
use std::fs;
use std::process::Abort;
use std::test::Fail;

const PATH: &str = "outage_ports_test.txt";

#[test]
fn reads_a_file_of_the_host(rt: HostRuntime) -> Result<(), Fail> {
    fs::write(&rt, PATH, "depot\n")?;
    let mut shelf = HostShelf::new(&rt);
    let mut piece = [b'.'; 8];
    assert!(rt; shelf.start(PATH).is_ok());
    assert_eq!(rt; shelf.read(&mut piece), Ok(6));
    assert_eq!(rt; piece.as_slice(), b"depot\n..".as_slice());
    assert_eq!(rt; shelf.read(&mut piece), Ok(0));
    fs::remove_file(&rt, PATH)?;
    assert_eq!(rt; shelf.start(PATH), Err(Failed));
    Ok(())
}

#[test]
fn writes_to_the_host(rt: HostRuntime) {
    let mut sink = HostSink::new(&rt);
    assert_eq!(rt; put_all(&mut sink, b"written\n"), Ok(()));
    assert_eq!(rt; sink.flush(), Ok(()));
}

fn files(alloc: Global) -> Result<Vec<(String, Vec<u8>)>, AllocError> {
    let mut files = Vec::new(alloc);
    for (name, text) in [("net", "a feeder"), ("net", "another"), ("shut", "")] {
        let name = String::from_str(alloc, name)?;
        files.push((name, text.as_bytes().to_vec(alloc)?))?;
    }
    Ok(files)
}

fn mishaps(alloc: Global) -> Result<Vec<Mishap>, AllocError> {
    let mut mishaps = Vec::new(alloc);
    for (name, at) in [("net", Some(5)), ("shut", None)] {
        let name = String::from_str(alloc, name)?;
        mishaps.push(Mishap { name, at })?;
    }
    Ok(mishaps)
}

#[test]
fn reads_from_memory(rt: HostRuntime) -> Result<(), AllocError> {
    let mut shelf = MemoryShelf::new(files(rt.alloc())?, mishaps(rt.alloc())?, 5);
    let mut piece = [b'.'; 8];
    assert!(rt; shelf.start("net").is_ok());
    assert_eq!(rt; shelf.start("shut"), Err(Failed));
    assert_eq!(rt; shelf.start("other"), Err(Failed));
    assert_eq!(rt; shelf.read(&mut piece), Ok(5));
    assert_eq!(rt; piece.as_slice(), b"a fee...".as_slice());
    assert_eq!(rt; shelf.read(&mut piece), Err(Failed));
    Ok(())
}

#[test]
fn writes_to_memory(rt: HostRuntime) -> Result<(), AllocError> {
    let failing = [1, 3].as_slice().to_vec(rt.alloc())?;
    let mut sink = MemorySink::new(rt.alloc(), failing, 3, 5)?;
    assert_eq!(rt; sink.write(b"cuts"), Ok(3));
    assert_eq!(rt; sink.write(b"s"), Err(Failed));
    assert_eq!(rt; sink.flush(), Ok(()));
    assert_eq!(rt; sink.flush(), Err(Failed));
    assert_eq!(rt; put_all(&mut sink, b"s 2"), Err(Failed));
    assert_eq!(rt; sink.bytes(), b"cuts ".as_slice());
    Ok(())
}
