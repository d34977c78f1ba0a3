//! Files in memory, for tests.
ghost use Rattle.std.specs.Prelude.{◌≡◌, ◌↔◌, ◌<◌, ◌≤◌, ◌-◌, ◌+◌, ◌++◌, true, is_some, min, map, option_map, IsErr, IfOk, position, slice_get, OnOk, OnErr, Some, None, [], length, take, drop};
ghost use Rattle.std.specs.List.{list_any};
ghost use Rattle.outage_ports.specs.Causes.{HasCause, one_more};
ghost use Rattle.outage_ports.specs.Bytes.{Starts, Takes};
ghost use Rattle.outage_ports.specs.MemoryShelf.{has_name, file_of, file_named, bars_start, bars_read, left_of, start_fails, read_fails, started_named, moved_by, next_count};

use crate::faults::fault;
use crate::{Failed, Shelf};
use std::marker::Model;

/// A fault that a test asks for, by the name of a file.
#[derive(Drop)]
pub struct Mishap {
    /// The name of the file.
    pub name: String,
    /// The byte at which a read has to begin to fail, from 0; with none each start fails.
    pub at: Option<u64>,
}

impl Model for Mishap {
    ghost use Rattle.std.specs.Prelude.{string_bytes};
    ghost use Rattle.outage_ports.specs.MemoryShelf.{Fault};

    ghost Value = { Fault };

    ghost view = { λ m. record { name = string_bytes m.name; at = m.at } };
}

// The file that was started, by its index, and the byte at which the next read begins.
#[derive(Clone, Copy)]
struct Started {
    index: usize,
    place: usize,
}

/// Files in memory, of which one read gives at most so many bytes.
#[derive(Drop)]
pub struct MemoryShelf {
    files: Vec<(String, Vec<u8>)>,
    mishaps: Vec<Mishap>,
    piece: usize,
    started: Option<Started>,
    faults: u64,
}

impl Model for MemoryShelf {
    ghost use Rattle.std.specs.Prelude.{◌<◌, map};
    ghost use Rattle.outage_ports.specs.MemoryShelf.{ShelfState, file_of, IsWithin};

    ghost Value = { ShelfState };

    ghost use Rattle.outage_ports.specs.Started.{started_file};

    ghost view = { λ s. record { files = map file_of s.files.items; mishaps = s.mishaps.items; piece = s.piece; started = started_file (map file_of s.files.items) s.started; faults = s.faults } };

    ghost invariant = { λ s. (0 < s.piece) × IsWithin (started_file (map file_of s.files.items) s.started) };
}

// The index of the first file of that name.
fn index_of(files: &[(String, Vec<u8>)], name: &str) -> Option<usize>
    ensures { result ≡ position (λ file. has_name name.now (file_of file)) files.now }
{
    files.iter().position(|file| file.0.as_str() == name)
}

// The name and the bytes of the file at an index.
fn file_at(files: &[(String, Vec<u8>)], index: usize) -> (&str, &[u8])
    requires { is_some (slice_get (map file_of files.now) index) ≡ true }
    ensures { slice_get (map file_of files.now) index ≡ Some (record { name = result.0.now; bytes = result.1.now }) }
{
    let (name, bytes) = &files[index];
    (name.as_str(), bytes.as_slice())
}

fn bars_a_start(mishaps: &[Mishap], name: &str) -> bool
    ensures { result ≡ list_any (bars_start name.now) mishaps.now }
{
    mishaps.iter().any(|mishap| mishap.name.as_str() == name && mishap.at.is_none())
}

fn bars_a_read(mishaps: &[Mishap], name: &str, place: u64) -> bool
    ensures { result ≡ list_any (bars_read name.now place) mishaps.now }
{
    mishaps.iter().any(|mishap| mishap.name.as_str() == name && mishap.at == Some(place))
}

impl MemoryShelf {
    /// A shelf of these files, with these faults, of which one read gives at most `piece` bytes.
    /// Of two files with one name the first is meant.
    pub fn new(files: Vec<(String, Vec<u8>)>, mishaps: Vec<Mishap>, piece: usize) -> MemoryShelf
        requires { 0 < piece }
        ensures files { result.files ≡ map file_of files.items }
        ensures mishaps { result.mishaps ≡ mishaps.items }
        ensures piece { result.piece ≡ piece }
        ensures nothing_started { result.started ≡ None }
        ensures no_faults { result.faults ≡ 0 }
    {
        MemoryShelf {
            files,
            mishaps,
            piece,
            started: None,
            faults: 0,
        }
    }
}

impl Shelf for MemoryShelf {
    ghost allows = { λ _. Unit {0} };

    ghost files = { λ shelf. Some (file_named shelf.files) };

    ghost left = { left_of };

    ghost started = { λ shelf. is_some shelf.started };

    ghost faults = { λ shelf. shelf.faults };

    fn start(&mut self, name: &str) -> Result<(), Failed>
        ensures files { Some (file_named self.new.files) ≡ Some (file_named self.old.files) }
        ensures whole { OnOk result (Starts (Some (file_named self.old.files)) (left_of self.new) name.now) }
        ensures begun { OnOk result (is_some self.new.started ≡ true) }
        ensures same_left { OnErr result (left_of self.new ≡ left_of self.old) }
        ensures same_started { OnErr result (is_some self.new.started ≡ is_some self.old.started) }
        ensures cause { HasCause self.old.faults self.new.faults result }
        ensures fails { IsErr result ↔ (start_fails self.old name.now ≡ true) }
        ensures ok { OnOk result (self.new ≡ record self.old { started = started_named self.old.files name.now }) }
        ensures err { OnErr result (self.new ≡ record self.old { faults = one_more self.old.faults }) }
    {
        if bars_a_start(&self.mishaps, name) {
            return fault(&mut self.faults);
        }
        match index_of(&self.files, name) {
            None => fault(&mut self.faults),
            Some(index) => {
                self.started = Some(Started { index, place: 0 });
                Ok(())
            }
        }
    }

    fn read(&mut self, into: &mut [u8]) -> Result<usize, Failed>
        requires room { 0 < length into.old }
        requires begun { is_some self.old.started ≡ true }
        ensures files { Some (file_named self.new.files) ≡ Some (file_named self.old.files) }
        ensures begun { is_some self.new.started ≡ true }
        ensures bound { IfOk result (λ n. n ≤ length into.old) }
        ensures rest { IfOk result (λ n. drop n into.new ≡ drop n into.old) }
        ensures bytes { IfOk result (λ n. Takes (left_of self.old) (left_of self.new) n into.new) }
        ensures same_left { OnErr result (left_of self.new ≡ left_of self.old) }
        ensures cause { HasCause self.old.faults self.new.faults result }
        ensures fails { IsErr result ↔ (read_fails self.old ≡ true) }
        ensures count { IfOk result (λ n. n ≡ next_count self.old (length into.old)) }
        ensures ok { IfOk result (λ n. self.new ≡ record self.old { started = option_map (moved_by n) self.old.started }) }
        ensures err { OnErr result (self.new ≡ record self.old { faults = one_more self.old.faults }) }
    {
        let Started { index, place } = self.started.unwrap();
        let (name, bytes) = file_at(&self.files, index);
        if bars_a_read(&self.mishaps, name, place as u64) {
            return fault(&mut self.faults);
        }
        let count = copy_front(&bytes[place..], self.piece, into);
        self.started = Some(Started {
            index,
            place: place + count,
        });
        Ok(count)
    }
}

// Copies at most `most` bytes to the front of a buffer, and answers how many.
fn copy_front(from: &[u8], most: usize, into: &mut [u8]) -> usize
    requires room { 0 < length into.old }
    requires most { 0 < most }
    ensures count { result ≡ min (min (length from.now) (length into.old)) most }
    ensures rest { drop result into.new ≡ drop result into.old }
    ensures bytes { take result into.new ≡ take result from.now }
{
    let count = from.len().min(into.len()).min(most);
    into[..count].copy_from_slice(&from[..count]);
    count
}
