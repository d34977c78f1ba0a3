//! Files, standard input and standard output: the trusted edge. These tell nothing of content.
ghost use Rattle.std.specs.Prelude.{◌≡◌, ◌<◌, ◌≤◌, true, false, None, length, IfOk, IsOk, OnOk, OnErr};
ghost use Rattle.std.specs.Io.KnownBytes.{WriteAppends};
ghost use Rattle.outage_ports.specs.Causes.{HasCause, one_more};
ghost use Rattle.outage_ports.specs.Bytes.{Starts, Takes};

use crate::faults::fault;
use crate::{Failed, Shelf, Sink};
use std::fs;
use std::io::Read;
use std::marker::Model;
use std::rt::Files;

// The file that is being read.
#[derive(Drop)]
enum Source<F, I> {
    File(F),
    Input(I),
}

/// Files by path, and standard input under the name `-`.
#[derive(Drop)]
pub struct HostShelf<'r, R: Files + Input> {
    rt: &'r R,
    source: Option<Source<R::File, R::Reader>>,
    faults: u64,
}

impl<'r, R: Files + Input> Model for HostShelf<'r, R> {
    ghost use Rattle.std.specs.Prelude.{is_some};
    ghost use Rattle.outage_ports.specs.Host.{HostState};

    ghost Value = { HostState };

    ghost view = { λ s. record { started = is_some s.source; faults = s.faults } };
}

impl<'r, R: Files + Input> HostShelf<'r, R> {
    /// The files of this host, of which none is started.
    pub fn new(rt: &'r R) -> HostShelf<'r, R>
        ensures nothing_started { result.started ≡ false }
        ensures no_faults { result.faults ≡ 0 }
    {
        HostShelf {
            rt,
            source: None,
            faults: 0,
        }
    }
}

/// Standard output.
#[derive(Drop)]
pub struct HostSink<'r, R: Print> {
    rt: &'r R,
    faults: u64,
}

impl<'r, R: Print> Model for HostSink<'r, R> {
    ghost use Rattle.std.specs.Prelude.{ℕ};

    ghost Value = { ℕ };

    ghost view = { λ s. s.faults };
}

impl<'r, R: Print> HostSink<'r, R> {
    /// The standard output of this host.
    pub fn new(rt: &'r R) -> HostSink<'r, R>
        ensures no_faults { result ≡ 0 }
    {
        HostSink { rt, faults: 0 }
    }
}

impl<R: Print> Sink for HostSink<'_, R> {
    ghost written = { λ _. None };

    ghost faults = { λ sink. sink };

    fn write(&mut self, piece: &[u8]) -> Result<usize, Failed>
        requires { 0 < length piece.now }
        ensures some { IfOk result (λ n. 0 < n) }
        ensures bound { IfOk result (λ n. n ≤ length piece.now) }
        ensures bytes { WriteAppends None None result piece.now }
        ensures cause { HasCause self.old self.new result }
        ensures count { OnErr result (self.new ≡ one_more self.old) }
    {
        match self.rt.write_some(piece) {
            Ok(0) => fault(&mut self.faults),
            Ok(count) => Ok(count),
            Err(_) => fault(&mut self.faults),
        }
    }

    // Nothing is held back: each write gives its bytes to the system.
    fn flush(&mut self) -> Result<(), Failed>
        ensures ok { IsOk result }
        ensures same { self.new ≡ self.old }
        ensures cause { HasCause self.old self.new result }
    {
        Ok(())
    }
}

impl<R: Files + Input> Shelf for HostShelf<'_, R> {
    ghost allows = { λ _. Unit {0} };

    ghost files = { λ _. None };

    ghost left = { λ _. None };

    ghost started = { λ shelf. shelf.started };

    ghost faults = { λ shelf. shelf.faults };

    fn start(&mut self, name: &str) -> Result<(), Failed>
        ensures begun { OnOk result (self.new.started ≡ true) }
        ensures same_started { OnErr result (self.new.started ≡ self.old.started) }
        ensures cause { HasCause self.old.faults self.new.faults result }
        ensures count { OnErr result (self.new.faults ≡ one_more self.old.faults) }
    {
        if name == "-" {
            self.source = Some(Source::Input(self.rt.reader()));
            return Ok(());
        }
        match fs::open(self.rt, name) {
            Ok(file) => {
                self.source = Some(Source::File(file));
                Ok(())
            }
            Err(_) => fault(&mut self.faults),
        }
    }

    fn read(&mut self, into: &mut [u8]) -> Result<usize, Failed>
        requires room { 0 < length into.old }
        requires begun { self.old.started ≡ true }
        ensures begun { self.new.started ≡ true }
        ensures bound { IfOk result (λ n. n ≤ length into.old) }
        ensures cause { HasCause self.old.faults self.new.faults result }
        ensures count { OnErr result (self.new.faults ≡ one_more self.old.faults) }
    {
        let came = match &mut self.source {
            None => return fault(&mut self.faults),
            Some(Source::File(file)) => file.read(into),
            Some(Source::Input(input)) => input.read(into),
        };
        match came {
            Ok(count) => Ok(count),
            Err(_) => fault(&mut self.faults),
        }
    }
}
