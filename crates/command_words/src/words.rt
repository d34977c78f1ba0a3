//! The command words.
ghost use Rattle.std.specs.Prelude.{◌≡◌, ◌≢◌, [], map, string_bytes, Some, None, IfOk, OnOk, IsErrOf};
ghost use Rattle.clap.specs.Words.{app_of, fault_of, subcommand_of, subcommand_rows_of};
ghost use Rattle.command_words.specs.Forms.{HasFeeders, command_of};
ghost use Rattle.command_words.specs.Seen.{command_view};
ghost use Rattle.command_words.specs.Told.{outage_app};

use crate::line::command_line;
use crate::matched::read_matches;
use clap::ArgMatches;
use clap::error::ErrorKind;
use grid_model::Period;
use std::alloc::Global;

/// The files of the network and of the events.
#[derive(Clone, Copy)]
pub struct Places<'a> {
    pub net: &'a str,
    pub events: &'a str,
}

/// What is wished of a replay.
#[derive(Clone, Copy, Debug, PartialEq, Eq)]
pub struct Wish {
    /// Whether the bounds part follows the report.
    pub with_bounds: bool,
    /// The period of the indices.
    pub period: Period,
    /// Whether the entries of each line are handed on at once, and not only with those of others.
    pub at_once: bool,
}

/// What the words ask for.
#[derive(Clone, Copy)]
pub enum Command<'a> {
    /// A replay; also one of events that are followed as they come, from standard input.
    Replay(Places<'a>, Wish),
    /// The check of a report.
    Check(Places<'a>, &'a str),
    /// A trial over so many feeders, from 1 to 100.
    Trial(u32),
}

/// Why the words give no command.
#[derive(Clone, Copy, Debug, PartialEq, Eq)]
pub enum WordsFault {
    /// They are of no form.
    Usage,
    /// Memory ran out.
    Memory,
}

// The matches of the words, where the command line takes them.
#[tactic(none)]
fn parse<'a>(line: clap::Command<'a>, words: &'a [String]) -> Result<ArgMatches<'a>, WordsFault>
    requires { app_of line ≡ outage_app }
    ensures ok { OnOk result (fault_of outage_app (map string_bytes words.entry.now) ≡ []) }
    ensures usage { IsErrOf result WordsFault.Usage → fault_of outage_app (map string_bytes words.entry.now) ≢ [] }
    ensures rows { IfOk result (λ m. subcommand_rows_of m ≡ subcommand_of outage_app (map string_bytes words.entry.now)) }
{
    match line.try_get_matches_from(words) {
        Ok(matches) => Ok(matches),
        Err(error) => match error.kind() {
            ErrorKind::OutOfMemory => Err(WordsFault::Memory),
            _ => Err(WordsFault::Usage),
        },
    }
}

fn read_by<'a>(line: clap::Command<'a>, words: &'a [String]) -> Result<Command<'a>, WordsFault>
    requires { app_of line ≡ outage_app }
    ensures command { IfOk result (λ command. command_of (map string_bytes words.entry.now) ≡ Some (command_view command)) }
    ensures usage { IsErrOf result WordsFault.Usage → command_of (map string_bytes words.entry.now) ≡ None }
    ensures feeders { IfOk result (λ command. HasFeeders (command_view command)) }
{
    match parse(line, words) {
        Ok(matches) => match read_matches(&matches) {
            Some(command) => Ok(command),
            None => Err(WordsFault::Usage),
        },
        Err(fault) => Err(fault),
    }
}

/// The command of the words, of which the first is the program's name and isn't read.
pub fn read_words<'a>(alloc: Global, words: &'a [String]) -> Result<Command<'a>, WordsFault>
    ensures command { IfOk result (λ command. command_of (map string_bytes words.entry.now) ≡ Some (command_view command)) }
    ensures usage { IsErrOf result WordsFault.Usage → command_of (map string_bytes words.entry.now) ≡ None }
    ensures feeders { IfOk result (λ command. HasFeeders (command_view command)) }
{
    match command_line(alloc) {
        Ok(line) => read_by(line, words),
        Err(_) => Err(WordsFault::Memory),
    }
}
