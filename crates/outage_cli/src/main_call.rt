//! The top call.
ghost use Rattle.std.specs.Prelude.{◌≡◌, ℕ, map, string_bytes, None, Some};
ghost use Rattle.history_rules.specs.RunLaws.{LinesFollowRules};
ghost use Rattle.history_rules.specs.Shown.{DiagnosisIsPrinted};
ghost use Rattle.command_words.specs.Forms.{command_of, Allows, Trial};
ghost use Rattle.run_rules.specs.Faults.{TellsFaults};
ghost use Rattle.run_rules.specs.Trial.{CompletesTrial};
ghost use Rattle.run_rules.specs.Run.{run_of, IsSilent, IsComplete, IsDue};
ghost use Rattle.run_rules.specs.Ends.{NoneFailed, IsEnd};
ghost use Rattle.outage_cli.specs.Confirmed.{IsOwnConfirmed};

use check_run::run_check;
use command_words::{Command, WordsFault, read_words};
use history_rules::{diagnosis_is_printed, lines_follow_rules};
use outage_ports::{Shelf, Sink};
use replay_laws::replay_is_valid;
use replay_run::run_replay;
use run_rules::Status;
use std::alloc::Global;
use trial_run::run_trial;

/// Does all that the program does: `replay NET EVENTS` reads the network whole and the events in
/// pieces and writes what each event changes, and then the report, with the indices of the period
/// from `--from T` on and up to `--to T`, and with `--bounds` also the table that shows the least
/// cost; `check NET EVENTS REPORT` writes whether the table of a report shows it; `trial N` replays
/// a network and a storm that are made for N feeders, and writes the summary of the report.
///
/// The words are the program's name, which isn't read, and the command's. What is said of the
/// bytes holds where the shelf, or the sink, tells them.
pub fn outage_main<S: Shelf, K: Sink>(
    alloc: Global,
    words: &[String],
    shelf: &mut S,
    out: &mut K,
) -> Status
    requires { Allows S.allows (command_of (map string_bytes words.now)) }

    // How the run ends: what each status says of the words, of the files, of what was left to read
    // and of what was written.
    ensures ends { IsEnd (run_of (S.files shelf.old) (S.left shelf.old) (S.left shelf.new)
        (K.written out.old) (K.written out.new) (command_of (map string_bytes words.now))) result }
    ensures idle { IsSilent (command_of (map string_bytes words.now)) result → out.new ≡ out.old }
    ensures untouched { command_of (map string_bytes words.now) ≡ None
        → (shelf.new ≡ shelf.old) × (out.new ≡ out.old) }

    // A failure comes only with a fault of the shelf or the sink, and each fault is told.
    ensures shelf { TellsFaults (S.faults shelf.old) (S.faults shelf.new)
        (result ≡ Status.ReadFault) }
    ensures out { TellsFaults (K.faults out.old) (K.faults out.new) (result ≡ Status.WriteFault) }

    // Where nothing failed, what the words ask for is done, and each cause to stop is told.
    ensures complete { NoneFailed (S.faults shelf.old) (S.faults shelf.new)
        → NoneFailed (K.faults out.old) (K.faults out.new)
        → IsComplete (S.files shelf.old) (command_of (map string_bytes words.now)) result }
    ensures due { NoneFailed (S.faults shelf.old) (S.faults shelf.new)
        → IsDue (S.files shelf.old) (command_of (map string_bytes words.now)) result }

    // What a replay wrote with its bounds is found valid, by the same network and events.
    ensures own_report { NoneFailed (S.faults shelf.old) (S.faults shelf.new)
        → NoneFailed (K.faults out.old) (K.faults out.new)
        → IsOwnConfirmed (S.files shelf.old) (K.written out.old) (K.written out.new)
        (command_of (map string_bytes words.now)) result }

    // A trial reads no file, and is done whatever the shelf tells.
    ensures trial_reads { (n : ℕ) → command_of (map string_bytes words.now) ≡ Some (Trial n)
        → shelf.new ≡ shelf.old }
    ensures trial_complete { NoneFailed (K.faults out.old) (K.faults out.new) → (n : ℕ)
        → command_of (map string_bytes words.now) ≡ Some (Trial n) → CompletesTrial n result }

    // Each line is skipped, or refused by the first rule that fits, or applied; a well-formed
    // timely order is refused exactly where it would close a loop or names no device. And whoever
    // reads the entries line by line knows the diagnosis.
    ensures rules { LinesFollowRules }
    ensures printed { DiagnosisIsPrinted }
{
    replay_is_valid();
    lines_follow_rules();
    diagnosis_is_printed();
    match read_words(alloc, words) {
        Ok(Command::Replay(places, wish)) => run_replay(alloc, places, wish, shelf, out),
        Ok(Command::Check(places, report)) => run_check(alloc, places, report, shelf, out),
        Ok(Command::Trial(feeders)) => run_trial(alloc, feeders, out),
        Err(WordsFault::Usage) => Status::Usage,
        Err(WordsFault::Memory) => Status::Memory,
    }
}
