//! The command that matches of the command line give.
ghost use Rattle.std.specs.Prelude.{◌≡◌, Bool, Some, option_map, option_and_then, codes};
ghost use Rattle.clap.specs.Words.{found_of, rows_of, subcommand_rows_of};
ghost use Rattle.command_words.specs.Matched.{IsKnown, command_by_name, own_reads, replay_in, check_in, check_with, trial_in, follow_in, flag_in, places_by};
ghost use Rattle.command_words.specs.Seen.{command_view, places_view};
ghost use Rattle.std.specs.Option.{option_copied};
ghost use Rattle.command_words.specs.Forms.{replay_by, trial_over, follow_on};

use crate::given::{follow_wish, read_feeders, read_wish};
use crate::words::{Command, Places, Wish};
use clap::ArgMatches;

fn places_of<'a>(net: Option<&'a str>, events: Option<&'a str>) -> Option<Places<'a>>
    ensures { option_map places_view result ≡ places_by (option_copied net.entry) (option_copied events.entry) }
{
    match (net, events) {
        (Some(net), Some(events)) => Some(Places { net, events }),
        _ => None,
    }
}

fn replay_of<'a>(places: Option<Places<'a>>, wish: Option<Wish>) -> Option<Command<'a>>
    ensures { option_map command_view result ≡ replay_by (option_map places_view places.entry) wish }
{
    match (places, wish) {
        (Some(places), Some(wish)) => Some(Command::Replay(places, wish)),
        _ => None,
    }
}

fn check_of<'a>(places: Option<Places<'a>>, report: Option<&'a str>) -> Option<Command<'a>>
    ensures { option_map command_view result ≡ check_with (option_map places_view places.entry) (option_copied report.entry) }
{
    match (places, report) {
        (Some(places), Some(report)) => Some(Command::Check(places, report)),
        _ => None,
    }
}

fn read_replay<'a>(matches: &ArgMatches<'a>) -> Option<Command<'a>>
    requires { (b : Bool) × (flag_in (rows_of (found_of matches.now)) ≡ Some b) }
    ensures { option_map command_view result ≡ replay_in (rows_of (found_of matches.now)) }
{
    let net = matches.get_str("net");
    let events = matches.get_str("events");
    let with_bounds = matches.get_flag("bounds");
    let from = matches.get_str("from");
    let until = matches.get_str("to");
    replay_of(places_of(net, events), read_wish(with_bounds, from, until))
}

fn read_check<'a>(matches: &ArgMatches<'a>) -> Option<Command<'a>>
    ensures { option_map command_view result ≡ check_in (rows_of (found_of matches.now)) }
{
    let net = matches.get_str("net");
    let events = matches.get_str("events");
    let report = matches.get_str("report");
    check_of(places_of(net, events), report)
}

fn trial_of<'a>(feeders: Option<&str>) -> Option<Command<'a>>
    ensures { option_map command_view result ≡ option_and_then trial_over (option_copied feeders.entry) }
{
    Some(Command::Trial(read_feeders(feeders?)?))
}

fn read_trial<'a>(matches: &ArgMatches<'a>) -> Option<Command<'a>>
    ensures { option_map command_view result ≡ trial_in (rows_of (found_of matches.now)) }
{
    trial_of(matches.get_str("n"))
}

// The name of standard input.
const INPUT: &str = "-";

fn follow_of<'a>(net: Option<&'a str>) -> Option<Command<'a>>
    ensures { option_map command_view result ≡ option_and_then follow_on (option_copied net.entry) }
{
    let net = net?;
    Some(Command::Replay(Places { net, events: INPUT }, follow_wish()))
}

fn read_follow<'a>(matches: &ArgMatches<'a>) -> Option<Command<'a>>
    ensures { option_map command_view result ≡ follow_in (rows_of (found_of matches.now)) }
{
    follow_of(matches.get_str("net"))
}

// The command of a subcommand, by its name.
fn read_named<'a>(name: &str, matches: &ArgMatches<'a>) -> Option<Command<'a>>
    requires { IsKnown (Some (name.now, rows_of (found_of matches.now))) }
    ensures { option_map command_view result ≡ command_by_name own_reads (Some (name.now, rows_of (found_of matches.now))) }
{
    if name == "replay" {
        return read_replay(matches);
    }
    if name == "check" {
        return read_check(matches);
    }
    if name == "trial" {
        return read_trial(matches);
    }
    read_follow(matches)
}

/// The command of the matches; none where an option is no stamp, where a period ends before it
/// begins, or where a place is to be a number and is none.
pub(crate) fn read_matches<'a>(matches: &ArgMatches<'a>) -> Option<Command<'a>>
    requires { IsKnown (subcommand_rows_of matches.now) }
    ensures { option_map command_view result ≡ command_by_name own_reads (subcommand_rows_of matches.now) }
{
    match matches.subcommand() {
        Some((name, inner)) => read_named(name, inner),
        None => None,
    }
}
