//! The command line, as `clap` is told of it.
ghost use Rattle.std.specs.Prelude.{◌≡◌, false, IfOk};
ghost use Rattle.clap.specs.Words.{rule_of, app_of};
ghost use Rattle.clap.specs.declared.builder.command.Command.TheViews.{out-Command as fields_of};
ghost use Rattle.command_words.specs.Told.{place_rule, option_rule, flag_rule, replay_places_app, replay_app, check_app, one_place_app, bare_app, replays_app, checks_app, trials_app, outage_app};

use clap::{Arg, ArgAction, Command};
use std::alloc::{AllocError, Global};

fn place<'a>(alloc: Global, id: &'a str) -> Arg<'a>
    ensures rule { rule_of result ≡ place_rule id.entry.now }
    ensures local { result.global ≡ false }
{
    Arg::new(alloc, id).required(true).action(ArgAction::Set)
}

fn option<'a>(alloc: Global, id: &'a str) -> Arg<'a>
    ensures rule { rule_of result ≡ option_rule id.entry.now }
    ensures local { result.global ≡ false }
{
    Arg::new(alloc, id).long(id).action(ArgAction::Set)
}

fn flag<'a>(alloc: Global, id: &'a str) -> Arg<'a>
    ensures rule { rule_of result ≡ flag_rule id.entry.now }
    ensures local { result.global ≡ false }
{
    Arg::new(alloc, id).long(id).action(ArgAction::SetTrue)
}

fn check<'a>(alloc: Global) -> Result<Command<'a>, AllocError>
    ensures app { IfOk result (λ c. app_of c ≡ check_app) }
    ensures local { IfOk result (λ c. (fields_of c).has_globals ≡ false) }
{
    Command::new(alloc, "check")
        .arg(place(alloc, "net"))?
        .arg(place(alloc, "events"))?
        .arg(place(alloc, "report"))
}

fn one_place<'a>(alloc: Global, name: &'a str, id: &'a str) -> Result<Command<'a>, AllocError>
    ensures app { IfOk result (λ c. app_of c ≡ one_place_app name.entry.now id.entry.now) }
    ensures local { IfOk result (λ c. (fields_of c).has_globals ≡ false) }
{
    Command::new(alloc, name).arg(place(alloc, id))
}

fn replay_places<'a>(alloc: Global) -> Result<Command<'a>, AllocError>
    ensures app { IfOk result (λ c. app_of c ≡ replay_places_app) }
    ensures local { IfOk result (λ c. (fields_of c).has_globals ≡ false) }
{
    Command::new(alloc, "replay")
        .arg(place(alloc, "net"))?
        .arg(place(alloc, "events"))
}

fn replay<'a>(alloc: Global) -> Result<Command<'a>, AllocError>
    ensures app { IfOk result (λ c. app_of c ≡ replay_app) }
    ensures local { IfOk result (λ c. (fields_of c).has_globals ≡ false) }
{
    replay_places(alloc)?
        .arg(flag(alloc, "bounds"))?
        .arg(option(alloc, "from"))?
        .arg(option(alloc, "to"))
}

fn bare<'a>(alloc: Global) -> Command<'a>
    ensures app { app_of result ≡ bare_app }
    ensures local { (fields_of result).has_globals ≡ false }
{
    Command::new(alloc, "outage")
        .disable_help_flag(true)
        .disable_help_subcommand(true)
        .disable_version_flag(true)
        .subcommand_required(true)
}

fn with_replay<'a>(alloc: Global) -> Result<Command<'a>, AllocError>
    ensures app { IfOk result (λ c. app_of c ≡ replays_app) }
    ensures local { IfOk result (λ c. (fields_of c).has_globals ≡ false) }
{
    bare(alloc).subcommand(replay(alloc)?)
}

fn with_check<'a>(alloc: Global) -> Result<Command<'a>, AllocError>
    ensures app { IfOk result (λ c. app_of c ≡ checks_app) }
    ensures local { IfOk result (λ c. (fields_of c).has_globals ≡ false) }
{
    with_replay(alloc)?.subcommand(check(alloc)?)
}

fn with_trial<'a>(alloc: Global) -> Result<Command<'a>, AllocError>
    ensures app { IfOk result (λ c. app_of c ≡ trials_app) }
    ensures local { IfOk result (λ c. (fields_of c).has_globals ≡ false) }
{
    with_check(alloc)?.subcommand(one_place(alloc, "trial", "n")?)
}

/// The program's command line: `replay`, `check`, `trial` and `follow`.
#[tactic(auto, unfolding(crate::specs::Told::outage_app))]
pub(crate) fn command_line<'a>(alloc: Global) -> Result<Command<'a>, AllocError>
    ensures app { IfOk result (λ c. app_of c ≡ outage_app) }
    ensures local { IfOk result (λ c. (fields_of c).has_globals ≡ false) }
{
    with_trial(alloc)?.subcommand(one_place(alloc, "follow", "net")?)
}
