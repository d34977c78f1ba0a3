//! What holds after all events.
ghost use Rattle.history_rules.specs.Laws.{EvidenceIsKept, WeightsStayUntilDue, WeightsChangeWhenDue, HistoryIsTimely, HistoryIsWithinGrid, HistoryIsRadial, AppliedStaysRadial, ProblemIsSound, HistoryIsDiagnosed, RunIsHistory, LinesOfParts, RunOfParts, LinesOfLimit};
ghost use Rattle.history_rules.specs.RunLaws.{LinesFollowRules};
ghost use Rattle.history_rules.specs.Shown.{DiagnosisIsPrinted};
ghost use Rattle.history_rules.specs.StampTexts.{StampTextIsRead};
ghost use Rattle.history_rules.specs.Ledger.{LedgerIsTimely};
ghost use Rattle.history_rules.specs.Crew.{OutagesCanBeOrdered, CrewOrderIsSorted};
ghost use Rattle.history_rules.specs.Indices.{PeriodsAddUp};
ghost use Rattle.history_rules.specs.Report.{RefusedAreTheRest};

/// The last signal of a meter, the last restoration after it and the last unanswered call tell what
/// its reports weigh, since when it is dark, and whether it came back.
pub fn evidence_is_kept()
    ensures { EvidenceIsKept }
{}

/// What the reports of a meter weigh stays until the time at which it is due to change, and forever
/// where there is no such time.
pub fn weights_stay_until_due()
    ensures { WeightsStayUntilDue }
{}

/// What the reports of a meter weigh changes at the time at which it is due to.
pub fn weights_change_when_due()
    ensures { WeightsChangeWhenDue }
{}

/// The times of a history never fall.
pub fn history_is_timely()
    ensures { HistoryIsTimely }
{}

/// After a history only devices of the network are closed, and only closed ones are marked open.
pub fn history_is_within_grid()
    ensures { HistoryIsWithinGrid }
{}

/// A history leaves a radial network radial.
pub fn history_is_radial()
    ensures { HistoryIsRadial }
{}

/// An event that isn't refused leaves a radial network radial.
pub fn applied_stays_radial()
    ensures { AppliedStaysRadial }
{}

/// A history poses a sound problem.
pub fn problem_is_sound()
    ensures { ProblemIsSound }
{}

/// After a history the computed set of devices is the diagnosis, and what it costs is the least cost.
pub fn history_is_diagnosed()
    ensures { HistoryIsDiagnosed }
{}

/// The lines of a text make a history of a history: each event that they apply names a part of the
/// network.
pub fn run_is_history()
    ensures { RunIsHistory }
{}

/// A text up to its last LF ends with that LF, and is empty where there is none.
pub fn lines_of_parts()
    ensures { LinesOfParts }
{}

/// The events, the entries and the counted lines of two lists of lines are those of the first and
/// then those of the second.
pub fn run_of_parts()
    ensures { RunOfParts }
{}

/// The lines before a limit of counted lines are all where no more count, and else those before the
/// first one too many.
pub fn lines_of_limit()
    ensures { LinesOfLimit }
{}

/// A line is skipped, refused or applied by the rules, and an order for a device is refused exactly
/// where the network has no such device or where it closes a loop.
pub fn lines_follow_rules()
    ensures { LinesFollowRules }
{}

/// The devices that entered by the rows printed so far, and did not leave since, are the diagnosis.
pub fn diagnosis_is_printed()
    ensures { DiagnosisIsPrinted }
{}

/// The text of a second from 1970 to 9999 is read as that second.
pub fn stamp_text_is_read()
    ensures { StampTextIsRead }
{}

/// The interruptions of a history start and end by its last event, and no meter has more of them than
/// there are events.
pub fn ledger_is_timely()
    ensures { LedgerIsTimely }
{}

/// The outages of a history can be ordered: following the device above each of them ends.
pub fn outages_can_be_ordered()
    ensures { OutagesCanBeOrdered }
{}

/// The crew order has the same outages, sorted by the stated keys.
pub fn crew_order_is_sorted()
    ensures { CrewOrderIsSorted }
{}

/// What a period counts is what its two parts count.
pub fn periods_add_up()
    ensures { PeriodsAddUp }
{}

/// The lines that count are those refused and those whose event joined the others.
pub fn refused_are_the_rest()
    ensures { RefusedAreTheRest }
{}
