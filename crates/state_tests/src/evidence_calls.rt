//! What reports weigh, at the second before each hold is over and at the second when it is.
ghost use Rattle.history_rules.specs.StampTexts.{last_second};
ghost use Rattle.std.specs.Prelude.{◌≡◌, ◌≤◌, ◌<◌, length};
ghost use Rattle.evidence.specs.Kept.{kept_of, IsEvidenceOf};

use crate::networks::{METER, network};
use evidence::{Evidence, Pull, Sign};
use grid_model::{Grid, MeterId, Stamp};
use std::alloc::AllocError;
use std::process::Abort;

#[derive(Clone, Copy)]
enum Act {
    Call,
    Signal(Sign),
    Restored,
    Lapse,
}

// What a meter's reports tell after an act at a time.
#[derive(Clone, Copy)]
struct Case {
    time: u64,
    act: Act,
    dark: u64,
    live: u64,
    due: Option<u64>,
    since: Option<u64>,
    came_back: bool,
}

fn apply(evidence: &mut Evidence, grid: &Grid, act: Act, now: Stamp) -> Pull
    requires own { IsEvidenceOf grid.now evidence.old }
    requires meter { 0 < length grid.now.meters }
    requires later { (kept_of evidence.old 0).at ≤ now.0 }
    requires range { now.0 ≤ last_second }
    ensures own { IsEvidenceOf grid.now evidence.new }
    ensures at { (kept_of evidence.new 0).at ≡ now.0 }
{
    let m = MeterId(0);
    match act {
        Act::Call => evidence.call(grid, m, now),
        Act::Signal(sign) => evidence.signal(grid, m, sign, now),
        Act::Restored => evidence.restored(grid, m, now),
        Act::Lapse => evidence.lapse(grid, m, now),
    }
}

fn check(rt: &impl Abort, evidence: &mut Evidence, grid: &Grid, cases: &[Case])
    requires own { IsEvidenceOf grid.now evidence.old }
    requires meter { 0 < length grid.now.meters }
    requires fresh { (kept_of evidence.old 0).at ≡ 0 }
{
    let m = MeterId(0);
    let mut last = 0;
    for case in cases {
        assert!(rt; last <= case.time && case.time <= 253_402_300_799);
        let want = Pull {
            dark: case.dark,
            live: case.live,
            due: case.due.map(Stamp),
        };
        assert!(rt; apply(evidence, grid, case.act, Stamp(case.time)) == want);
        assert!(rt; evidence.pull(m) == want);
        assert!(rt; evidence.since(m) == case.since.map(Stamp));
        assert!(rt; evidence.came_back(m) == case.came_back);
        last = case.time;
    }
}

fn at(time: u64, act: Act, weights: (u64, u64), due: Option<u64>, since: Option<u64>) -> Case {
    Case {
        time,
        act,
        dark: weights.0,
        live: weights.1,
        due,
        since,
        came_back: false,
    }
}

#[test]
fn holds_end(rt: HostRuntime) -> Result<(), AllocError> {
    let alloc = rt.alloc();
    let grid = network(&rt, alloc, METER, 1, 0, 1);
    let mut evidence = Evidence::new(alloc, &grid)?;
    let cases = [
        at(1000, Act::Call, (11, 0), None, Some(1000)),
        at(1010, Act::Signal(Sign::Gasp), (23, 0), None, Some(1000)),
        at(1050, Act::Restored, (0, 0), Some(1170), None),
        at(1169, Act::Lapse, (0, 0), Some(1170), None),
        Case {
            came_back: true,
            ..at(1170, Act::Lapse, (12, 0), None, Some(1010))
        },
        at(1200, Act::Signal(Sign::PingUp), (0, 14), Some(1800), None),
        at(1799, Act::Lapse, (0, 14), Some(1800), None),
        at(1800, Act::Lapse, (0, 0), None, None),
        at(1800, Act::Call, (11, 0), None, Some(1800)),
        at(1900, Act::Signal(Sign::Powerup), (0, 15), Some(2500), None),
        at(2000, Act::Signal(Sign::PingDown), (13, 0), None, Some(2000)),
    ];
    check(&rt, &mut evidence, &grid, &cases);
    Ok(())
}
