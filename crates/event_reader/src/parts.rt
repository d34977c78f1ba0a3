//! What happened at a part of the network.
ghost use Rattle.std.specs.Prelude.{◌≡◌};
ghost use Rattle.event_rules.specs.EventLines.{meter_named, device_named, what_of};
ghost use Rattle.event_reader.specs.Reports.{shape_view};

use crate::reports::Report;
use event_rules::ReadRule;
use grid_model::{DeviceId, Grid, MeterId, Name, What};

#[tactic(auto, unfolding(event_rules::specs::EventLines::meter_named))]
fn find_meter(grid: &Grid, name: &[u8]) -> Result<MeterId, ReadRule>
    ensures { result ≡ meter_named grid.now name.now }
{
    let name = Name::read(name).ok_or(ReadRule::BadName)?;
    grid.find_meter(name).ok_or(ReadRule::UnknownMeter)
}

#[tactic(auto, unfolding(event_rules::specs::EventLines::device_named))]
fn find_device(grid: &Grid, name: &[u8]) -> Result<DeviceId, ReadRule>
    ensures { result ≡ device_named grid.now name.now }
{
    let name = Name::read(name).ok_or(ReadRule::BadName)?;
    grid.find_device(name).ok_or(ReadRule::UnknownDevice)
}

/// What a report says, once its meter or its device is found.
pub(crate) fn find_what(grid: &Grid, report: Report<'_>) -> Result<What, ReadRule>
    ensures { result ≡ what_of grid.now (shape_view report.entry) }
{
    Ok(match report {
        Report::Call { meter } => What::Call(find_meter(grid, meter)?),
        Report::Gasp { meter } => What::Gasp(find_meter(grid, meter)?),
        Report::Ping {
            meter,
            is_answered: true,
        } => What::PingUp(find_meter(grid, meter)?),
        Report::Ping {
            meter,
            is_answered: false,
        } => What::PingDown(find_meter(grid, meter)?),
        Report::Powerup { meter } => What::Powerup(find_meter(grid, meter)?),
        Report::Confirm { device, finding } => What::Confirm(find_device(grid, device)?, finding),
        Report::Restore { device } => What::Restore(find_device(grid, device)?),
        Report::Order { device, want } => What::Order(find_device(grid, device)?, want),
        Report::Clock => What::Clock,
    })
}
