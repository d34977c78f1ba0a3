//! A network while its rows are read.
ghost use Rattle.std.specs.Prelude.{◌≡◌, ◌≤◌, ◌<◌, ◌^◌, ◌++◌, ◌∷◌, ℕ, List, [], length, true, false, Some, None, Err, IfOk, OnOk, IfErr};
ghost use Rattle.grid_model.specs.Names.{is_among, mentioned, number_of, AreDistinct};
ghost use Rattle.grid_reader.specs.declared.row.Row.{Row};
ghost use Rattle.grid_reader.specs.declared.row.Row.TheVariants as row;
ghost use Rattle.grid_reader.specs.Network.{duplicate_in, excess_in, broken_after};
ghost use Rattle.grid_reader.specs.Text.{device_lines_with};
ghost use Rattle.grid_reader.specs.RowFaults.{IfBroken};
ghost use Rattle.grid_reader.specs.declared.fault.GridRule.{GridRule};
ghost use Rattle.grid_reader.specs.Text.{IsGrid, IsRefusedAt};
ghost use Rattle.grid_reader.specs.Draft.{IsDraftOf};
ghost use Rattle.grid_reader.specs.Start.{started_in, parts_in, IsComplete};

use crate::fault::{GridFault, GridRule, RowFault};
use crate::row::{DeviceRow, MeterRow, Row, SettingRow};
use crate::start::{names_in_order, start};
use grid_model::{Device, Grid, GridParts, Meter, Name, Names, NodeId};
use std::alloc::{AllocError, Global};

const MOST_NODES: usize = 200_000;

const MOST_DEVICES: usize = 400_000;

const MOST_METERS: usize = 500_000;

// The weights of a call, a gasp, a ping that fails, a ping that is answered and a power-up, and the
// seconds that a live report, a grace and a fine report hold.
const DEFAULT_SETTINGS: [u64; 8] = [30, 60, 20, 50, 60, 900, 300, 3600];

/// What the rows so far say. The devices stand open in it, and beside them which start closed.
pub(crate) struct Draft {
    nodes: Names,
    source_names: Names,
    sources: Vec<NodeId>,
    device_names: Names,
    devices: Vec<Device>,
    closed: Vec<bool>,
    device_lines: Vec<u32>,
    meter_names: Names,
    meters: Vec<Meter>,
    settings: [u64; 8],
    is_set: [bool; 8],
}

// Written out, so that a caller lets a draft go in one step.
impl Drop for Draft {
    fn drop(self) {
        let Draft {
            nodes: _nodes,
            source_names: _source_names,
            sources: _sources,
            device_names: _device_names,
            devices: _devices,
            closed: _closed,
            device_lines: _device_lines,
            meter_names: _meter_names,
            meters: _meters,
            settings: _settings,
            is_set: _is_set,
        } = self;
    }
}

// Mentions a name that must be new; else the rule is broken.
fn mention_once(names: &mut Names, name: Name, rule: GridRule) -> Result<(), RowFault>
    ensures fresh { OnOk result (is_among names.old name ≡ false) }
    ensures names { OnOk result (names.new ≡ names.old ++ name ∷ []) }
    ensures broken { IfErr result (λ fault. IfBroken fault (λ broken. (broken ≡ rule) × (is_among names.old name ≡ true))) }
{
    let count = names.len();
    if names.mention(name)? != count {
        return Err(RowFault::Breaks(rule));
    }
    Ok(())
}

// Mentions a node, and answers its number.
fn mention_node(nodes: &mut Names, name: Name) -> Result<NodeId, AllocError>
    requires { length nodes.old < 2 ^ 32 }
    ensures nodes { OnOk result (nodes.new ≡ mentioned nodes.old name) }
    ensures number { AreDistinct nodes.old → IfOk result (λ node. node.0 ≡ number_of nodes.new name) }
{
    let number = nodes.mention(name)?;
    Ok(NodeId(number as u32))
}

impl Draft {
    /// No rows yet.
    pub(crate) fn new(alloc: Global) -> Draft
        ensures { IsDraftOf [] [] result }
    {
        Draft {
            nodes: Names::new(alloc),
            source_names: Names::new(alloc),
            sources: Vec::new(alloc),
            device_names: Names::new(alloc),
            devices: Vec::new(alloc),
            closed: Vec::new(alloc),
            device_lines: Vec::new(alloc),
            meter_names: Names::new(alloc),
            meters: Vec::new(alloc),
            settings: DEFAULT_SETTINGS,
            is_set: [false; 8],
        }
    }

    // Takes a source, unless there is one at the node.
    fn add_source(&mut self, node: Name) -> Result<(), RowFault>
        requires { length self.old.nodes ≤ 200_000 }
        ensures fresh { (rows : List Row) (lines : List ℕ) → IsDraftOf rows lines self.old → OnOk result (duplicate_in rows (row.Source node) ≡ None) }
        ensures held { (rows : List Row) (lines : List ℕ) → IsDraftOf rows lines self.old → OnOk result (IsDraftOf (row.Source node ∷ rows) lines self.new) }
        ensures broken { (rows : List Row) (lines : List ℕ) → IsDraftOf rows lines self.old → IfErr result (λ fault. IfBroken fault (λ rule. duplicate_in rows (row.Source node) ≡ Some rule)) }
    {
        mention_once(&mut self.source_names, node, GridRule::DuplicateSource)?;
        let number = mention_node(&mut self.nodes, node)?;
        self.sources.push(number)?;
        Ok(())
    }

    // Takes a device of this line, unless there is one of the name.
    fn add_device(&mut self, device: DeviceRow, line: u32) -> Result<(), RowFault>
        requires { length self.old.nodes ≤ 200_000 }
        ensures fresh { (rows : List Row) (lines : List ℕ) → IsDraftOf rows lines self.old → OnOk result (duplicate_in rows (row.Device device) ≡ None) }
        ensures held { (rows : List Row) (lines : List ℕ) → IsDraftOf rows lines self.old → OnOk result (IsDraftOf (row.Device device ∷ rows) (lines ++ line ∷ []) self.new) }
        ensures broken { (rows : List Row) (lines : List ℕ) → IsDraftOf rows lines self.old → IfErr result (λ fault. IfBroken fault (λ rule. duplicate_in rows (row.Device device) ≡ Some rule)) }
    {
        mention_once(
            &mut self.device_names,
            device.name,
            GridRule::DuplicateDevice,
        )?;
        let from = mention_node(&mut self.nodes, device.from)?;
        let to = mention_node(&mut self.nodes, device.to)?;
        self.devices.push(Device {
            name: device.name,
            kind: device.kind,
            from,
            to,
            weight: device.weight,
            starts_closed: false,
        })?;
        self.closed.push(device.starts_closed)?;
        self.device_lines.push(line)?;
        Ok(())
    }

    // Takes a meter, unless there is one of the name.
    fn add_meter(&mut self, meter: MeterRow) -> Result<(), RowFault>
        requires { length self.old.nodes ≤ 200_000 }
        ensures fresh { (rows : List Row) (lines : List ℕ) → IsDraftOf rows lines self.old → OnOk result (duplicate_in rows (row.Meter meter) ≡ None) }
        ensures held { (rows : List Row) (lines : List ℕ) → IsDraftOf rows lines self.old → OnOk result (IsDraftOf (row.Meter meter ∷ rows) lines self.new) }
        ensures broken { (rows : List Row) (lines : List ℕ) → IsDraftOf rows lines self.old → IfErr result (λ fault. IfBroken fault (λ rule. duplicate_in rows (row.Meter meter) ≡ Some rule)) }
    {
        mention_once(&mut self.meter_names, meter.name, GridRule::DuplicateMeter)?;
        let node = mention_node(&mut self.nodes, meter.node)?;
        self.meters.push(Meter {
            name: meter.name,
            node,
            customers: meter.customers,
        })?;
        Ok(())
    }

    // Takes the value of a setting, unless it is set.
    fn set(&mut self, setting: SettingRow) -> Result<(), RowFault>
        ensures fresh { (rows : List Row) (lines : List ℕ) → IsDraftOf rows lines self.old → OnOk result (duplicate_in rows (row.Setting setting) ≡ None) }
        ensures held { (rows : List Row) (lines : List ℕ) → IsDraftOf rows lines self.old → OnOk result (IsDraftOf (row.Setting setting ∷ rows) lines self.new) }
        ensures broken { (rows : List Row) (lines : List ℕ) → IsDraftOf rows lines self.old → IfErr result (λ fault. IfBroken fault (λ rule. duplicate_in rows (row.Setting setting) ≡ Some rule)) }
    {
        let place = setting.setting as usize;
        if self.is_set[place] {
            return Err(RowFault::Breaks(GridRule::DuplicateSetting));
        }
        self.is_set[place] = true;
        self.settings[place] = setting.value;
        Ok(())
    }

    // Takes a row of this line, unless an earlier one of its sort has the name.
    fn take(&mut self, row: Row, line: u32) -> Result<(), RowFault>
        requires { length self.old.nodes ≤ 200_000 }
        ensures fresh { (rows : List Row) (lines : List ℕ) → IsDraftOf rows lines self.old → OnOk result (duplicate_in rows row ≡ None) }
        ensures held { (rows : List Row) (lines : List ℕ) → IsDraftOf rows lines self.old → OnOk result (IsDraftOf (row ∷ rows) (device_lines_with lines line row) self.new) }
        ensures broken { (rows : List Row) (lines : List ℕ) → IsDraftOf rows lines self.old → IfErr result (λ fault. IfBroken fault (λ rule. duplicate_in rows row ≡ Some rule)) }
    {
        match row {
            Row::Source(node) => self.add_source(node),
            Row::Device(device) => self.add_device(device, line),
            Row::Meter(meter) => self.add_meter(meter),
            Row::Setting(setting) => self.set(setting),
        }
    }

    // The rule that is broken where there is too much.
    fn excess(&self) -> Option<GridRule>
        ensures rule { (rows : List Row) (lines : List ℕ) → IsDraftOf rows lines self.now → result ≡ excess_in rows }
        ensures few { result ≡ None → length self.now.nodes ≤ 200_000 }
    {
        if self.nodes.len() > MOST_NODES {
            return Some(GridRule::TooManyNodes);
        }
        if self.device_names.len() > MOST_DEVICES {
            return Some(GridRule::TooManyDevices);
        }
        (self.meter_names.len() > MOST_METERS).then_some(GridRule::TooManyMeters)
    }

    /// Takes a row of this line, unless it breaks a rule after the rows so far. What the draft holds
    /// after an error is open.
    pub(crate) fn add(&mut self, row: Row, line: u32) -> Result<(), RowFault>
        requires { length self.old.nodes ≤ 200_000 }
        ensures kept { (rows : List Row) (lines : List ℕ) → IsDraftOf rows lines self.old → OnOk result (broken_after rows row ≡ None) }
        ensures held { (rows : List Row) (lines : List ℕ) → IsDraftOf rows lines self.old → OnOk result (IsDraftOf (row ∷ rows) (device_lines_with lines line row) self.new) }
        ensures few { OnOk result (length self.new.nodes ≤ 200_000) }
        ensures broken { (rows : List Row) (lines : List ℕ) → IsDraftOf rows lines self.old → IfErr result (λ fault. IfBroken fault (λ rule. broken_after rows row ≡ Some rule)) }
    {
        self.take(row, line)?;
        match self.excess() {
            Some(rule) => Err(RowFault::Breaks(rule)),
            None => Ok(()),
        }
    }

    /// The network, unless a device closes a loop: the first one is refused at its line.
    pub(crate) fn into_grid(self, alloc: Global) -> Result<Grid, GridFault>
        requires { IsComplete self }
        ensures grid { IfOk result (λ grid. started_in (parts_in self) self.closed.items self.device_lines.items ≡ IsGrid grid) }
        ensures refused { (line : ℕ) (rule : GridRule) → result ≡ Err (GridFault.Refused line rule) → started_in (parts_in self) self.closed.items self.device_lines.items ≡ IsRefusedAt line rule }
    {
        let Draft {
            nodes,
            source_names: _source_names,
            sources,
            device_names: _device_names,
            devices,
            closed,
            device_lines,
            meter_names: _meter_names,
            meters,
            settings,
            is_set: _is_set,
        } = self;
        let parts = GridParts {
            nodes: names_in_order(alloc, &nodes)?,
            sources,
            devices,
            meters,
            settings,
        };
        start(alloc, parts, &closed, &device_lines)
    }
}
