//! A network.
ghost use Rattle.std.specs.Prelude.{◌≡◌, ◌≢◌, ◌==◌, ◌<◌, ◌^◌, length, ℕ, false, map, sum_by, slice_index_or, vec_len, IfOk, All};
ghost use Rattle.std.specs.List.{list_any};
ghost use Rattle.grid_model.specs.Names.{AreDistinct};
ghost use Rattle.grid_model.specs.Groups.{group_at};
ghost use Rattle.grid_model.specs.Started.{started};
ghost use Rattle.grid_model.specs.Indexed.{places_ending, places_standing};

use crate::groups::Groups;
use crate::name::Name;
use crate::names::Names;
use crate::parts::{Device, DeviceId, GridParts, Meter, MeterId, NodeId, Setting};
use std::alloc::{AllocError, Global};
use std::marker::Model;

/// A network: its parts, and what is looked up in them.
pub struct Grid {
    nodes: Names,
    sources: Vec<NodeId>,
    source_flags: Vec<bool>,
    devices: Vec<Device>,
    device_names: Names,
    meters: Vec<Meter>,
    meter_names: Names,
    incident: Groups<DeviceId>,
    standing: Groups<MeterId>,
    settings: [u64; 8],
    customers: u64,
}

// Written out, so that a caller lets a network go in one step.
impl Drop for Grid {
    fn drop(self) {
        let Grid {
            nodes: _nodes,
            sources: _sources,
            source_flags: _source_flags,
            devices: _devices,
            device_names: _device_names,
            meters: _meters,
            meter_names: _meter_names,
            incident: _incident,
            standing: _standing,
            settings: _settings,
            customers: _customers,
        } = self;
    }
}

impl Model for Grid {
    ghost use Rattle.grid_model.specs.Parts.{Parts};

    ghost Value = { Parts };

    ghost use Rattle.grid_model.specs.GridInside.{parts_of, IsIndexedInside};

    ghost view = { parts_of };

    ghost invariant = { IsIndexedInside };
}

// One flag a node: whether it is a source.
fn flags_of(alloc: Global, nodes: usize, sources: &[NodeId]) -> Result<Vec<bool>, AllocError>
    requires { All (λ s. s.0 < nodes) sources.now }
    ensures count { IfOk result (λ flags. vec_len flags ≡ nodes) }
    ensures flags { IfOk result (λ flags. (n : ℕ) → slice_index_or flags.items n false ≡ list_any (λ s. s.0 == n) sources.now) }
{
    let mut flags = vec![in alloc; false; nodes]?;
    for source in sources {
        flags[source.0 as usize] = true;
    }
    Ok(flags)
}

// All customers.
fn customers_of(meters: &[Meter]) -> u64
    requires { sum_by (λ m. m.customers) meters.now < 2 ^ 64 }
    ensures { result ≡ sum_by (λ m. m.customers) meters.now }
{
    meters.iter().map(|meter| u64::from(meter.customers)).sum()
}

fn device_names_of(alloc: Global, devices: &[Device]) -> Result<Names, AllocError>
    requires { AreDistinct (map (λ d. d.name) devices.now) }
    ensures { IfOk result (λ names. names ≡ map (λ d. d.name) devices.now) }
{
    let mut names = Names::new(alloc);
    for device in devices {
        names.mention(device.name)?;
    }
    Ok(names)
}

fn meter_names_of(alloc: Global, meters: &[Meter]) -> Result<Names, AllocError>
    requires { AreDistinct (map (λ m. m.name) meters.now) }
    ensures { IfOk result (λ names. names ≡ map (λ m. m.name) meters.now) }
{
    let mut names = Names::new(alloc);
    for meter in meters {
        names.mention(meter.name)?;
    }
    Ok(names)
}

fn from_ends(alloc: Global, devices: &[Device]) -> Result<Vec<u32>, AllocError>
    ensures { IfOk result (λ ends. ends.items ≡ map (λ d. d.from.0) devices.now) }
{
    devices.iter().map(|device| device.from.0).collect(alloc)
}

fn to_ends(alloc: Global, devices: &[Device]) -> Result<Vec<u32>, AllocError>
    ensures { IfOk result (λ ends. ends.items ≡ map (λ d. d.to.0) devices.now) }
{
    devices.iter().map(|device| device.to.0).collect(alloc)
}

fn meter_nodes(alloc: Global, meters: &[Meter]) -> Result<Vec<u32>, AllocError>
    ensures { IfOk result (λ nodes. nodes.items ≡ map (λ m. m.node.0) meters.now) }
{
    meters.iter().map(|meter| meter.node.0).collect(alloc)
}

// The devices that end at each node.
fn incident_of(
    alloc: Global,
    nodes: u32,
    devices: &[Device],
) -> Result<Groups<DeviceId>, AllocError>
    requires from { All (λ d. d.from.0 < nodes) devices.now }
    requires to { All (λ d. d.to.0 < nodes) devices.now }
    requires apart { All (λ d. d.from.0 ≢ d.to.0) devices.now }
    requires few { length devices.now < 2 ^ 31 }
    ensures number { IfOk result (λ groups. length groups ≡ nodes) }
    ensures members { IfOk result (λ groups. (n : ℕ) → n < nodes → map (λ d. d.0) (group_at groups n) ≡ places_ending devices.now n) }
{
    let from = from_ends(alloc, devices)?;
    let to = to_ends(alloc, devices)?;
    Groups::by_either(alloc, &from, &to, nodes)?.into_devices(alloc)
}

// The meters that stand at each node.
fn standing_of(alloc: Global, nodes: u32, meters: &[Meter]) -> Result<Groups<MeterId>, AllocError>
    requires node { All (λ m. m.node.0 < nodes) meters.now }
    requires few { length meters.now < 2 ^ 32 }
    ensures number { IfOk result (λ groups. length groups ≡ nodes) }
    ensures members { IfOk result (λ groups. (n : ℕ) → n < nodes → map (λ m. m.0) (group_at groups n) ≡ places_standing meters.now n) }
{
    let places = meter_nodes(alloc, meters)?;
    Groups::new(alloc, &places, nodes)?.into_meters(alloc)
}

// Sets the starting state of each device.
fn set_states(devices: &mut [Device], closed: &[bool])
    requires { length closed.now ≡ length devices.old }
    ensures { devices.new ≡ started devices.old closed.now }
{
    for (d, device) in devices.iter_mut().enumerate() {
        device.starts_closed = closed[d];
    }
}

impl Grid {
    ghost use Rattle.std.specs.Prelude.{◌≡◌, ◌<◌, Some, length, map, slice_get, slice_index_or, false, IfOk, option_map, position};
    ghost use Rattle.outage_rules.specs.Network.{IsRadial};
    ghost use Rattle.grid_model.specs.Network.{network_in};
    ghost use Rattle.grid_model.specs.Started.{started};
    ghost use Rattle.grid_model.specs.Names.{name_eq};
    ghost use Rattle.grid_model.specs.Sound.{IsSoundParts};
    ghost use Rattle.grid_model.specs.Places.{device_at, meter_at, devices_at, meters_at, is_source, setting_of, customers_served};

    /// The network of sound parts.
    pub fn build(alloc: Global, parts: GridParts) -> Result<Grid, AllocError>
        requires { IsSoundParts parts }
        ensures { IfOk result (λ grid. grid ≡ parts) }
    {
        let GridParts {
            nodes,
            sources,
            devices,
            meters,
            settings,
        } = parts;
        let node_count = nodes.len() as u32;
        Ok(Grid {
            source_flags: flags_of(alloc, nodes.len(), &sources)?,
            device_names: device_names_of(alloc, &devices)?,
            meter_names: meter_names_of(alloc, &meters)?,
            incident: incident_of(alloc, node_count, &devices)?,
            standing: standing_of(alloc, node_count, &meters)?,
            customers: customers_of(&meters),
            nodes: Names::of(alloc, &nodes)?,
            sources,
            devices,
            meters,
            settings,
        })
    }

    /// The same network in other starting states: one flag a device, whether it is closed.
    pub fn starting(mut self, closed: &[bool]) -> Grid
        requires states { length closed.now ≡ length self.devices }
        requires radial { IsRadial (network_in self (λ d. slice_index_or closed.now d false)) }
        ensures { result ≡ record self { devices = started self.devices closed.now } }
    {
        set_states(&mut self.devices, closed);
        self
    }

    /// How many nodes there are.
    pub fn nodes(&self) -> u32
        ensures count { result ≡ length self.now.nodes }
        ensures sound { IsSoundParts self.now }
    {
        self.source_flags.len() as u32
    }

    /// How many devices there are.
    pub fn devices(&self) -> u32
        ensures count { result ≡ length self.now.devices }
        ensures sound { IsSoundParts self.now }
    {
        self.devices.len() as u32
    }

    /// How many meters there are.
    pub fn meters(&self) -> u32
        ensures count { result ≡ length self.now.meters }
        ensures sound { IsSoundParts self.now }
    {
        self.meters.len() as u32
    }

    /// The name of a node.
    pub fn node_name(&self, n: NodeId) -> Name
        requires { n.0 < length self.now.nodes }
        ensures { slice_get self.now.nodes n.0 ≡ Some result }
    {
        self.nodes.name(n.0 as usize)
    }

    /// Whether a node is a source.
    pub fn is_source(&self, n: NodeId) -> bool
        requires { n.0 < length self.now.nodes }
        ensures { result ≡ is_source self.now n.0 }
    {
        self.source_flags[n.0 as usize]
    }

    /// The device of a number.
    pub fn device(&self, d: DeviceId) -> Device
        requires { d.0 < length self.now.devices }
        ensures { result ≡ device_at self.now d.0 }
    {
        self.devices[d.0 as usize]
    }

    /// The two ends of a device.
    pub fn ends(&self, d: DeviceId) -> (NodeId, NodeId)
        requires { d.0 < length self.now.devices }
        ensures from { result.0 ≡ (device_at self.now d.0).from }
        ensures to { result.1 ≡ (device_at self.now d.0).to }
    {
        let device = &self.devices[d.0 as usize];
        (device.from, device.to)
    }

    /// The meter of a number.
    pub fn meter(&self, m: MeterId) -> Meter
        requires { m.0 < length self.now.meters }
        ensures { result ≡ meter_at self.now m.0 }
    {
        self.meters[m.0 as usize]
    }

    /// The devices that end at a node, in rising order.
    pub fn incident(&self, n: NodeId) -> &[DeviceId]
        requires { n.0 < length self.now.nodes }
        ensures { map (λ d. d.0) result.now ≡ devices_at self.now n.0 }
    {
        self.incident.of(n.0)
    }

    /// The meters that stand at a node, in rising order.
    pub fn meters_at(&self, n: NodeId) -> &[MeterId]
        requires { n.0 < length self.now.nodes }
        ensures { map (λ m. m.0) result.now ≡ meters_at self.now n.0 }
    {
        self.standing.of(n.0)
    }

    /// The value of a setting: the weight of a report, or seconds.
    pub fn setting(&self, s: Setting) -> u64
        ensures { result ≡ setting_of self.now s }
    {
        self.settings[s as usize]
    }

    /// The customers served: the sum over all meters.
    pub fn customers(&self) -> u64
        ensures { result ≡ customers_served self.now }
    {
        self.customers
    }

    /// The node of a name; none exactly where no node has it.
    pub fn find_node(&self, name: Name) -> Option<NodeId>
        ensures { option_map (λ n. n.0) result ≡ position (name_eq name) self.now.nodes }
    {
        self.nodes.find(name).map(|n| NodeId(n as u32))
    }

    /// The device of a name; none exactly where no device has it.
    pub fn find_device(&self, name: Name) -> Option<DeviceId>
        ensures { option_map (λ d. d.0) result ≡ position (λ d. name_eq name d.name) self.now.devices }
    {
        self.device_names.find(name).map(|d| DeviceId(d as u32))
    }

    /// The meter of a name; none exactly where no meter has it.
    pub fn find_meter(&self, name: Name) -> Option<MeterId>
        ensures { option_map (λ m. m.0) result ≡ position (λ m. name_eq name m.name) self.now.meters }
    {
        self.meter_names.find(name).map(|m| MeterId(m as u32))
    }
}
