//! The parts of a network.
use crate::name::Name;
use std::marker::Model;

/// The number of a node, by first mention.
#[derive(Clone, Copy, Debug, PartialEq, Eq, PartialOrd, Ord, Hash)]
pub struct NodeId(pub u32);

/// The number of a device, by its row.
#[derive(Clone, Copy, Debug, PartialEq, Eq, PartialOrd, Ord, Hash)]
pub struct DeviceId(pub u32);

/// The number of a meter, by its row.
#[derive(Clone, Copy, Debug, PartialEq, Eq, PartialOrd, Ord, Hash)]
pub struct MeterId(pub u32);

/// What a device is.
#[derive(Clone, Copy, Debug, PartialEq, Eq)]
pub enum Kind {
    Fuse,
    Transformer,
    Recloser,
    Breaker,
    Line,
    Switch,
    Tie,
}

/// A number that a network may set: five weights of reports, and three times in seconds.
#[derive(Clone, Copy, Debug, PartialEq, Eq)]
pub enum Setting {
    Call,
    Gasp,
    PingDown,
    PingUp,
    Powerup,
    LiveHold,
    Grace,
    OkHold,
}

/// A device, which joins two nodes. Its weight is what it costs to take it for opened.
#[derive(Clone, Copy, Debug, PartialEq, Eq)]
pub struct Device {
    pub name: Name,
    pub kind: Kind,
    pub from: NodeId,
    pub to: NodeId,
    pub weight: u32,
    pub starts_closed: bool,
}

/// A meter, which stands at a node and serves some customers.
#[derive(Clone, Copy, Debug, PartialEq, Eq)]
pub struct Meter {
    pub name: Name,
    pub node: NodeId,
    pub customers: u32,
}

/// All that a network text says: nodes, devices and meters by their numbers, and the settings in
/// the order of `Setting`.
#[derive(Drop)]
pub struct GridParts {
    pub nodes: Vec<Name>,
    pub sources: Vec<NodeId>,
    pub devices: Vec<Device>,
    pub meters: Vec<Meter>,
    pub settings: [u64; 8],
}

impl Model for GridParts {
    ghost use Rattle.grid_model.specs.Parts.{Parts};

    ghost Value = { Parts };

    ghost view = { λ g. record {
      nodes = g.nodes.items;
      sources = g.sources.items;
      devices = g.devices.items;
      meters = g.meters.items;
      settings = g.settings;
    } };
}
