//! Events, and what is told of them.
use crate::parts::{DeviceId, MeterId};

/// Seconds since the first second of 1970.
#[derive(Clone, Copy, Debug, PartialEq, Eq, PartialOrd, Ord, Hash)]
pub struct Stamp(pub u64);

/// What an order asks for.
#[derive(Clone, Copy, Debug, PartialEq, Eq)]
pub enum Want {
    Opened,
    Closed,
}

/// What a crew says of a device.
#[derive(Clone, Copy, Debug, PartialEq, Eq)]
pub enum Confirmed {
    Opened,
    Fine,
    Cleared,
}

/// What is known of a device.
#[derive(Clone, Copy, Debug, PartialEq, Eq)]
pub enum Mark {
    Nothing,
    Opened,
    Fine,
}

/// What happened.
#[derive(Clone, Copy, Debug, PartialEq, Eq)]
pub enum What {
    Call(MeterId),
    Gasp(MeterId),
    PingDown(MeterId),
    PingUp(MeterId),
    Powerup(MeterId),
    Confirm(DeviceId, Confirmed),
    Restore(DeviceId),
    Order(DeviceId, Want),
    Clock,
}

/// What happened, and when.
#[derive(Clone, Copy, Debug, PartialEq, Eq)]
pub struct Event {
    pub time: Stamp,
    pub what: What,
}

/// Why an event isn't applied.
#[derive(Clone, Copy, Debug, PartialEq, Eq)]
pub enum Refusal {
    Backwards,
    NotClosed,
    Loop,
}

/// An interruption of one meter.
#[derive(Clone, Copy, Debug, PartialEq, Eq)]
pub struct Line {
    pub meter: MeterId,
    pub start: Stamp,
    pub end: Option<Stamp>,
}

/// A device of the diagnosis, and what is dark below it.
#[derive(Clone, Copy, Debug, PartialEq, Eq)]
pub struct Outage {
    pub device: DeviceId,
    pub above: Option<DeviceId>,
    pub meters: u32,
    pub customers: u64,
    pub since: Option<Stamp>,
    pub nested: bool,
}

/// The time from a second on, up to another one that isn't included, if there is one.
#[derive(Clone, Copy, Debug, PartialEq, Eq)]
pub struct Period {
    pub from: Stamp,
    pub until: Option<Stamp>,
}
