//! The rows of a network text.
use grid_model::{Kind, Name, Setting};

/// A row of a network text, by what it names.
#[derive(Clone, Copy)]
pub(crate) enum Row {
    Source(Name),
    Device(DeviceRow),
    Meter(MeterRow),
    Setting(SettingRow),
}

/// A device between two nodes.
#[derive(Clone, Copy)]
pub(crate) struct DeviceRow {
    pub(crate) name: Name,
    pub(crate) kind: Kind,
    pub(crate) from: Name,
    pub(crate) to: Name,
    pub(crate) starts_closed: bool,
    pub(crate) weight: u32,
}

/// A meter at a node, which serves some customers.
#[derive(Clone, Copy)]
pub(crate) struct MeterRow {
    pub(crate) name: Name,
    pub(crate) node: Name,
    pub(crate) customers: u32,
}

/// The value of a setting: the weight of a report, or seconds.
#[derive(Clone, Copy)]
pub(crate) struct SettingRow {
    pub(crate) setting: Setting,
    pub(crate) value: u64,
}
