//! The lines of a bounds part.
use crate::bounds::BoundRow;
use grid_model::DeviceId;

/// What a line of a bounds part says behind its first line.
#[derive(Clone, Copy, Debug, PartialEq, Eq)]
pub(crate) enum BoundLine {
    Cut(DeviceId),
    Row(BoundRow),
    End,
}
