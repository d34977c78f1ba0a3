//! What the local check answers.
use grid_model::{DeviceId, NodeId};

/// The conditions of the local check, in the order in which they are tried, each named for how it
/// fails.
#[derive(Clone, Copy, Debug, PartialEq, Eq)]
pub enum CheckRule {
    /// A cut isn't closed.
    NotClosed,
    /// A cut is marked ok.
    MarkedOk,
    /// A device is marked open and isn't cut.
    MissingOpen,
    /// A source isn't listed without a parent and at depth 0.
    BadSource,
    /// A listed node that is no source has no closed parent device to a listed node at a depth one
    /// less.
    BadParent,
    /// A closed device is no parent device, and has a listed end.
    StrayDevice,
    /// A live cost is above what the children's rows allow.
    LiveRow,
    /// A dark cost is above what the children's rows allow.
    DarkRow,
    /// The cuts don't cost what is claimed.
    CutCost,
    /// The rows of the sources and the parts that aren't listed don't come to that cost.
    Total,
}

/// Where a condition fails.
#[derive(Clone, Copy, Debug, PartialEq, Eq)]
pub enum Place {
    Node(NodeId),
    Device(DeviceId),
    Nowhere,
}

/// Whether the bounds are valid, and else the first rule that fails, at its first place by number.
#[derive(Clone, Copy, Debug, PartialEq, Eq)]
pub enum Verdict {
    Valid,
    Invalid { rule: CheckRule, place: Place },
}

impl Verdict {
    ghost use Rattle.std.specs.Prelude.{◌≡◌, true, false};
    ghost use Rattle.bound_checker.specs.declared.rules.Verdict.TheVariants.{Valid, Invalid};
    ghost use Rattle.bound_checker.specs.declared.rules.Place.TheVariants.{Node, Device, Nowhere};

    // Whether a condition fails.
    pub(crate) fn is_invalid(self) -> bool
        ensures valid { result ≡ false → self ≡ Valid }
        ensures invalid { result ≡ true → self ≡ Valid → ⊥ }
    {
        match self {
            Verdict::Valid => false,
            Verdict::Invalid { .. } => true,
        }
    }

    // A condition fails at a device.
    pub(crate) fn at_device(rule: CheckRule, d: u32) -> Verdict
        ensures { result ≡ Invalid rule (Device (record { 0 = d })) }
    {
        Verdict::Invalid {
            rule,
            place: Place::Device(DeviceId(d)),
        }
    }

    // A condition fails at a node.
    pub(crate) fn at_node(rule: CheckRule, n: u32) -> Verdict
        ensures { result ≡ Invalid rule (Node (record { 0 = n })) }
    {
        Verdict::Invalid {
            rule,
            place: Place::Node(NodeId(n)),
        }
    }

    // A condition on the whole fails.
    pub(crate) fn on_the_whole(rule: CheckRule) -> Verdict
        ensures { result ≡ Invalid rule Nowhere }
    {
        Verdict::Invalid {
            rule,
            place: Place::Nowhere,
        }
    }
}
