//! The judgement of a network: which devices are taken for opened, and which nodes are dark.
ghost use Rattle.std.specs.Prelude.{◌≡◌};

use crate::device_flags::DeviceFlags;
use crate::flags::{Flags, flag_all};
use crate::laws::judged_tells_diagnosis;
use crate::node_flags::NodeFlags;
use crate::settling::settle;
use grid_model::{DeviceId, Grid, NodeId};
use std::alloc::{AllocError, Global};
use std::marker::{Brand, Model};
use std::sync::ledger::{Blank, Ledger};
use subtree_costs::{CostForest, Steps};

/// The diagnosis by number, opened devices and dark nodes, and what changed of it since a beginning.
#[derive(Drop)]
pub struct Judged {
    flags: Flags,
    walk: Vec<NodeId>,
    turned: Vec<NodeId>,
}

impl Model for Judged {
    ghost use Rattle.diagnosis.specs.Judgement.{Judgement};

    ghost Value = { Judgement };

    ghost use Rattle.diagnosis.specs.JudgedInside.{judgement_of, IsWholeInside};

    ghost view = { judgement_of };

    ghost invariant = { IsWholeInside };
}

impl Judged {
    ghost use Rattle.std.specs.Prelude.{◌≡◌, ◌≤◌, ◌<◌, ◌+◌, [], length, map, All, IfOk};
    ghost use Rattle.radial_forest.specs.Traversed.{node_at};
    ghost use Rattle.radial_forest.specs.Spreading.{switched};
    ghost use Rattle.subtree_costs.specs.Costed.{IsCosted, problem_in};
    ghost use Rattle.diagnosis.specs.Judgement.{IsSized, IsJudged, TellsDiagnosis, opened_by, is_dark_by, differences, flagged};
    ghost use Rattle.diagnosis.specs.Watched.{device_in, AreDifferences};
    ghost use Rattle.subtree_costs.specs.Walks.{walks_work};
    ghost use Rattle.diagnosis.specs.Settling.{DisagreeOnWalks, NoneOpenOpened, flips_work};

    /// The diagnosis of the states, marks and weights that the costs stand for; nothing has flipped
    /// or changed. An error says that memory ran out.
    pub fn new(alloc: Global, grid: &Grid, costs: &CostForest) -> Result<Judged, AllocError>
        requires costed { IsCosted grid.now costs.now }
        ensures judged { IfOk result (IsJudged grid.now costs.now) }
        ensures diagnosis { IfOk result (TellsDiagnosis (problem_in grid.now costs.now)) }
        ensures opened_begun { IfOk result (λ judged. judged.opened_begun ≡ judged.opened) }
        ensures dark_begun { IfOk result (λ judged. judged.dark_begun ≡ judged.dark) }
        ensures flipped { IfOk result (λ judged. judged.flipped ≡ []) }
        ensures changed { IfOk result (λ judged. judged.changed ≡ []) }
    {
        let nodes = grid.nodes() as usize;
        let devices = grid.devices() as usize;
        let mut judged = Judged {
            flags: Flags {
                opened: DeviceFlags::new(alloc, devices)?,
                dark: NodeFlags::new(alloc, nodes)?,
            },
            walk: vec![in alloc; NodeId(0); nodes]?,
            turned: vec![in alloc; NodeId(0); nodes + 1]?,
        };
        judged.judge::<Brand>(grid, costs, Blank::new(1));
        Ok(judged)
    }

    // Judges for the first time, and counts no steps for anyone.
    fn judge<L: Ledger>(&mut self, grid: &Grid, costs: &CostForest, blank: Blank)
        requires name { blank.name ≡ L.name }
        requires parts { blank.parts ≡ L.parts }
        requires some { 0 < blank.parts }
        requires costed { IsCosted grid.now costs.now }
        requires sized { IsSized (length grid.now.nodes) (length grid.now.devices) self.old }
        ensures judged { IsJudged grid.now costs.now self.new }
        ensures diagnosis { TellsDiagnosis (problem_in grid.now costs.now) self.new }
        ensures opened_begun { self.new.opened_begun ≡ self.new.opened }
        ensures dark_begun { self.new.dark_begun ≡ self.new.dark }
        ensures flipped { self.new.flipped ≡ [] }
        ensures changed { self.new.changed ≡ [] }
    {
        judged_tells_diagnosis();
        let mut steps = Steps::<L>::new(blank);
        self.recompute(grid, costs, &mut steps);
        self.begin();
    }

    /// Begins anew: nothing has flipped or changed. Costs what is forgotten, and takes no memory.
    pub fn begin(&mut self)
        ensures opened { self.new.opened ≡ self.old.opened }
        ensures dark { self.new.dark ≡ self.old.dark }
        ensures opened_begun { self.new.opened_begun ≡ self.old.opened }
        ensures dark_begun { self.new.dark_begun ≡ self.old.dark }
        ensures flipped { self.new.flipped ≡ [] }
        ensures changed { self.new.changed ≡ [] }
    {
        self.flags.opened.begin();
        self.flags.dark.begin();
    }

    /// Judges the network by the rows along the walks from the places to their roots, where alone the
    /// flags may disagree with the rows, and below each node that flips. Takes at most a step for each
    /// device on those walks, one for each place, and one for each device at a node that flips. Takes
    /// no memory.
    pub fn settle<L: Ledger>(
        &mut self,
        grid: &Grid,
        costs: &CostForest,
        places: &[NodeId],
        steps: &mut Steps<L>,
    )
        requires costed { IsCosted grid.now costs.now }
        requires sized { IsSized (length grid.now.nodes) (length grid.now.devices) self.old }
        requires places { All (λ n. n.0 < length grid.now.nodes) places.now }
        requires disagree { DisagreeOnWalks grid.now costs.now (opened_by self.old) (is_dark_by self.old) places.now }
        requires open_ones { NoneOpenOpened grid.now costs.now (opened_by self.old) }

        ensures judged { IsJudged grid.now costs.now self.new }
        ensures diagnosis { TellsDiagnosis (problem_in grid.now costs.now) self.new }

        // What differs from the last beginning, each once; the devices in number order.
        ensures opened_begun { self.new.opened_begun ≡ self.old.opened_begun }
        ensures dark_begun { self.new.dark_begun ≡ self.old.dark_begun }
        ensures flipped { AreDifferences self.new.dark_begun self.new.dark (length self.new.flipped) (node_at self.new.flipped) }
        ensures changed { map (λ d. d.0) self.new.changed ≡ differences self.new.opened_begun self.new.opened }

        ensures steps { steps.new ≤ steps.old + walks_work (switched grid.now costs.now.forest.closed) costs.now.forest places.now + flips_work grid.now self.old.dark self.new.dark }
    {
        judged_tells_diagnosis();
        settle(
            grid,
            costs,
            places,
            &mut self.flags,
            &mut self.walk,
            &mut self.turned,
            steps,
        );
        self.flags.dark.names_differences();
        self.flags.opened.put_in_order();
    }

    /// Judges the network anew by the rows: one walk over all nodes, from the roots of its trees, in
    /// at most one step a node. Takes no memory.
    pub fn recompute<L: Ledger>(&mut self, grid: &Grid, costs: &CostForest, steps: &mut Steps<L>)
        requires costed { IsCosted grid.now costs.now }
        requires sized { IsSized (length grid.now.nodes) (length grid.now.devices) self.old }

        ensures judged { IsJudged grid.now costs.now self.new }
        ensures diagnosis { TellsDiagnosis (problem_in grid.now costs.now) self.new }

        // What differs from the last beginning, each once; the devices in number order.
        ensures opened_begun { self.new.opened_begun ≡ self.old.opened_begun }
        ensures dark_begun { self.new.dark_begun ≡ self.old.dark_begun }
        ensures flipped { AreDifferences self.new.dark_begun self.new.dark (length self.new.flipped) (node_at self.new.flipped) }
        ensures changed { map (λ d. d.0) self.new.changed ≡ differences self.new.opened_begun self.new.opened }

        ensures steps { steps.new ≤ steps.old + length grid.now.nodes }
    {
        judged_tells_diagnosis();
        flag_all(grid, costs, &mut self.flags, steps);
        self.flags.dark.names_differences();
        self.flags.opened.put_in_order();
    }

    /// Whether a device is taken for opened.
    pub fn is_opened(&self, d: DeviceId) -> bool
        requires { d.0 < length self.now.opened }
        ensures { result ≡ opened_by self.now d.0 }
    {
        self.flags.opened.is_set(d)
    }

    /// Whether a node is dark.
    pub fn is_dark(&self, n: NodeId) -> bool
        requires { n.0 < length self.now.dark }
        ensures { result ≡ is_dark_by self.now n.0 }
    {
        self.flags.dark.is_set(n)
    }

    /// The nodes that are dark now and weren't at the last beginning, or the other way round, each once
    /// and in no order.
    pub fn flipped(&self) -> &[NodeId]
        ensures flipped { result.now ≡ self.now.flipped }
        ensures differences { AreDifferences self.now.dark_begun self.now.dark (length self.now.flipped) (node_at self.now.flipped) }
    {
        self.flags.dark.named()
    }

    /// The devices that are taken for opened now and weren't at the last beginning, or the other way
    /// round, each once and in number order.
    pub fn changed(&self) -> &[DeviceId]
        ensures changed { result.now ≡ self.now.changed }
        ensures differences { AreDifferences self.now.opened_begun self.now.opened (length self.now.changed) (device_in self.now.changed) }
    {
        self.flags.opened.named()
    }

    /// The opened devices, in number order. An error says that memory ran out.
    pub fn opened_list(&self, alloc: Global) -> Result<Vec<DeviceId>, AllocError>
        ensures { IfOk result (λ list. map (λ d. d.0) list.items ≡ flagged self.now.opened) }
    {
        let mut list = Vec::new(alloc);
        for (d, is_opened) in self.flags.opened.all().iter().enumerate() {
            if *is_opened {
                list.push(DeviceId(d as u32))?;
            }
        }
        Ok(list)
    }
}
