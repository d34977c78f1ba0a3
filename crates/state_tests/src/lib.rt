//! Tests of the network's crates, and of those that tell what events make of it.
#![tactic(auto)]

#[cfg(test)]
mod crew_list_calls;
#[cfg(test)]
mod diagnosis_calls;
#[cfg(test)]
mod due_queue_calls;
#[cfg(test)]
mod evidence_calls;
#[cfg(test)]
mod fault_weights_calls;
#[cfg(test)]
mod grid_maker_calls;
#[cfg(test)]
mod grid_model_calls;
#[cfg(test)]
mod interruption_ledger_calls;
#[cfg(test)]
mod networks;
#[cfg(test)]
mod radial_forest_calls;
#[cfg(test)]
mod restore_plan_calls;
