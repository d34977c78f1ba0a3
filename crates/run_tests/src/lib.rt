//! Tests of whole runs that no data can say, and of those who call the engine or a run.
#![tactic(auto)]

#[cfg(test)]
mod as_library;
#[cfg(test)]
mod caller;
#[cfg(test)]
mod failing_calls;
#[cfg(test)]
mod handing_on;
#[cfg(test)]
mod worked;
