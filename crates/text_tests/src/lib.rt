//! Tests of the crates that read and write texts.
#![tactic(auto)]

#[cfg(test)]
mod event_reader_calls;
#[cfg(test)]
mod feed_merge_calls;
#[cfg(test)]
mod line_text_calls;
#[cfg(test)]
mod outage_ports_calls;
