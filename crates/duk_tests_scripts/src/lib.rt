//! Tests of configurations and scripts.
#![tactic(auto)]

#[cfg(test)]
mod failing_streams;
#[cfg(test)]
mod files;
#[cfg(test)]
mod single_events;
#[cfg(test)]
mod tills;
