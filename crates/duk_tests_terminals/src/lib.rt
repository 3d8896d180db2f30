//! Tests of frames and terminals.
#![tactic(auto)]

#[cfg(test)]
mod answers;
#[cfg(test)]
mod bodies;
#[cfg(test)]
mod frames;
#[cfg(test)]
mod left_on_disks;
#[cfg(test)]
mod loading;
#[cfg(test)]
mod tills;
