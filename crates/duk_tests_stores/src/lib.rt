//! Tests of stores: the calls that they make on a disk, what a stop at each of their steps leaves, and
//! where a disk fails.
#![tactic(auto)]

#[cfg(test)]
mod calls;
#[cfg(test)]
mod cells;
#[cfg(test)]
mod disks;
#[cfg(test)]
mod logs;
#[cfg(test)]
mod media;
#[cfg(test)]
mod reads_ahead;
#[cfg(test)]
mod written_cells;
