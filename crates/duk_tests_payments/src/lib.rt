//! Tests of the security module, the host, its issuer and its service, and of worlds over disks that
//! fail.
#![tactic(auto)]

#[cfg(test)]
mod failing_disks;
#[cfg(test)]
mod failing_streams;
#[cfg(test)]
mod hosts;
#[cfg(test)]
mod issuer;
#[cfg(test)]
mod issuer_over_a_journal;
#[cfg(test)]
mod names;
#[cfg(test)]
mod recorded_logs;
#[cfg(test)]
mod repeating;
#[cfg(test)]
mod security_module;
