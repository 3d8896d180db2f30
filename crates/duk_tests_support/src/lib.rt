//! What the tests of several crates use: the sample keys and numbers of ANSI X9.24-1; frames, images
//! and files of a bank and a terminal with them; readers and writers that give and take little or
//! fail; a disk that records its calls; and a look at what values print.
#![tactic(auto)]

pub mod files;
pub mod frames;
pub mod images;
pub mod printed;
pub mod recorded;
pub mod sample;
pub mod streams;
