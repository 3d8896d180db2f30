//! Commands over many items: each line of an input is one, and its answer is what the command makes
//! of it alone.

mod answer;
mod derive;
mod fault;
mod group;
mod item;
mod items;
mod kept;
mod run;
mod under_way;

pub use derive::DeriveItems;
pub use fault::BatchFault;
pub use items::{Items, Refused};
pub use kept::Kept;
pub use run::do_batch;
