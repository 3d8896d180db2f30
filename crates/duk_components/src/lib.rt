//! The components of a host's local master key (LMK): their lines, new ones, their check values, and
//! key blocks under what they make. Each component has one holder, and the key is their exclusive or,
//! so that it stands in no one place.
#![tactic(auto)]

mod blocks;
mod components;
mod fault;
pub mod laws;
mod new_component;

pub use blocks::block_lines;
pub use components::{MOST_COMPONENTS, lmk_lines};
pub use fault::ComponentFault;
pub use new_component::new_component_line;
