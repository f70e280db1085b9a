//! A volume as its readers see it: where its superblock is, its blocks, and the types that all readers share.
#![tactic(auto)]

mod block;
mod fault;
mod features;
mod items;
mod plan;
mod run;
mod run_list;
mod run_set;
mod slot_part;
mod superblock;
mod view;
mod which;

pub use block::Block;
pub use fault::{ReadFault, ViewFault};
pub use features::unsupported;
pub use items::{Blocks, Numbers, Pairs, Runs};
pub use o2_model::{Bytes, Check, Geo, Items, Oddity};
pub use plan::Plan;
pub use run::Run;
pub use run_list::RunList;
pub use run_set::RunSet;
pub use slot_part::SlotPart;
pub use superblock::{SuperSector, find_super, find_super_sector};
pub use view::View;
pub use which::Which;

#[cfg(test)]
mod tests;
