//! What a volume is: the definitions over whole images that every contract above cites, and the types that they speak of.
#![tactic(auto)]

mod allocator;
mod check;
mod claim;
mod entry;
mod geo;
mod items;
mod journal_part;
mod leaf;
mod oddity;
mod origin;
mod placed_refcount;
mod system_file;

pub use allocator::{Allocator, BitUse, Group};
pub use check::Check;
pub use claim::{Claim, Owner};
pub use entry::{Entries, Entry};
pub use geo::Geo;
pub use items::{Bytes, Items};
pub use journal_part::JournalPart;
pub use leaf::{Leaf, Leaves};
pub use oddity::Oddity;
pub use origin::Origin;
pub use placed_refcount::{PlacedRefcount, RefRecords};
pub use system_file::{SlotFile, SystemFile};
