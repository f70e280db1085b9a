// Indexes of directories.
use o2_model::Items;
use o2_tables::{ClusterRun, ExtentBlockRow};

/// The index of a directory, as far as it is judged by what else stands on the volume.
#[derive(Debug, Drop)]
pub struct IndexRow {
    /// The block of the directory's dinode.
    pub directory: u64,
    /// The root, and what it says of where it is from. That says nothing where the index is not sound by itself.
    pub root: ExtentBlockRow,
    /// The extent blocks of its list.
    pub extent_blocks: Items<ExtentBlockRow>,
    /// The clusters of its leaves, record by record.
    pub runs: Items<ClusterRun>,
    /// Whether all holds that the index, its directory's blocks and its entries are asked by themselves.
    pub is_sound_alone: bool,
}

/// The indexes of the directories that have one, by directory.
pub type IndexTable = Items<IndexRow>;
