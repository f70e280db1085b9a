// A directory that was read, as its index is compared with it.
use o2_model::Entry;

/// What is known of a directory whose blocks were read.
#[derive(Clone, Copy, Debug)]
pub struct IndexedDirectory<'a> {
    /// Its live entries.
    pub entries: &'a [Entry],
    /// Its blocks, or its dinode's where its bytes stand there.
    pub blocks: &'a [u64],
    /// Whether each of its blocks ends in a trailer.
    pub has_trailers: bool,
}
