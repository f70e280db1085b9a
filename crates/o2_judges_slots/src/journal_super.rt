// What the superblock of a journal says, as a check asks it.
ghost use Rattle.std.specs.Prelude.{◌≡◌, ℕ, ◌&&◌, length};
ghost use Rattle.o2_model.specs.Journals.{journal_blocks, journal_super, has_sound_bounds, is_sound_journal_super, has_known_features};
ghost use Rattle.o2_model.specs.Volume.{Volume};
ghost use Rattle.o2_view.specs.Geos.{HasSizes};

use o2_extent::block_bytes;
use o2_model::Geo;
use o2_ondisk::JournalSuper;

/// The magic number of a log's blocks: `JBD2_MAGIC_NUMBER`.
const LOG_MAGIC: u32 = 0xc03b_3998;

/// The type of a superblock of version 2: `JBD2_SUPERBLOCK_V2`.
const SUPERBLOCK_TYPE: u32 = 4;

/// All of `JBD2_FEATURE_INCOMPAT_REVOKE` and `JBD2_FEATURE_INCOMPAT_64BIT`.
const KNOWN_INCOMPAT: u32 = 0x3;

/// Whether the log begins behind the superblock and ends within so many blocks.
fn has_sound_bounds(blocks: u64, header: &JournalSuper) -> bool
    ensures { result ≡ has_sound_bounds blocks header.now }
{
    let in_log = header.first <= header.start && header.start < header.maxlen;
    u64::from(header.maxlen) <= blocks
        && 1 <= header.first
        && header.first < header.maxlen
        && (header.start == 0 || in_log)
}

/// Whether this is a superblock of version 2 of a log that fits so many blocks of the volume.
#[tactic(auto, unfolding(o2_model::specs::Journals::is_sound_journal_super))]
fn is_sound_super(geo: &Geo, blocks: u64, header: &JournalSuper) -> bool
    requires { HasSizes geo.now }
    ensures { (v : Volume) (b : ℕ) → v.geo ≡ geo.now → header.now ≡ journal_super v b → blocks ≡ length (journal_blocks v b) → result ≡ is_sound_journal_super v b }
{
    header.magic == LOG_MAGIC
        && header.blocktype == SUPERBLOCK_TYPE
        && u64::from(header.blocksize) == block_bytes(geo)
        && has_sound_bounds(blocks, header)
}

/// Whether the log has no features but those that a replay knows.
#[tactic(auto, unfolding(o2_model::specs::Journals::has_known_features))]
fn has_known_features(header: &JournalSuper) -> bool
    ensures { (v : Volume) (b : ℕ) → header.now ≡ journal_super v b → result ≡ has_known_features v b }
{
    header.feature_compat == 0
        && header.feature_ro_compat == 0
        && header.feature_incompat <= KNOWN_INCOMPAT
}

/// Whether a check accepts this superblock for a journal of so many blocks.
pub fn is_sound_header(geo: &Geo, blocks: u64, header: &JournalSuper) -> bool
    requires { HasSizes geo.now }
    ensures { (v : Volume) (b : ℕ) → v.geo ≡ geo.now → header.now ≡ journal_super v b → blocks ≡ length (journal_blocks v b) → result ≡ (is_sound_journal_super v b && has_known_features v b) }
{
    is_sound_super(geo, blocks, header) && has_known_features(header)
}
