// The trailer that ends a block of an indexed directory.
ghost use Rattle.std.specs.Prelude.{◌≡◌, ◌≤◌, ◌-◌, ◌++◌, length, drop, replicate};
ghost use Rattle.o2_ondisk.specs.DirTrailers.{dir_trailer_of};
ghost use Rattle.o2_model.specs.SoundIndexes.{ends_in_trailer as has_trailer_at_end};

use o2_ondisk::{Signature, read_dir_trailer};

/// How many bytes a trailer has.
const TRAILER_SIZE: usize = 64;

/// The bytes, with 0 for those that a trailer has behind them.

fn padded(bytes: &[u8]) -> [u8; TRAILER_SIZE]
    requires { length bytes.now ≤ 64 }
    ensures { result ≡ bytes.now ++ replicate (64 - length bytes.now) 0 }
{
    let mut all = [0; TRAILER_SIZE];
    all[..bytes.len()].copy_from_slice(bytes);
    all
}

/// As many of the last bytes as a trailer has, and 0 for those that there are not.

fn last_bytes(bytes: &[u8]) -> [u8; TRAILER_SIZE]
    ensures { dir_trailer_of result ≡ dir_trailer_of (drop (length bytes.now - 64) bytes.now) }
{
    let from = bytes.len().saturating_sub(TRAILER_SIZE);
    padded(&bytes[from..])
}

/// Whether the last of these bytes are a trailer.
#[tactic(auto, unfolding(o2_model::specs::SoundIndexes::ends_in_trailer))]
pub fn ends_in_trailer(bytes: &[u8]) -> bool
    ensures { result ≡ has_trailer_at_end bytes.now }
{
    let trailer = read_dir_trailer(&last_bytes(bytes));
    trailer.inode == 0 && trailer.rec_len == 64 && trailer.signature.0 == Signature::DIRTRL1.0
}
