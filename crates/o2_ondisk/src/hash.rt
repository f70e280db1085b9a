// The hash of a name in the index of its directory.
ghost use Rattle.std.specs.Prelude.{◌≡◌, ◌<◌, ◌+◌, ◌/◌, length};
ghost use Rattle.o2_ondisk.specs.NameHashes.{padding, word_of, word_at, words_of, mixed, after_round, rounds, with_piece, with_pieces, name_hash as hash_of_name};

use crate::DxSeed;
use std::cmp::min;

/// What is added to the sum in each round.
const DELTA: u32 = 0x9e37_79b9;

/// The bytes of a piece.
const PIECE: usize = 16;

/// The two halves of a hash.
#[derive(Clone, Copy, Debug, PartialEq, Eq)]
pub struct NameHash {
    pub major: u32,
    pub minor: u32,
}

/// The words of a piece.
#[derive(Clone, Copy, Debug, PartialEq, Eq)]
pub struct PieceWords {
    pub first: u32,
    pub second: u32,
    pub third: u32,
    pub fourth: u32,
}

/// What fills up a word where so many bytes are left of the name.
#[tactic(auto, unfolding(crate::specs::NameHashes::padding))]
fn padding_of(left: usize) -> u32
    ensures { result ≡ padding left }
{
    let half = ((left % (1 << 32)) as u32).wrapping_mul(0x101);
    half | (half << 16)
}

/// A word of these bytes, at most four, behind the padding.
#[tactic(auto, unfolding(crate::specs::NameHashes::word_of))]
fn word_behind(pad: u32, bytes: &[u8]) -> u32
    ensures { result ≡ word_of pad bytes.now }
{
    let mut word = pad;
    for byte in bytes {
        word = u32::from(*byte).wrapping_add(word << 8);
    }
    word
}

/// Word `k` of a piece.
fn word(pad: u32, piece: &[u8], k: usize) -> u32
    requires { k < 4 }
    ensures { result ≡ word_at pad piece.now k }
{
    let first = min(4 * k, piece.len());
    let end = first + min(4, piece.len() - first);
    word_behind(pad, &piece[first..end])
}

/// The words of a piece.
fn words(pad: u32, piece: &[u8]) -> PieceWords
    ensures { result ≡ words_of pad piece.now }
{
    PieceWords {
        first: word(pad, piece, 0),
        second: word(pad, piece, 1),
        third: word(pad, piece, 2),
        fourth: word(pad, piece, 3),
    }
}

/// What one half gives to the other in a round.
#[tactic(auto, unfolding(crate::specs::NameHashes::mixed))]
fn mix(half: u32, sum: u32, first: u32, second: u32) -> u32
    ensures { result ≡ mixed half sum first second }
{
    (half << 4).wrapping_add(first) ^ half.wrapping_add(sum) ^ (half >> 5).wrapping_add(second)
}

/// One round after `done` others.
#[tactic(auto, unfolding(crate::specs::NameHashes::after_round))]
fn add_round(done: u32, words: PieceWords, before: NameHash) -> NameHash
    requires { done < 16 }
    ensures { result ≡ after_round done words before }
{
    let sum = (done + 1).wrapping_mul(DELTA);
    let major = before
        .major
        .wrapping_add(mix(before.minor, sum, words.first, words.second));
    let minor = before
        .minor
        .wrapping_add(mix(major, sum, words.third, words.fourth));
    NameHash { major, minor }
}

/// The halves after sixteen rounds.
fn add_rounds(words: PieceWords, before: NameHash) -> NameHash
    ensures { result ≡ rounds 16 0 words before }
{
    let mut halves = before;
    for done in 0..16 {
        halves = add_round(done, words, halves);
    }
    halves
}

/// The hash with one piece more of a name, of which these bytes are left: 16 of them at most are the piece.
#[tactic(auto, unfolding(crate::specs::NameHashes::with_piece))]
fn add_piece(left: &[u8], before: NameHash) -> NameHash
    ensures { result ≡ with_piece left.now before }
{
    let pad = padding_of(left.len());
    let piece = &left[..min(PIECE, left.len())];
    let after = add_rounds(words(pad, piece), before);
    NameHash {
        major: before.major.wrapping_add(after.major),
        minor: before.minor.wrapping_add(after.minor),
    }
}

/// The hash with all pieces of a name.
#[tactic(auto, using(crate::proofs::NamePieces::piece_added))]
fn add_pieces(name: &[u8], before: NameHash) -> NameHash
    ensures { result ≡ with_pieces ((length name.now + 15) / 16) name.now before }
{
    let mut halves = before;
    let mut at = 0;
    while at < name.len() {
        halves = add_piece(&name[at..], halves);
        at += PIECE;
    }
    halves
}

/// The hash of a name in the index of its directory, its major half first: of the dots (0, 0), of any other name sixteen rounds
/// of TEA for each 16 bytes, begun with the first two words of the volume's seed. Hashes are compared for names of ASCII bytes
/// alone.
#[tactic(auto, unfolding(crate::specs::NameHashes::name_hash))]
pub fn name_hash(seed: &DxSeed, name: &[u8]) -> (u32, u32)
    ensures major { result.0 ≡ (hash_of_name seed.now name.now).major }
    ensures minor { result.1 ≡ (hash_of_name seed.now name.now).minor }
{
    if name == b".".as_slice() || name == b"..".as_slice() {
        return (0, 0);
    }
    let begun = NameHash {
        major: seed.first,
        minor: seed.second,
    };
    let hash = add_pieces(name, begun);
    (hash.major, hash.minor)
}

#[cfg(test)]
mod tests {
    use super::*;

    const SEED: DxSeed = DxSeed {
        first: 0x0102_0304,
        second: 0xa0b0_c0d0,
        third: 0,
    };

    #[test]
    fn hashes_by_the_seed(rt: HostRuntime) {
        assert_eq!(rt; name_hash(&SEED, b"abc"), (0xcfd5_db9b, 0xae3b_f17d));
        assert_eq!(rt;
            name_hash(&SEED, b"0123456789abcdef"),
            (0x9322_f601, 0xa2ef_7fe6)
        );
        assert_eq!(rt;
            name_hash(&SEED, b"0123456789abcdefg"),
            (0xe07f_faf6, 0x620e_c233)
        );
    }

    #[test]
    fn dots_have_none(rt: HostRuntime) {
        assert_eq!(rt; name_hash(&SEED, b"."), (0, 0));
        assert_eq!(rt; name_hash(&SEED, b".."), (0, 0));
    }
}
