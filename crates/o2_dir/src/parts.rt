// Parts of some bytes.
ghost use Rattle.std.specs.Prelude.{◌≡◌, take, drop};

/// The first `count` bytes, or all where there are no more.
pub fn first(bytes: &[u8], count: u64) -> &[u8]
    ensures { result.now ≡ take count bytes.now }
{
    let all = bytes.len() as u64;
    &bytes[..count.min(all) as usize]
}

/// The bytes behind the first `count`, none where there are no more.
pub fn behind(bytes: &[u8], count: u64) -> &[u8]
    ensures { result.now ≡ drop count bytes.now }
{
    let all = bytes.len() as u64;
    &bytes[count.min(all) as usize..]
}
