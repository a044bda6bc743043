//! The blocks of a file: all of one size, the last perhaps shorter (the Alluxio 2 documentation).

ghost use Rattle.std.specs.Prelude.{◌≡◌, ◌+◌, ◌*◌, ◌≤◌, ◌<◌, min};
ghost use Rattle.fs_model.specs.Words.{block_count as blocks_of};

/// How many blocks a file of `len` bytes has: `len / block`, rounded up.
pub fn block_count(len: u64, block: u32) -> u32
    requires block { 0 < block }
    requires few { len ≤ 65536 * block }
    ensures { result ≡ blocks_of len block }
{
    len.div_ceil(u64::from(block)) as u32
}

/// Where block `i` of a file of `len` bytes begins, and where it ends (the place after its last byte).
pub fn block_span(len: u64, block: u32, i: u32) -> (u64, u64)
    requires block { 0 < block }
    requires few { len ≤ 65536 * block }
    requires there { i < blocks_of len block }
    ensures { result ≡ (i * block, min ((i + 1) * block) len) }
{
    let from = u64::from(i) * u64::from(block);
    let end = from + u64::from(block);
    (from, if end < len { end } else { len })
}
