// Words of 32 bits: rotations, and the words of a block.
ghost use Rattle.std.specs.Prelude.{◌≡◌, ◌<◌, length};
ghost use Rattle.md5_ops.specs.Md5.{rotl, word_at};

// x turned left by s bits. The library's rotation is by the remainder of s, so that it is one instruction.
pub(crate) fn rotl(x: u32, s: u32) -> u32
    requires { (0 < s) × (s < 32) }
    ensures { result ≡ rotl x s }
{
    x.rotate_left(s)
}

// Word j of a block, the low-order byte first.
#[tactic(auto, unfolding(crate::specs::Md5::word_at))]
pub(crate) fn word_at(m: &[u8], j: usize) -> u32
    requires { (length m.now ≡ 64) × (j < 16) }
    ensures { result ≡ word_at m.now j }
{
    let i = 4 * j;
    u32::from_le_bytes([m[i], m[i + 1], m[i + 2], m[i + 3]])
}
