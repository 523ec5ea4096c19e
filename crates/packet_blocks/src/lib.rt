// The request authenticator block by block, as the scheduler works on it: p is the packet, n its Length.
#![tactic(auto)]

mod blocks; // blocks.rt: a block of the signed request, put together

ghost use Rattle.std.specs.Prelude.{◌≡◌, ◌+◌, ◌≤◌, ◌<◌, length};
ghost use Rattle.packet_blocks.specs.Block.{block_count, hashed};

use md5_ops::State;

// How many blocks a message of n bytes has: n is taken apart, so that no sum wraps.
#[tactic(auto, unfolding(crate::specs::Block::block_count))]
pub fn block_count(n: usize) -> usize
    ensures { result ≡ block_count n }
{
    n / 64 + (n % 64 + 8) / 64 + 1
}

// The chaining words after block k of a signed request, from q on. A block that lies in the packet is hashed there.
#[tactic(auto, using(crate::proofs::Built::hashed_built))]
pub fn hash_block(q: State, p: &[u8], n: usize, secret: &[u8], k: usize) -> State
    requires { (20 ≤ n) × (n ≤ length p.now) × (n ≤ 4096) × (length secret.now ≤ 64) × (k < block_count (n + length secret.now)) }
    ensures { result ≡ hashed q k p.now n secret.now }
{
    if 0 < k && k < n / 64 {
        let s = 64 * k;
        return md5_blocks::blocks(q, &p[s..s + 64]);
    }
    let b = blocks::request_block(p, n, secret, k);
    md5_blocks::blocks(q, &b)
}
