// MD5's chaining words as a job holds them: four numbers there, a State where they are worked on.
#![tactic(auto)]

ghost use Rattle.std.specs.Prelude.{◌≡◌, ◌+◌, ◌≤◌, ◌<◌, length};
ghost use Rattle.packet_blocks.specs.Block.{block_count, hashed};
ghost use Rattle.packet_words.specs.Words.{words_of, hash_state, words_signed};

use md5_ops::State;

fn state_of(words: [u32; 4]) -> State
    ensures { result ≡ hash_state words }
{
    let [a, b, c, d] = words;
    State { a, b, c, d }
}

pub fn words_of(x: State) -> [u32; 4]
    ensures { result ≡ words_of x }
{
    [x.a, x.b, x.c, x.d]
}

// The words after block k of the signed request q, from the words held.
pub fn after_block(words: [u32; 4], q: &[u8], n: usize, secret: &[u8], k: usize) -> [u32; 4]
    requires { (20 ≤ n) × (n ≤ length q.now) × (n ≤ 4096) × (length secret.now ≤ 64) × (k < block_count (n + length secret.now)) }
    ensures { result ≡ words_of (hashed (hash_state words) k q.now n secret.now) }
{
    let before = state_of(words);
    let after = packet_blocks::hash_block(before, q, n, secret, k);
    words_of(after)
}

// D4 by the words as held: they are the authenticator of the packet q.
pub fn is_authenticator(words: [u32; 4], q: &[u8]) -> bool
    requires { 20 ≤ length q.now }
    ensures { result ≡ words_signed words q.now }
{
    let d = md5_padding::bytes_of(state_of(words));
    octet_runs::equal16(q, 4, &d, 0)
}
