// Comparing, copying and filling byte runs.
ghost use Rattle.std.specs.Prelude.{◌≡◌, cond, ◌&&◌, ◌+◌, leb, length, replicate};
ghost use Rattle.octet_numbers.specs.Runs.{write, equal_bytes};
ghost use Rattle.octet_runs.specs.Compared.{same_text, pairs_compared};
ghost use Rattle.probe_laws.specs.Probe.{answer, written, inside, digest_room};

// Whether n bytes from place at on lie in len bytes.
pub fn lies_in(len: usize, at: usize, n: usize) -> bool
    ensures { result ≡ leb (at + n) len }
{
    if len < at {
        return false;
    }
    n <= len - at
}

// 1 the same bytes, 0 not.
#[unsafe(no_mangle)]
pub extern "C" fn probe_equal(a: &[u8], b: &[u8]) -> u32
    ensures { result ≡ cond (equal_bytes a.now b.now) 1 0 }
{
    if octet_runs::equal(a, b) {
        return 1;
    }
    0
}

// The same, and the byte pairs compared.
#[unsafe(no_mangle)]
pub extern "C" fn probe_compare(a: &[u8], b: &[u8], pairs: &mut usize) -> u32
    ensures value { result ≡ cond (same_text a.now b.now) 1 0 }
    ensures pairs_after { pairs.new ≡ pairs_compared a.now b.now }
{
    let c = octet_runs::compare(a, b);
    *pairs = c.pairs;
    if c.same {
        return 1;
    }
    0
}

// Whether 16 bytes each are the same, looking at all of them: 1 or 0; 2 where one has not 16 bytes.
#[unsafe(no_mangle)]
pub extern "C" fn probe_equal16(a: &[u8], b: &[u8]) -> u32
    ensures { result ≡ cond (digest_room a.now && digest_room b.now) (cond (equal_bytes a.now b.now) 1 0) 2 }
{
    if a.len() != 16 {
        return 2;
    }
    if b.len() != 16 {
        return 2;
    }
    if octet_runs::equal16(a, 0, b, 0) {
        return 1;
    }
    0
}

// Copies v to place at of t.
#[unsafe(no_mangle)]
pub extern "C" fn probe_copy(t: &mut [u8], at: usize, v: &[u8]) -> u32
    ensures value { result ≡ answer (inside at (length v.now) t.old) }
    ensures t_after { t.new ≡ written (inside at (length v.now) t.old) (write t.old at v.now) t.old }
{
    if lies_in(t.len(), at, v.len()) {
        octet_copies::copy(t, at, v);
        return 0;
    }
    1
}

// Writes count bytes x from place at of t on.
#[unsafe(no_mangle)]
pub extern "C" fn probe_fill(t: &mut [u8], at: usize, count: usize, x: u8) -> u32
    ensures value { result ≡ answer (inside at count t.old) }
    ensures t_after { t.new ≡ written (inside at count t.old) (write t.old at (replicate count x)) t.old }
{
    if lies_in(t.len(), at, count) {
        octet_copies::fill(t, at, count, x);
        return 0;
    }
    1
}
