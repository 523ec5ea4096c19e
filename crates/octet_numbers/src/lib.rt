// Numbers in bytes, read and written, high byte first.
#![tactic(auto)]

ghost use Rattle.std.specs.Prelude.{◌≡◌, ◌+◌, ◌≤◌, length};
ghost use Rattle.octet_numbers.specs.Numbers.{be, be_bytes};
ghost use Rattle.octet_numbers.specs.Runs.{write};

// The number in the two bytes of s from place at on.
pub fn be16(s: &[u8], at: usize) -> u16
    requires { at + 2 ≤ length s.now }
    ensures { result ≡ be at 2 s.now }
{
    u16::from_be_bytes([s[at], s[at + 1]])
}

// The number in the four bytes of s from place at on: all 32 bits.
pub fn be32(s: &[u8], at: usize) -> u32
    requires { at + 4 ≤ length s.now }
    ensures { result ≡ be at 4 s.now }
{
    u32::from_be_bytes([s[at], s[at + 1], s[at + 2], s[at + 3]])
}

// Writes v in two bytes.
pub fn put_be16(t: &mut [u8], at: usize, v: u16)
    requires { at + 2 ≤ length t.old }
    ensures { t.new ≡ write t.old at (be_bytes 2 v) }
{
    t[at..at + 2].copy_from_slice(&v.to_be_bytes());
}

// Writes v in four bytes: all 32 bits.
pub fn put_be32(t: &mut [u8], at: usize, v: u32)
    requires { at + 4 ≤ length t.old }
    ensures { t.new ≡ write t.old at (be_bytes 4 v) }
{
    t[at..at + 4].copy_from_slice(&v.to_be_bytes());
}
