// What every packet is written with, reply or request: the front before the attributes, an attribute, and room for type 80 after them.
#![tactic(auto)]

pub mod seal; // seal.rt: the signatures

ghost use Rattle.std.specs.Prelude.{◌≡◌, ◌∷◌, ◌++◌, ◌+◌, ◌≤◌, length};
ghost use Rattle.octet_numbers.specs.Numbers.{be_bytes};
ghost use Rattle.octet_numbers.specs.Runs.{write};
ghost use Rattle.packet_write.specs.Rooms.{mac_room};

// An attribute: type, length, value. Returns the place after it.
#[tactic(auto, using(crate::proofs::Writes::write_two))]
pub fn put(t: &mut [u8], to: usize, kind: u8, size: u8, v: &[u8]) -> usize
    requires { to + length (kind ∷ size ∷ v.now) ≤ length t.old }
    ensures t_after { t.new ≡ write t.old to (kind ∷ size ∷ v.now) }
    ensures value { result ≡ to + length (kind ∷ size ∷ v.now) }
{
    t[to] = kind;
    t[to + 1] = size;
    octet_copies::copy(t, to + 2, v);
    to + 2 + v.len()
}

// Type 80 with zeros for its value, where it is present.
#[tactic(auto, using(octet_numbers::proofs::Write::write_nil), unfolding(crate::specs::Rooms::mac_room, packet_auth::specs::Signing::zeros))]
pub fn put_room(t: &mut [u8], to: usize, present: bool) -> usize
    requires { to + length (mac_room «present») ≤ length t.old }
    ensures t_after { t.new ≡ write t.old to (mac_room «present») }
    ensures value { result ≡ to + length (mac_room «present») }
{
    if present {
        let zero = [0u8; 16];
        return put(t, to, 80, 18, &zero);
    }
    to
}

// Code, identifier and Length n, and auth in the authenticator's place.
#[tactic(auto, using(crate::proofs::Fronts::front_written))]
pub fn put_front(t: &mut [u8], code: u8, identifier: u8, n: usize, auth: &[u8; 16])
    requires { (20 ≤ length t.old) × (n ≤ 4096) }
    ensures { t.new ≡ write t.old 0 ((code ∷ identifier ∷ be_bytes 2 n) ++ auth.now) }
{
    t[0] = code;
    t[1] = identifier;
    // n fits, and `try_from` would give an error that cannot come.
    octet_numbers::put_be16(&mut *t, 2, n as u16);
    octet_copies::copy(t, 4, auth);
}
