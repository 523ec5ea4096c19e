// The signatures of a packet of Length n: the Message-Authenticator, whose value ends it, and then the authenticator. They are
// worked out over auth: zeros for a request, the request's authenticator for a reply.
ghost use Rattle.std.specs.Prelude.{◌≡◌, ◌+◌, ◌≤◌, length};
ghost use Rattle.octet_numbers.specs.Runs.{write};
ghost use Rattle.packet_auth.specs.Signing.{authenticator};
ghost use Rattle.packet_write.specs.Rooms.{mac_room, with_mac};

// Writes the Message-Authenticator, where the packet has one.
#[tactic(auto, unfolding(crate::specs::Rooms::mac_room, crate::specs::Rooms::with_mac, packet_auth::specs::Signing::zeros))]
fn put_mac(t: &mut [u8], n: usize, auth: &[u8; 16], secret: &[u8], present: bool)
    requires { (20 + length (mac_room «present») ≤ n) × (n ≤ length t.old) }
    ensures { t.new ≡ with_mac «present» auth.now t.old n secret.now }
{
    if present {
        let at = n - 16;
        let d = packet_mac::message_authenticator(&*t, n, auth, at, secret);
        octet_copies::copy(t, at, &d);
    }
}

// Writes the authenticator.
fn put_authenticator(t: &mut [u8], n: usize, auth: &[u8; 16], secret: &[u8])
    requires { (20 ≤ n) × (n ≤ length t.old) }
    ensures { t.new ≡ write t.old 4 (authenticator auth.now t.old n secret.now) }
{
    let d = packet_auth::authenticator(&*t, n, auth, secret);
    octet_copies::copy(t, 4, &d);
}

// Both: the Message-Authenticator is worked out before the authenticator.
pub fn put_seals(t: &mut [u8], n: usize, auth: &[u8; 16], secret: &[u8], present: bool)
    requires { (20 + length (mac_room «present») ≤ n) × (n ≤ length t.old) }
    ensures { t.new ≡ write (with_mac «present» auth.now t.old n secret.now) 4
        (authenticator auth.now (with_mac «present» auth.now t.old n secret.now) n secret.now) }
{
    put_mac(&mut *t, n, auth, secret, present);
    put_authenticator(&mut *t, n, auth, secret);
}
