// What a gate may be set up with.
#![tactic(auto)]

ghost use Rattle.std.specs.Prelude.{◌≡◌};
ghost use Rattle.nas_settings.specs.Settings.{bad_secret, bad_nas_id};

// What a gate is set up with: the secret that it shares with the billing server, and its own address and NAS-Identifier.
#[derive(Clone, Copy)]
pub struct Gate<'a> {
    pub secret: &'a [u8],
    pub nas_ip: u32,
    pub nas_id: &'a [u8],
}

// R2: the secret does not have 1 to 64 bytes.
#[tactic(auto, unfolding(crate::specs::Settings::bad_secret))]
pub fn bad_secret(secret: &[u8]) -> bool
    ensures { result ≡ bad_secret secret.now }
{
    !(1..=64).contains(&secret.len())
}

// R3: the gate's own NAS-Identifier does not have 1 to 32 bytes.
#[tactic(auto, unfolding(crate::specs::Settings::bad_nas_id))]
pub fn bad_nas_id(nas_id: &[u8]) -> bool
    ensures { result ≡ bad_nas_id nas_id.now }
{
    !(1..=32).contains(&nas_id.len())
}
