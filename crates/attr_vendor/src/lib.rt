// The value of a Vendor-Specific attribute (type 26): a vendor's number, then a list of items, of which one may be a list itself.
// An item has the form of an attribute, so it is read as one.
#![tactic(auto)]

mod items; // items.rt: the two that read a list of items and one item, and call each other

ghost use Rattle.std.specs.Prelude.{◌≡◌};
ghost use Rattle.attr_vendor.specs.Vendor.{vendor_of, is_other, is_faulty, sets_rate};

// The two rates of a session, in bits a second, all 32 bits of each; `None` is a rate that is not set.
#[derive(Clone, Copy, Debug, PartialEq, Eq)]
pub struct Rates {
    pub down: Option<u32>,
    pub up: Option<u32>,
}

// No rate is set.
pub const UNSET: Rates = Rates {
    down: None,
    up: None,
};

// What a type 26 says.
#[derive(Clone, Copy, Debug, PartialEq, Eq)]
pub enum Vendor {
    // It is another vendor's.
    Other,
    // It is too short, or the item at this place of its value is at fault.
    Faulty(usize),
    // The rates that it sets.
    Sets(Rates),
}

// The vendor whose items are read.
const NUMBER: u32 = 32473;

// What the value v of a type 26 says.
#[tactic(auto, unfolding(crate::specs::Vendor::vendor_of))]
pub fn vendor_of(v: &[u8]) -> Vendor
    ensures { result ≡ vendor_of v.now }
{
    if v.len() < 4 {
        return Vendor::Faulty(0);
    }
    if octet_numbers::be32(v, 0) != NUMBER {
        return Vendor::Other;
    }
    match items::rates_in(v) {
        Ok(rates) => Vendor::Sets(rates),
        Err(at) => Vendor::Faulty(at),
    }
}

// 401: it is another vendor's.
pub fn is_other(x: Vendor) -> bool
    ensures { result ≡ is_other x }
{
    matches!(x, Vendor::Other)
}

// 404: it is not well-formed.
pub fn is_faulty(x: Vendor) -> bool
    ensures { result ≡ is_faulty x }
{
    matches!(x, Vendor::Faulty(_))
}

// 402: it sets a rate, and so counts as a change.
pub fn sets_rate(x: Vendor) -> bool
    ensures { result ≡ sets_rate x }
{
    match x {
        Vendor::Sets(rates) => rates.down.is_some() || rates.up.is_some(),
        Vendor::Other | Vendor::Faulty(_) => false,
    }
}
