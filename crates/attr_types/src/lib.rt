// What each attribute type may be and do in a request: the table of support classes, and the rules 401, 402, 404 and 405 that are read off it.
#![tactic(auto)]

ghost use Rattle.std.specs.Prelude.{◌≡◌, ◌<◌};
ghost use Rattle.attr_types.specs.Classes.{class_of, classes, says, lacking, misfit_by};

// The types that a rule, a criterion or a field of the record is about (RFC 2865, RFC 2866, RFC 2869).
pub const USER_NAME: u8 = 1;

pub const NAS_IP_ADDRESS: u8 = 4;

pub const NAS_PORT: u8 = 5;

pub const FRAMED_IP_ADDRESS: u8 = 8;

pub const FILTER_ID: u8 = 11;

pub const STATE: u8 = 24;

pub const VENDOR_SPECIFIC: u8 = 26;

pub const SESSION_TIMEOUT: u8 = 27;

pub const IDLE_TIMEOUT: u8 = 28;

pub const CALLING_STATION_ID: u8 = 31;

pub const NAS_IDENTIFIER: u8 = 32;

pub const PROXY_STATE: u8 = 33;

pub const ACCT_SESSION_ID: u8 = 44;

pub const EVENT_TIMESTAMP: u8 = 55;

pub const MESSAGE_AUTHENTICATOR: u8 = 80;

pub const ERROR_CAUSE: u8 = 101;

// A byte for each type from 0 to 255, 16 to a row. Its answers, from the lowest bit: supported in a CoA-Request, in a
// Disconnect-Request, of length 6, not of length 2, names a session, changes one, may repeat, is Service-Type.
const CLASSES: [u8; 256] = *b"\
    \x00\x1b\x00\x00\x07\x17\x83\x00\x17\x00\x00\x29\x00\x00\x00\x00\
    \x00\x00\x00\x00\x00\x00\x00\x00\x0b\x00\x01\x25\x25\x00\x00\x1b\
    \x0b\x4b\x00\x00\x00\x00\x00\x00\x00\x00\x00\x00\x1b\x00\x00\x00\
    \x00\x00\x00\x00\x00\x00\x00\x03\x00\x00\x00\x00\x00\x00\x00\x00\
    \x00\x00\x00\x00\x00\x00\x00\x00\x00\x00\x00\x00\x00\x00\x00\x00\
    \x03\x00\x00\x00\x00\x00\x00\x00\x00\x00\x00\x00\x00\x00\x00\x00\
    \x00\x00\x00\x00\x00\x00\x00\x00\x00\x00\x00\x00\x00\x00\x00\x00\
    \x00\x00\x00\x00\x00\x00\x00\x00\x00\x00\x00\x00\x00\x00\x00\x00\
    \x00\x00\x00\x00\x00\x00\x00\x00\x00\x00\x00\x00\x00\x00\x00\x00\
    \x00\x00\x00\x00\x00\x00\x00\x00\x00\x00\x00\x00\x00\x00\x00\x00\
    \x00\x00\x00\x00\x00\x00\x00\x00\x00\x00\x00\x00\x00\x00\x00\x00\
    \x00\x00\x00\x00\x00\x00\x00\x00\x00\x00\x00\x00\x00\x00\x00\x00\
    \x00\x00\x00\x00\x00\x00\x00\x00\x00\x00\x00\x00\x00\x00\x00\x00\
    \x00\x00\x00\x00\x00\x00\x00\x00\x00\x00\x00\x00\x00\x00\x00\x00\
    \x00\x00\x00\x00\x00\x00\x00\x00\x00\x00\x00\x00\x00\x00\x00\x00\
    \x00\x00\x00\x00\x00\x00\x00\x00\x00\x00\x00\x00\x00\x00\x00\x00\
";

// The table, for a caller who reads it many times: read in place, it would be copied at each read.
pub fn table() -> [u8; 256]
    ensures { result ≡ classes }
{
    CLASSES
}

// The class of a type.
#[tactic(auto, using(crate::proofs::Entries::class_entry))]
pub fn class_in(table: &[u8; 256], kind: u8) -> u8
    requires { table.now ≡ classes }
    ensures { result ≡ class_of kind }
{
    table[usize::from(kind)]
}

// One of the eight answers of a class, named by its weight: 1, 2, 4 .. 128.
#[tactic(auto, unfolding(crate::specs::Classes::says))]
pub fn says(weight: u8, class: u8) -> bool
    requires { 0 < weight }
    ensures { result ≡ says weight class }
{
    class / weight % 2 == 1
}

// 401: a request of this code may not have an attribute of this class.
#[tactic(auto, unfolding(crate::specs::Classes::lacking))]
pub fn lacks(code: u8, class: u8) -> bool
    ensures { result ≡ lacking code class }
{
    let weight = if code == 43 { 1 } else { 2 };
    !says(weight, class)
}

// 404: a length that the type may not have.
#[tactic(auto, unfolding(crate::specs::Classes::misfit_by))]
pub fn misfits(class: u8, size: u8) -> bool
    ensures { result ≡ misfit_by class size }
{
    (size != 6 && says(4, class)) || (size == 2 && says(8, class))
}
