// Why a call is refused, a packet is discarded, or a reply does not fit its request. Each reason has a number, by which C is told.
#![tactic(auto)]

ghost use Rattle.std.specs.Prelude.{◌≡◌};
ghost use Rattle.refusals.specs.Numbers.{refusal_number, discard_number, mismatch_number};

// Why a call is refused. It then changes nothing that is lent.
#[derive(Clone, Copy, Debug, PartialEq, Eq)]
pub enum Refusal {
    // The table has not 192 times 1 to 64 bytes.
    TableLength,
    // The secret has not 1 to 64 bytes.
    SecretLength,
    // The gate's own NAS-Identifier has not 1 to 32 bytes.
    NasIdentifierLength,
    // The buffer for a reply or a request has fewer than 4,096 bytes.
    OutputRoom,
    // The packet store has not 16,384 bytes.
    StoreLength,
    // All four jobs are open.
    NoFreeJob,
    // No open job has this number.
    NoSuchJob,
    // A text of a session is too short or too long.
    TextLength,
    // A live session has this Acct-Session-Id.
    SessionIdLive,
    // All slots of the table are live.
    NoFreeSlot,
    // No live session has this slot.
    NoSuchSession,
    // The code of a request to be written is not 40 or 43.
    RequestCode,
    // The attributes of a request to be written do not fill their area, include type 80, or are too long.
    GivenAttributes,
}

// Why a packet is discarded: it gets no reply.
#[derive(Clone, Copy, Debug, PartialEq, Eq)]
pub enum Discard {
    // Fewer than 20 bytes; or a Length below 20, above 4,096 or above the bytes that came.
    Length,
    // The code is not 40 or 43.
    Code,
    // The attributes do not fill their area.
    Attributes,
    // The request authenticator is wrong.
    Authenticator,
    // Type 80 is repeated, of a wrong length, or wrong.
    MessageAuthenticator,
    // There is no usable Event-Timestamp.
    Timestamp,
}

// Why a reply does not fit its request: the first check that fails.
#[derive(Clone, Copy, Debug, PartialEq, Eq)]
pub enum Mismatch {
    // The request itself would be discarded for its form.
    Request,
    // The reply's Length or attributes.
    Reply,
    // The reply's code is not the request's plus 1 or 2.
    Code,
    // The identifiers differ.
    Identifier,
    // The response authenticator is wrong.
    Authenticator,
    // The reply's type 80 is repeated, of a wrong length, or wrong.
    MessageAuthenticator,
}

impl From<Refusal> for u32 {
    ghost from_gives = { λ r n. n ≡ refusal_number r };

    fn from(r: Refusal) -> u32 {
        match r {
            Refusal::TableLength => 1,
            Refusal::SecretLength => 2,
            Refusal::NasIdentifierLength => 3,
            Refusal::OutputRoom => 4,
            Refusal::StoreLength => 5,
            Refusal::NoFreeJob => 6,
            Refusal::NoSuchJob => 7,
            Refusal::TextLength => 8,
            Refusal::SessionIdLive => 9,
            Refusal::NoFreeSlot => 10,
            Refusal::NoSuchSession => 11,
            Refusal::RequestCode => 12,
            Refusal::GivenAttributes => 13,
        }
    }
}

impl From<Discard> for u32 {
    ghost from_gives = { λ d n. n ≡ discard_number d };

    fn from(d: Discard) -> u32 {
        match d {
            Discard::Length => 1,
            Discard::Code => 2,
            Discard::Attributes => 3,
            Discard::Authenticator => 4,
            Discard::MessageAuthenticator => 5,
            Discard::Timestamp => 6,
        }
    }
}

impl From<Mismatch> for u32 {
    ghost from_gives = { λ m n. n ≡ mismatch_number m };

    fn from(m: Mismatch) -> u32 {
        match m {
            Mismatch::Request => 1,
            Mismatch::Reply => 2,
            Mismatch::Code => 3,
            Mismatch::Identifier => 4,
            Mismatch::Authenticator => 5,
            Mismatch::MessageAuthenticator => 6,
        }
    }
}
