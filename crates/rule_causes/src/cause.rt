// The causes of a NAK (RFC 3576, 3.5), with their numbers in an Error-Cause attribute.
ghost use Rattle.std.specs.Prelude.{◌≡◌};

// Why a request is answered with a NAK.
#[derive(Clone, Copy, Debug, PartialEq, Eq)]
pub enum Cause {
    UnsupportedAttribute,
    MissingAttribute,
    IdentificationMismatch,
    InvalidRequest,
    UnsupportedService,
    SessionNotFound,
    ResourcesUnavailable,
}

impl From<Cause> for u32 {
    ghost use Rattle.rule_causes.specs.Causes.{error_cause};

    ghost from_gives = { λ c n. n ≡ error_cause c };

    #[tactic(auto, unfolding(crate::specs::Causes::error_cause))]
    fn from(c: Cause) -> u32 {
        match c {
            Cause::UnsupportedAttribute => 401,
            Cause::MissingAttribute => 402,
            Cause::IdentificationMismatch => 403,
            Cause::InvalidRequest => 404,
            Cause::UnsupportedService => 405,
            Cause::SessionNotFound => 503,
            Cause::ResourcesUnavailable => 506,
        }
    }
}
