//! The answers of an action or of a call of a suite (OpenFX 1.4, "Status Codes").
ghost use Rattle.std.specs.Prelude.{◌≡◌};
ghost use Rattle.fx_base.specs.declared.status.Status.{Status};
ghost use Rattle.fx_base.specs.Status.{code};

/// How an action or a call of a suite ended (OpenFX 1.4, "Status Codes").
#[derive(Clone, Copy, Debug, PartialEq, Eq)]
pub enum Status {
    Ok,
    Failed,
    ErrFatal,
    ErrUnknown,
    ErrMissingHostFeature,
    ErrUnsupported,
    ErrExists,
    ErrFormat,
    ErrMemory,
    ErrBadHandle,
    ErrBadIndex,
    ErrValue,
    ReplyYes,
    ReplyNo,
    ReplyDefault,
}

impl Status {
    /// The number that OpenFX gives it, from 0 to 14 (OpenFX 1.4, "Status Codes").
    pub fn code(self) -> u32
        ensures value { result ≡ code self }

        // No two statuses have one number.
        ensures apart { (other : Status) → code self ≡ code other → self ≡ other }
    {
        match self {
            Status::Ok => 0,
            Status::Failed => 1,
            Status::ErrFatal => 2,
            Status::ErrUnknown => 3,
            Status::ErrMissingHostFeature => 4,
            Status::ErrUnsupported => 5,
            Status::ErrExists => 6,
            Status::ErrFormat => 7,
            Status::ErrMemory => 8,
            Status::ErrBadHandle => 9,
            Status::ErrBadIndex => 10,
            Status::ErrValue => 11,
            Status::ReplyYes => 12,
            Status::ReplyNo => 13,
            Status::ReplyDefault => 14,
        }
    }
}
