//! The wall clock's time, as text.
ghost use Rattle.std.specs.Prelude.{◌≡◌, ◌≤◌, ◌↔◌, IsSome, IfSome, option_map};
ghost use Rattle.std.specs.Duration.{as_nanos};
ghost use Rattle.program_logic.specs.Journal.Clock.{IsClockText, IsTime};

use arrayvec::ArrayString;
use jiff_core::Timestamp;
use jiff_fmt::temporal::DateTimePrinter;
use std::time::{Clock, Duration, SystemTime};

/// Returns the time that is so long after the beginning of 1970, as RFC 3339 has it: in UTC, with nine
/// digits of a second's fraction. There is none after the year 9999.
pub fn clock_text(since_1970: Duration) -> Option<ArrayString<33>>
    ensures some { IfSome result (λ text. IsClockText (as_nanos since_1970) text.bytes) }
    ensures variant { IsSome result ↔ (as_nanos since_1970 ≤ 253_402_207_200_999_999_999) }
{
    match Timestamp::from_nanosecond(since_1970.as_nanos() as i128) {
        Ok(time) => Some(
            DateTimePrinter::new()
                .precision(Some(9))
                .timestamp_text(time),
        ),
        Err(_) => None,
    }
}

/// Returns the time of the wall clock as text, if it can be read.
pub(crate) fn clock_now(clock: &impl Clock) -> Option<ArrayString<33>>
    ensures { IsTime (option_map (λ t. t.bytes) result) }
{
    let now = SystemTime::now(clock).ok()?;
    clock_text(now.duration_since(SystemTime::UNIX_EPOCH).ok()?)
}

/// Lends the text.
pub(crate) fn lent(text: &Option<ArrayString<33>>) -> Option<&str>
    ensures { option_map (λ s. s.now) result ≡ option_map (λ t. t.bytes) text.now }
{
    match text {
        None => None,
        Some(text) => Some(text.as_str()),
    }
}
