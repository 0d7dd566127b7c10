//! Moments: numbers of ticks of 100 ns since 0001-01-01 UTC.

/// A day of 24 hours.
pub const TICKS_PER_DAY: u64 = 864_000_000_000;

const _: () = prove!(TICKS_PER_DAY == 24 * 60 * 60 * 10_000_000);

/// The last tick of the year 9999, the greatest date of a record.
pub const MAX_TICKS: u64 = 3_155_378_975_999_999_999;

const _: () = prove!(MAX_TICKS == 3_155_378_975_999_999_999);

/// The greatest moment of a clock: 3,650 days, the longest lifetime of a key, before `MAX_TICKS`.
pub const LAST: u64 = 3_152_225_375_999_999_999;

const _: () = prove!(LAST == MAX_TICKS - 3_650 * TICKS_PER_DAY);
