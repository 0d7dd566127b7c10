//! When a ring is due.

/// How long a ring is used further after a refresh that failed, in ticks: two minutes.
pub const EXTENSION: u64 = 1_200_000_000;

const _: () = prove!(EXTENSION == 1_200_000_000);

/// Why a ring isn't used without a try to refresh it.
#[derive(Clone, Copy, Debug, PartialEq, Eq)]
pub enum Why {
    /// It ended at a moment, and this is the moment now. Both are ticks.
    Ended { until: u64, now: u64 },
    /// A list of `want` elements is wanted, and the ring answers for `held`.
    Wanted { want: u64, held: u64 },
    /// The ring's list has `held` elements, and the caller has seen `target`.
    Short { held: u64, target: u64 },
}
