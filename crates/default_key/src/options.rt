//! How a ring is kept: its spans of time, and the keys that it makes.

ghost use Rattle.std.specs.Prelude.{◌≡◌, ◌↔◌, ◌*◌, ◌≤◌, IsTrue, IsOk, IfOk};
ghost use Rattle.dp_base.specs.declared.alg.Alg.TheVariants.{Cbc256};
ghost use Rattle.dp_base.specs.declared.alg.AesSize.TheVariants.{A256};
ghost use Rattle.dp_base.specs.declared.ticks.TheConstants.{TICKS_PER_DAY};
ghost use Rattle.default_key.specs.declared.options.TheConstants.{PERIOD, PROPAGATION, SKEW};

use dp_base::{AesSize, Alg, TICKS_PER_DAY};
use thiserror::Error;

/// How far clocks of one ring may differ, in ticks: 5 minutes.
pub const SKEW: u64 = 5 * 60 * 10_000_000;

const _: () = prove!(SKEW == 3_000_000_000);

/// How long a new key may take to reach every node, in ticks: 2 days.
pub const PROPAGATION: u64 = 2 * TICKS_PER_DAY;

const _: () = prove!(PROPAGATION == 1_728_000_000_000);

/// How long a ring is used before it is read anew, in ticks: 24 hours.
pub const PERIOD: u64 = TICKS_PER_DAY;

const _: () = prove!(PERIOD == 864_000_000_000);

/// How a ring is kept. The three spans are fixed, and a lifetime has 7 to 3,650 days.
#[derive(Clone, Copy, Debug, PartialEq, Eq)]
pub struct Options {
    /// How far clocks of one ring may differ, in ticks.
    pub skew: u64,
    /// How long a new key may take to reach every node, in ticks.
    pub propagation: u64,
    /// How long a ring is used before it is read anew, in ticks.
    pub period: u64,
    /// From the creation of a new key to its expiration, in ticks.
    pub lifetime: u64,
    /// Whether keys are made where they are due.
    pub auto: bool,
    /// The algorithm of new keys.
    pub new_alg: Alg,
    pub ghost fixed_skew: { skew ≡ SKEW },
    pub ghost fixed_propagation: { propagation ≡ PROPAGATION },
    pub ghost fixed_period: { period ≡ PERIOD },
    pub ghost at_least_a_week: { 7 * TICKS_PER_DAY ≤ lifetime },
    pub ghost at_most_ten_years: { lifetime ≤ 3650 * TICKS_PER_DAY },
}

/// The lifetime isn't one of 7 to 3,650 days.
#[derive(Clone, Copy, Debug, PartialEq, Eq, Error)]
#[error("the lifetime isn't one of 7 to 3650 days")]
pub struct BadLifetime;

impl Options {
    /// Options whose new keys live so many days. `BadLifetime` comes outside 7 to 3,650 days.
    pub fn new(lifetime_days: u64, auto: bool, new_alg: Alg) -> Result<Options, BadLifetime>
        ensures ok { IsOk result ↔ ((7 ≤ lifetime_days) × (lifetime_days ≤ 3650)) }
        ensures lifetime { IfOk result (λ o. o.lifetime ≡ lifetime_days * TICKS_PER_DAY) }
        ensures auto { IfOk result (λ o. o.auto ≡ auto) }
        ensures new_alg { IfOk result (λ o. o.new_alg ≡ new_alg) }
    {
        if !(7..=3650).contains(&lifetime_days) {
            return Err(BadLifetime);
        }
        Ok(Options {
            skew: SKEW,
            propagation: PROPAGATION,
            period: PERIOD,
            lifetime: lifetime_days * TICKS_PER_DAY,
            auto,
            new_alg,
        })
    }
}

/// The standard options: keys are made where they are due, live 90 days and have the algorithm of
/// code 3, AES-256 in CBC with HMAC over SHA-256.
impl Default for Options {
    ghost is_default = { λ o. (o.lifetime ≡ 90 * TICKS_PER_DAY) × IsTrue o.auto
        × (o.new_alg ≡ Cbc256 A256) };

    fn default() -> Self {
        Options {
            skew: SKEW,
            propagation: PROPAGATION,
            period: PERIOD,
            lifetime: 90 * TICKS_PER_DAY,
            auto: true,
            new_alg: Alg::Cbc256(AesSize::A256),
        }
    }
}
