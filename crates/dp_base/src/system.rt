//! The clock and the random bytes of the system. They tell nothing.

ghost use Rattle.std.specs.Prelude.{◌≡◌, [], None};

use crate::clock::Clock;
use crate::draw::Draw;
use crate::mem_draw::ChaChaDraw;
use crate::source::Failed;
use std::fs;
use std::io::Read;
use std::time::{SystemTime, UNIX_EPOCH};

// The moment 1970-01-01 UTC.
const EPOCH: u64 = 621_355_968_000_000_000;

const _: () = prove!(EPOCH == 621_355_968_000_000_000);

/// The clock of the system. Where it can't be read, the moment last shown is shown again, and 0
/// where there was none.
#[derive(Drop)]
pub struct SystemClock<'a> {
    rt: &'a HostRuntime,
    last: u64,
}

impl<'a> SystemClock<'a> {
    /// The clock of the runtime's system.
    pub fn new(rt: &'a HostRuntime) -> SystemClock<'a> {
        SystemClock { rt, last: 0 }
    }
}

impl Clock for SystemClock<'_> {
    ghost moments = { λ _. None };

    fn now(&mut self) -> u64 {
        if let Ok(time) = SystemTime::now(self.rt) {
            if let Ok(since) = time.duration_since(UNIX_EPOCH) {
                let ticks = since.as_nanos() / 100 + u128::from(EPOCH);
                self.last = u64::try_from(ticks).unwrap_or(u64::MAX);
            }
        }
        self.last
    }
}

/// The random bytes of the system: a stream of ChaCha20 whose key is read from /dev/urandom at the
/// first call. A key that can't be read is a fault, and is asked for again at the next call.
#[derive(Drop)]
pub struct OsDraw<'a> {
    rt: &'a HostRuntime,
    stream: Option<ChaChaDraw>,
    faults: u64,
}

impl<'a> OsDraw<'a> {
    /// The random bytes of the runtime's system. It has counted no fault.
    pub fn new(rt: &'a HostRuntime) -> OsDraw<'a>
        ensures { (⟦<OsDraw<'a> as Draw>⟧.draws result).faults ≡ 0 }
    {
        OsDraw {
            rt,
            stream: None,
            faults: 0,
        }
    }
}

// A key of the system's random bytes.
fn system_key(rt: &HostRuntime) -> Result<[u8; 32], Failed> {
    let mut key = [0; 32];
    let mut file = fs::open(rt, "/dev/urandom").map_err(|_| Failed)?;
    match file.read_exact(&mut key) {
        Ok(()) => Ok(key),
        Err(_) => Err(Failed),
    }
}

impl Draw for OsDraw<'_> {
    ghost draws = { λ d. record { coming = None; given = None; faults = d.faults; loan = None; lenders = [] } };

    fn fill(&mut self, out: &mut [u8]) -> Result<(), Failed> {
        if self.stream.is_none() {
            match system_key(self.rt) {
                Ok(key) => self.stream = Some(ChaChaDraw::new(key, 0)),
                Err(Failed) => {
                    self.faults = self.faults.saturating_add(1);
                    return Err(Failed);
                }
            }
        }
        match &mut self.stream {
            Some(stream) => stream.fill(out),
            None => Err(Failed),
        }
    }
}
