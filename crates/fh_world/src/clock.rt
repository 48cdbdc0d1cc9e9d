ghost use Rattle.std.specs.Prelude.{◌≡◌, ◌≤◌, ◌+◌, Option, Some, None, ℕ, IfSome};
ghost use Rattle.fh_world.specs.Seconds.{last_second};

use fh_model::LAST_SECOND;
use std::time::SystemTime;

/// What tells the time, in seconds since 1970-01-01T00:00:00Z.
pub trait Clock {
    /// The second that a call answers, where it tells.
    ghost second: { Self → Option ℕ };

    /// The second, at most `LAST_SECOND`.
    fn seconds(&mut self) -> u64
        ensures range { result ≤ LAST_SECOND }
        ensures told { IfSome (second self.old) (λ s. result ≡ s) }
        ensures same { second self.new ≡ second self.old };
}

/// A clock that stands still until it is advanced.
#[derive(Clone, Copy, Debug, Drop)]
pub struct FakeClock {
    now: u64,
    ghost in_range: { now ≤ last_second },
}

impl FakeClock {
    /// A clock that stands at this second.
    pub fn new(seconds: u64) -> FakeClock
        requires { seconds ≤ LAST_SECOND }
        ensures { result.now ≡ seconds }
    {
        FakeClock { now: seconds }
    }

    /// Moves it on by so many seconds.
    pub fn advance(&mut self, seconds: u64)
        requires { self.old.now + seconds ≤ LAST_SECOND }
        ensures { self.new.now ≡ self.old.now + seconds }
    {
        self.now += seconds;
    }
}

impl Clock for FakeClock {
    ghost second = { λ c. Some c.now };

    fn seconds(&mut self) -> u64 {
        self.now
    }
}

/// The system's clock, which tells nothing. Where the system gives no second it answers the last one again, and a
/// second out of range is answered as the nearest one within.
#[derive(Drop)]
pub struct RealClock<R> {
    rt: R,
    last: u64,
    ghost in_range: { last ≤ last_second },
}

impl<R: std::rt::Clock> RealClock<R> {
    ghost use Rattle.fh_world.specs.Adapters.{last_of};

    /// The clock of this runtime, whose last second is 0.
    pub fn new(rt: R) -> RealClock<R>
        ensures { last_of result ≡ 0 }
    {
        RealClock { rt, last: 0 }
    }
}

impl<R: std::rt::Clock> Clock for RealClock<R> {
    ghost second = { λ _. None };

    fn seconds(&mut self) -> u64 {
        if let Ok(now) = SystemTime::now(&self.rt) {
            let since = now.duration_since(SystemTime::UNIX_EPOCH);
            self.last = since.map_or(0, |passed| passed.as_secs().min(LAST_SECOND));
        }
        self.last
    }
}
