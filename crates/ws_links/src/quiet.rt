//! How long nothing has happened.

use std::time::Instant;

/// Time in which nothing happened, told in milliseconds, each once.
#[derive(Drop)]
pub(crate) struct Quiet {
    // None until it is looked at first.
    since: Option<Instant>,
    told: u64,
    owed: u64,
}

impl Quiet {
    /// It begins now.
    pub(crate) fn new() -> Quiet {
        Quiet {
            since: None,
            told: 0,
            owed: 0,
        }
    }

    /// Tells of one millisecond that has passed and was not told.
    pub(crate) fn tell(&mut self) -> bool {
        if self.owed == 0 {
            return false;
        }
        self.owed -= 1;
        self.told = self.told.saturating_add(1);
        true
    }

    /// Looks at the clock: what has passed by now is owed.
    pub(crate) fn measure(&mut self, now: Option<Instant>) {
        let passed = millis_between(self.since, now);
        if self.since.is_none() {
            self.since = now;
        }
        self.owed = passed.saturating_sub(self.told);
    }
}

/// How many milliseconds passed, and none where a time isn't known.
fn millis_between(since: Option<Instant>, now: Option<Instant>) -> u64 {
    match (since, now) {
        (Some(since), Some(now)) => {
            let passed = now.saturating_duration_since(since).as_millis();
            u64::try_from(passed).unwrap_or(u64::MAX)
        }
        _ => 0,
    }
}

/// How many seconds passed, and none where a time isn't known.
pub(crate) fn seconds_between(since: Option<Instant>, now: Option<Instant>) -> u64 {
    match (since, now) {
        (Some(since), Some(now)) => now.saturating_duration_since(since).as_secs(),
        _ => 0,
    }
}
