//! An event that may be repeated without end, and is noted at most once in a second.

/// The least time from one note to the next, in milliseconds.
const PAUSE: u64 = 1000;

/// How often an event has happened, and when it was noted last.
#[derive(Drop)]
pub struct Repeated {
    count: u64,
    noted_at: Option<u64>,
}

impl Repeated {
    /// An event that has not happened yet.
    pub fn new() -> Repeated {
        Repeated {
            count: 0,
            noted_at: None,
        }
    }

    /// Counts the event at this moment, in milliseconds. Returns how often it has happened so far,
    /// if it is to be noted.
    pub fn add(&mut self, now: u64) -> Option<u64> {
        self.count = self.count.saturating_add(1);
        match self.noted_at {
            Some(moment) if now < moment.saturating_add(PAUSE) => None,
            _ => {
                self.noted_at = Some(now);
                Some(self.count)
            }
        }
    }
}
