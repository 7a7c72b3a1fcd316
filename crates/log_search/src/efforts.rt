//! How much work it may be to leave operations out.

/// How much work it may be for each event of a trace, and for this many events in any trace.
const WORK_FOR_AN_EVENT: usize = 75_000;

const LEAST_EVENTS: usize = 2_000;

/// How much work the judging of what is left of a trace may still be, and how many trials there were.
#[derive(Clone, Copy)]
pub struct Effort {
    whole: usize,
    left: usize,
    trials: usize,
}

impl Effort {
    /// The effort for a trace of so many events, whose judging took so many rounds.
    pub fn new(events: usize, rounds: usize) -> Effort {
        // How many rows the rounds had isn't known.
        let rows = rounds.saturating_mul(events / 2);
        Effort {
            whole: work_of(events, rounds, rows),
            left: WORK_FOR_AN_EVENT.saturating_mul(events.max(LEAST_EVENTS)),
            trials: 0,
        }
    }

    /// Whether it is too much to judge so many operations of the trace, which has so many in all.
    pub fn is_too_much(&self, named: usize, all: usize) -> bool {
        self.whole > self.left && named > all / 2
    }

    /// Counts a trial: so many rounds over a trace of so many events, which computed so many rows.
    pub fn count(&mut self, events: usize, rounds: usize, rows: usize) {
        self.left = self.left.saturating_sub(work_of(events, rounds, rows));
        self.trials = self.trials.saturating_add(1);
    }

    /// Gives up what is left.
    pub fn give_up(&mut self) {
        self.left = 0;
    }

    /// Whether no more work may be done.
    pub fn is_spent(&self) -> bool {
        self.left == 0
    }

    /// How many trials were counted.
    pub fn trials(&self) -> usize {
        self.trials
    }
}

/// How much work rounds over a trace of so many events are, which compute so many rows: paths between all events, two looks at
/// each event in each round, and in each row some for 64 events at a time. A unit takes about two nanoseconds.
fn work_of(events: usize, rounds: usize, rows: usize) -> usize {
    let looks = events.saturating_add(rounds.saturating_mul(2));
    let row = (events / 16).saturating_add(8);
    events
        .saturating_mul(looks)
        .saturating_add(rows.saturating_mul(row))
}
