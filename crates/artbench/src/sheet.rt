//! The times of both maps, call by call.
use crate::failure::Failure;
use std::alloc::Global;
use std::time::Instant;

/// The times of one call.
#[derive(Clone, Copy)]
pub(crate) struct Row {
    /// The name of the call.
    pub(crate) call: &'static str,
    /// The number of keys or pairs that it went over.
    pub(crate) count: usize,
    /// The sum over its results.
    pub(crate) sum: u64,
    /// The least time with the map under test, in nanoseconds.
    pub(crate) ours: u64,
    /// The least time with the library's map, in nanoseconds.
    pub(crate) theirs: u64,
}

impl Row {
    /// Keeps the least time of a map.
    fn keep_least(&mut self, is_ours: bool, nanos: u64) {
        if is_ours {
            self.ours = self.ours.min(nanos);
        } else {
            self.theirs = self.theirs.min(nanos);
        }
    }
}

/// The rows. Each run fills them from the first on.
#[derive(Drop)]
pub(crate) struct Sheet {
    pub(crate) rows: Vec<Row>,
    next: usize,
    is_ours: bool,
    started: Option<Instant>,
    nanos: u64,
    failure: Option<Failure>,
}

impl Sheet {
    /// Returns a sheet without rows.
    pub(crate) fn new(alloc: Global) -> Self {
        Sheet {
            rows: Vec::new(alloc),
            next: 0,
            is_ours: true,
            started: None,
            nanos: 0,
            failure: None,
        }
    }

    /// Starts a run of the map under test or of the library's.
    pub(crate) fn begin_run(&mut self, is_ours: bool) {
        self.next = 0;
        self.is_ours = is_ours;
    }

    /// Notes that a call starts.
    pub(crate) fn start(&mut self, rt: &HostRuntime) {
        self.started = Instant::now(rt).ok();
    }

    /// Notes that the call has ended.
    pub(crate) fn end(&mut self, rt: &HostRuntime) {
        match self.elapsed(rt) {
            Ok(nanos) => self.nanos = nanos,
            Err(failure) => self.fail(failure),
        }
    }

    /// Returns the number of nanoseconds since the call started.
    fn elapsed(&self, rt: &HostRuntime) -> Result<u64, Failure> {
        let Some(start) = self.started else {
            return Err(Failure::Io);
        };
        let spent = start.elapsed(rt)?;
        Ok(
            spent
                .as_secs()
                .saturating_mul(1_000_000_000)
                .saturating_add(u64::from(spent.subsec_nanos())),
        )
    }

    /// Notes that a call has ended, and the sum over its results.
    pub(crate) fn stop(&mut self, rt: &HostRuntime, call: &'static str, count: usize, sum: u64) {
        self.end(rt);
        self.note(call, count, sum);
    }

    /// Notes the sum and the time of the call that ended last, unless an earlier run took less
    /// time. The sum must be the same in all runs.
    pub(crate) fn note(&mut self, call: &'static str, count: usize, sum: u64) {
        if self.next == self.rows.len() {
            self.add_row(call, count, sum);
        }
        match self.rows.get_mut(self.next) {
            Some(row) if row.sum == sum => row.keep_least(self.is_ours, self.nanos),
            _ => self.fail(Failure::Differs),
        }
        self.next = self.next.wrapping_add(1);
    }

    /// Appends a row without times.
    fn add_row(&mut self, call: &'static str, count: usize, sum: u64) {
        let row = Row {
            call,
            count,
            sum,
            ours: u64::MAX,
            theirs: u64::MAX,
        };
        if self.rows.push(row).is_err() {
            self.fail(Failure::Memory);
        }
    }

    /// Returns the sum of a call, or 0 if the call failed.
    pub(crate) fn checked(&mut self, given: Result<u64, Failure>) -> u64 {
        match given {
            Ok(sum) => sum,
            Err(failure) => {
                self.fail(failure);
                0
            }
        }
    }

    /// Notes the failure of a call, if it failed.
    pub(crate) fn check(&mut self, done: Result<(), Failure>) {
        if let Err(failure) = done {
            self.fail(failure);
        }
    }

    /// Notes why the run has no results, unless a reason was noted before.
    pub(crate) fn fail(&mut self, failure: Failure) {
        self.failure = self.failure.or(Some(failure));
    }

    /// Returns the reason why the run has no results, if there is one.
    pub(crate) fn ended(&self) -> Result<(), Failure> {
        match self.failure {
            None => Ok(()),
            Some(failure) => Err(failure),
        }
    }
}
