use fm_io::Gate;
use itoa::Buffer;
use std::alloc::{AllocError, Global};
use std::sync::Wait;
use std::sync::atomic::{AtomicBool, AtomicU64, Ordering};

/// Workers of the numbers below this are kept.
const WORKERS: u64 = 17;

/// How many steps of each worker are kept: those of 64 calls.
const STEPS: u64 = 128;

/// One passing of the gate.
#[derive(Drop)]
struct Step {
    call: AtomicU64,
    is_after: AtomicBool,
}

impl Step {
    fn none() -> Step {
        Step {
            call: AtomicU64::new(0),
            is_after: AtomicBool::new(false),
        }
    }

    fn push_to(&self, text: &mut String) -> Result<(), AllocError> {
        text.push(' ')?;
        text.push(if self.is_after.load(Ordering::SeqCst) {
            '-'
        } else {
            '+'
        })?;
        text.push_str(Buffer::new().format(self.call.load(Ordering::SeqCst)))
    }
}

/// A gate that holds nobody, and keeps which worker passed it before and after which of its calls: each worker's steps in
/// their order. In which order two workers came isn't kept.
#[derive(Drop)]
pub struct Recording {
    /// How many steps each worker made.
    counts: Vec<AtomicU64>,
    /// Those of the first worker, then those of the next.
    steps: Vec<Step>,
    /// Steps for which there was no room.
    lost: AtomicU64,
}

impl Recording {
    /// One that nobody has passed. Refused where no memory is left.
    pub fn new(alloc: Global) -> Result<Recording, AllocError> {
        let mut counts = Vec::new(alloc);
        let mut steps = Vec::new(alloc);
        for _ in 0..WORKERS {
            counts.push(AtomicU64::new(0))?;
            for _ in 0..STEPS {
                steps.push(Step::none())?;
            }
        }
        Ok(Recording {
            counts,
            steps,
            lost: AtomicU64::new(0),
        })
    }

    /// A line for each worker that came, in the order of their numbers, as `2: +0 -0 +1 -1`: the worker, and each of its
    /// steps, `+` before and `-` after the call of that number. Where steps were lost, a last line `lost 3` says how many.
    pub fn text(&self, alloc: Global) -> Result<String, AllocError> {
        let mut text = String::new(alloc);
        for worker in 0..WORKERS {
            let count = self.count(worker);
            if count > 0 {
                text.push_str(Buffer::new().format(worker))?;
                text.push(':')?;
                self.push_steps(&mut text, worker, count)?;
                text.push('\n')?;
            }
        }
        let lost = self.lost.load(Ordering::SeqCst);
        if lost > 0 {
            text.push_str("lost ")?;
            text.push_str(Buffer::new().format(lost))?;
            text.push('\n')?;
        }
        Ok(text)
    }

    fn count(&self, worker: u64) -> u64 {
        match self.counts.get(worker as usize) {
            Some(count) => count.load(Ordering::SeqCst),
            None => 0,
        }
    }

    fn push_steps(&self, text: &mut String, worker: u64, count: u64) -> Result<(), AllocError> {
        for n in 0..count.min(STEPS) {
            if let Some(step) = self.step(worker, n) {
                step.push_to(text)?;
            }
        }
        Ok(())
    }

    /// The next step of a worker, if there is room for it.
    fn next(&self, worker: u32) -> Option<&Step> {
        let worker = u64::from(worker);
        let count = self.counts.get(worker as usize)?;
        let n = count.fetch_add(1, Ordering::SeqCst);
        if n >= STEPS {
            return None;
        }
        self.step(worker, n)
    }

    /// A worker's step of that number.
    fn step(&self, worker: u64, n: u64) -> Option<&Step> {
        let before = worker.saturating_mul(STEPS);
        self.steps.get(before.saturating_add(n) as usize)
    }

    fn keep(&self, worker: u32, call: u64, is_after: bool) {
        match self.next(worker) {
            Some(step) => {
                step.call.store(call, Ordering::SeqCst);
                step.is_after.store(is_after, Ordering::SeqCst);
            }
            None => {
                self.lost.fetch_add(1, Ordering::SeqCst);
            }
        }
    }
}

impl Gate for Recording {
    fn before<R: Wait>(&self, _rt: &R, worker: u32, call: u64) {
        self.keep(worker, call, false);
    }

    fn after(&self, worker: u32, call: u64) {
        self.keep(worker, call, true);
    }
}
