use fm_io::Gate;
use std::sync::Wait;
use std::sync::atomic::{AtomicBool, Ordering};

/// How often a worker looks whether the other came, before it goes on without it: some seconds, for a busy machine.
const TURNS: u32 = 4_000_000_000;

/// A gate at which worker 2 makes its first call while worker 1 stands before its own, and worker 1 makes its own while
/// worker 2 still stands behind it. So the calls come in this order only where each is made inside the gate.
#[derive(Drop)]
pub struct Relay {
    first_came: AtomicBool,
    second_ended: AtomicBool,
    first_ended: AtomicBool,
    missed: AtomicBool,
}

impl Relay {
    /// One that nobody has come to.
    pub fn new() -> Relay {
        Relay {
            first_came: AtomicBool::new(false),
            second_ended: AtomicBool::new(false),
            first_ended: AtomicBool::new(false),
            missed: AtomicBool::new(false),
        }
    }

    /// Whether somebody went on without the other.
    pub fn is_missed(&self) -> bool {
        self.missed.load(Ordering::SeqCst)
    }

    fn wait(&self, flag: &AtomicBool) {
        for _ in 0..TURNS {
            if flag.load(Ordering::SeqCst) {
                return;
            }
        }
        self.missed.store(true, Ordering::SeqCst);
    }
}

impl Gate for Relay {
    fn before<R: Wait>(&self, _rt: &R, worker: u32, call: u64) {
        match (worker, call) {
            (1, 0) => {
                self.first_came.store(true, Ordering::SeqCst);
                self.wait(&self.second_ended);
            }
            (2, 0) => self.wait(&self.first_came),
            _ => {}
        }
    }

    fn after(&self, worker: u32, call: u64) {
        match (worker, call) {
            (1, 0) => self.first_ended.store(true, Ordering::SeqCst),
            (2, 0) => {
                self.second_ended.store(true, Ordering::SeqCst);
                self.wait(&self.first_ended);
            }
            _ => {}
        }
    }
}
