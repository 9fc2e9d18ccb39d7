use fm_io::Gate;
use std::sync::Wait;
use std::sync::atomic::{AtomicBool, Ordering};

/// How often a worker looks whether the other came, before it goes on without it: some seconds, for a busy machine.
const TURNS: u32 = 4_000_000_000;

/// What each worker's first call waits for: at least that the other's is about to begin, but in `SecondNext`. So neither
/// worker takes all calls before the other comes.
#[derive(Clone, Copy, PartialEq, Eq)]
pub enum Order {
    /// That the other's first call is about to begin.
    Together,
    /// Worker 1's, that the other's has ended.
    FirstLast,
    /// Worker 2's, that the other's has ended.
    SecondLast,
    /// The same, and worker 1 goes on from its first call only once worker 2 comes to its second.
    SecondNext,
}

/// How far a worker came.
#[derive(Drop)]
struct Progress {
    begun: AtomicBool,
    ended: AtomicBool,
    /// Whether it comes to its second call.
    is_next: AtomicBool,
}

impl Progress {
    fn none() -> Progress {
        Progress {
            begun: AtomicBool::new(false),
            ended: AtomicBool::new(false),
            is_next: AtomicBool::new(false),
        }
    }

    fn is_whole(&self) -> bool {
        self.begun.load(Ordering::SeqCst) && self.ended.load(Ordering::SeqCst)
    }
}

/// A gate at which the first calls of two workers meet.
#[derive(Drop)]
pub struct Meeting {
    order: Order,
    first: Progress,
    second: Progress,
    missed: AtomicBool,
}

impl Meeting {
    /// One that nobody has come to.
    pub fn of(order: Order) -> Meeting {
        Meeting {
            order,
            first: Progress::none(),
            second: Progress::none(),
            missed: AtomicBool::new(false),
        }
    }

    /// Whether somebody went on without the other.
    pub fn is_missed(&self) -> bool {
        self.missed.load(Ordering::SeqCst)
    }

    /// Whether the first call of each worker began and ended.
    pub fn both_began_and_ended(&self) -> bool {
        self.first.is_whole() && self.second.is_whole()
    }

    fn wait(&self, flag: &AtomicBool) {
        for _ in 0..TURNS {
            if flag.load(Ordering::SeqCst) {
                return;
            }
        }
        self.missed.store(true, Ordering::SeqCst);
    }

    fn wait_as_first(&self) {
        match self.order {
            Order::Together | Order::SecondLast => self.wait(&self.second.begun),
            Order::FirstLast => self.wait(&self.second.ended),
            Order::SecondNext => {}
        }
    }

    fn wait_as_second(&self) {
        match self.order {
            Order::Together | Order::FirstLast => self.wait(&self.first.begun),
            Order::SecondLast | Order::SecondNext => self.wait(&self.first.ended),
        }
    }

    fn end_first(&self) {
        self.first.ended.store(true, Ordering::SeqCst);
        if self.order == Order::SecondNext {
            self.wait(&self.second.is_next);
        }
    }
}

impl Gate for Meeting {
    fn before<R: Wait>(&self, _rt: &R, worker: u32, call: u64) {
        match (worker, call) {
            (1, 0) => {
                self.first.begun.store(true, Ordering::SeqCst);
                self.wait_as_first();
            }
            (2, 0) => {
                self.second.begun.store(true, Ordering::SeqCst);
                self.wait_as_second();
            }
            (2, 1) => self.second.is_next.store(true, Ordering::SeqCst),
            _ => {}
        }
    }

    fn after(&self, worker: u32, call: u64) {
        match (worker, call) {
            (1, 0) => self.end_first(),
            (2, 0) => self.second.ended.store(true, Ordering::SeqCst),
            _ => {}
        }
    }
}
