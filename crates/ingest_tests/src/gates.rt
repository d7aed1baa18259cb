// A gate that lets one worker wait for another.
use crew::Gate;
use std::sync::atomic::{AtomicU64, Ordering};

/// Holds call 1 of one worker until it is asked before call 2 of another.
#[derive(Drop)]
pub struct TurnGate {
    first: u32,
    asked: AtomicU64,
    ran_out: AtomicU64,
}

impl TurnGate {
    /// Holds this worker.
    pub fn new(first: u32) -> TurnGate {
        TurnGate {
            first,
            asked: AtomicU64::new(0),
            ran_out: AtomicU64::new(0),
        }
    }

    /// One where it waited in vain.
    pub fn ran_out(&self) -> u64 {
        self.ran_out.load(Ordering::SeqCst)
    }
}

impl Gate for TurnGate {
    fn before(&self, worker: u32, call: u64) {
        if worker == self.first {
            if call == 1 {
                for turn in 0..1_000_000_000u64 {
                    if self.asked.load(Ordering::SeqCst) == 1 {
                        break;
                    }
                    if turn == 999_999_999 {
                        self.ran_out.store(1, Ordering::SeqCst);
                    }
                }
            }
        } else if call == 2 {
            self.asked.store(1, Ordering::SeqCst);
        }
    }
}
