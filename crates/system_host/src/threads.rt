use std::alloc::{AllocError, Global};
use std::sync::Arc;
use std::sync::atomic::{AtomicU64, Ordering};
use std::thread;
use std::thread::Threads;

/// Whether so many threads can run at once beside this one. They wait until all stand, do nothing
/// else, and have ended behind the call.
pub fn can_run(rt: &impl Threads, alloc: Global, count: usize) -> Result<bool, AllocError> {
    let gate = Arc::new(alloc, AtomicU64::new(0))?;
    let mut running = Vec::new(alloc);
    let mut all = Ok(true);
    for _ in 0..count {
        match start(rt, &gate) {
            Ok(Some(thread)) => {
                if running.push(thread).is_err() {
                    all = Err(AllocError);
                    break;
                }
            }
            Ok(None) => {
                all = Ok(false);
                break;
            }
            Err(fault) => {
                all = Err(fault);
                break;
            }
        }
    }
    gate.store(1, Ordering::SeqCst);
    for thread in running {
        thread.join(rt);
    }
    all
}

// A thread that waits for the gate; none where the system gives no more.
fn start(
    rt: &impl Threads,
    gate: &Arc<AtomicU64, Global>,
) -> Result<Option<thread::JoinHandle<()>>, AllocError> {
    let theirs = Arc::try_clone(gate)?;
    match thread::spawn(rt, move || await_gate(&theirs)) {
        Ok(thread) => Ok(Some(thread)),
        Err(_) => Ok(None),
    }
}

// Gives the processor to others until the gate is open.
fn await_gate(gate: &AtomicU64) {
    for _ in 0..u64::MAX {
        if gate.load(Ordering::SeqCst) != 0 {
            return;
        }
        thread::yield_now();
    }
}
