use core::thread::Stack;
use std::snapshot::Snapshot;
use std::sync::Wait;
use std::thread;
use std::thread::{Promise, Threads};

/// The bytes of a thread's stack. Of the default of the C library, 8 MiB, its cache holds so few
/// that most threads would map a stack and unmap it.
const STACK: usize = 128 * 1024;

/// What runs once, and what its result then is.
pub(crate) trait Task {
    type Output;

    ghost can_run: { Self → Type 0 };

    ghost run_gives: { Self → Self.Output → Type 0 };

    fn run(self) -> Self::Output
        requires { can_run self }
        ensures { run_gives self result };
}

/// That a result is what a task gives.
#[derive(Drop)]
struct Given<S: Task> {
    task: Snapshot<S>,
}

impl<S: Task<Output = A>, A> Promise<A> for Given<S> {
    ghost kept_by = { λ p r. S.run_gives p.task.value r };
}

/// Runs the first in a thread of its own, or last in this one where none can be made, and the second in this one.
pub(crate) fn run_both<
    R: Threads + Wait,
    S: Task<Output = A> + Send + Drop,
    T: Task<Output = B> + Drop,
    A: Send + Drop,
    B,
>(rt: &R, s: S, t: T) -> (A, B)
    requires { S.can_run s × T.can_run t }
    ensures { S.run_gives s result.0 × T.run_gives t result.1 }
{
    thread::scope(
        thread::scope_env(),
        rt,
        move |scope| -> (A, B)
            requires { S.can_run s × T.can_run t }
            ensures { S.run_gives s result.0 × T.run_gives t result.1 }
        {
            let given = Given {
                task: Snapshot::of(&s),
            };
            let work = move || -> A
                requires { S.can_run s }
                ensures { S.run_gives s result }
            { s.run() };
            let stack = Stack::new().stack_size(STACK);
            let started = stack.spawn_scoped_with(scope, given, work);
            let b = t.run();
            match started {
                Ok(handle) => (handle.join(rt), b),
                Err(refused) => {
                    let work = refused.value;
                    (work(), b)
                }
            }
        },
    )
}
