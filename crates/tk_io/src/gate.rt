use std::sync::Wait;
use std::thread::Threads;

/// A place that the actors of a run come to. It means nothing and answers nothing; a test's gate may hold an actor. A
/// run calls it in threads whose stacks have 128 KiB, and no clause speaks of stacks: so it should not call deeply.
pub trait Gate: Sync {
    fn at<R: Threads + Wait + Sync>(&self, rt: &R, actor: u32, step: u32);
}

/// A gate that never holds anyone.
#[derive(Clone, Copy, Debug)]
pub struct OpenGate;

impl Gate for OpenGate {
    fn at<R: Threads + Wait + Sync>(&self, _rt: &R, _actor: u32, _step: u32) {}
}
