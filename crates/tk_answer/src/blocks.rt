ghost use Rattle.std.specs.Prelude.{◌≡◌, ◌<◌, ℕ, List, length};
ghost use Rattle.tk_answer.specs.Runs.{IsRun};
ghost use Rattle.tk_kernel.specs.Pieces.{AllSized};

/// Blocks of one size, stored in one slice, in pages of several, or each by itself.
pub trait Blocks: Sync {
    /// The blocks in their order.
    ghost blocks: { Self → List (List ℕ) };

    /// The bytes of each.
    ghost width: { Self → ℕ };

    /// How many blocks there are.
    fn count(&self) -> u32
        ensures { result ≡ length (blocks self.now) };

    /// The bytes of a block: at least one, and as many for each.
    fn width(&self) -> u32
        ensures width { result ≡ width self.now }
        ensures some { 0 < width self.now }
        ensures each { AllSized (width self.now) (blocks self.now) };

    /// Whole blocks from number `i` on, in order, as many as lie together; one at least.
    fn run(&self, i: u32) -> &[u8]
        requires { i < length (blocks self.now) }
        ensures { IsRun (blocks self.now) i result.now };
}
