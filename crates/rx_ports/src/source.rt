ghost use Rattle.std.specs.Prelude.{◌≡◌, ℕ, ◌≤◌, ◌<◌, List, Option, length};
ghost use Rattle.rx_ports.specs.Source.{TakeGives, TakeFaults};

/// What a take from a source comes to.
#[derive(Clone, Copy, Debug, PartialEq, Eq)]
pub enum Take {
    /// So many bytes, at least one, now stand at the front of the buffer.
    Bytes(usize),
    /// There are no more bytes.
    End,
    /// Nothing was taken. A later take may go on.
    Failed,
}

/// Bytes that are taken from the front, each once.
pub trait Source {
    ghost left: { Self → Option (List ℕ) };

    ghost faults: { Self → ℕ };

    /// Takes some of the bytes that are left, as many as the source likes and the buffer holds. What
    /// the buffer has behind them is left open.
    fn take(&mut self, buf: &mut [u8]) -> Take
        requires { 0 < length buf.old }
        ensures gives { TakeGives (left self.old) (left self.new) buf.new result }
        ensures later { faults self.old ≤ faults self.new }
        ensures failed { TakeFaults (faults self.old) (faults self.new) result };

    /// The count of faults so far, which stops at the largest number.
    fn faults(&self) -> u64
        ensures { result ≡ faults self.now };
}
