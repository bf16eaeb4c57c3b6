ghost use Rattle.std.specs.Prelude.{◌≡◌, ℕ, ◌≤◌, List, Option};
ghost use Rattle.rx_ports.specs.Sink.{PutGives, PutFaults};

/// What a put to a sink comes to.
#[derive(Clone, Copy, Debug, PartialEq, Eq)]
pub enum Put {
    /// All the bytes were put.
    Ok,
    /// Some of the bytes at the front were put, perhaps none.
    Failed,
}

/// A place for bytes, each put behind those before it.
pub trait Sink {
    ghost held: { Self → Option (List ℕ) };

    ghost faults: { Self → ℕ };

    fn put(&mut self, bytes: &[u8]) -> Put
        ensures gives { PutGives (held self.old) (held self.new) bytes.now result }
        ensures later { faults self.old ≤ faults self.new }
        ensures failed { PutFaults (faults self.old) (faults self.new) result };

    /// The count of faults so far, which stops at the largest number.
    fn faults(&self) -> u64
        ensures { result ≡ faults self.now };
}
