//! The standard output.

ghost use Rattle.std.specs.Prelude.{◌≡◌, None};

use dt_ports::count::{Count, Failed};
use dt_ports::sink::Sink;
use std::io;
use std::io::Write;

/// The standard output. It tells nothing, so nothing is proved of the bytes that arrive there.
#[derive(Drop)]
pub struct StdSink<'a, R> {
    rt: &'a R,
    faults: Count,
}

impl<'a, R: Print> StdSink<'a, R> {
    /// The output, to which nothing was written.
    pub fn new(rt: &'a R) -> StdSink<'a, R>
        ensures { result.faults ≡ 0 }
    {
        StdSink {
            rt,
            faults: Count::new(),
        }
    }
}

impl<R: Print> Sink for StdSink<'_, R> {
    ghost taken = { λ _. None };

    ghost faults = { λ sink. sink.faults };

    /// One write of the system. Where that takes no byte, it is a fault.
    fn write(&mut self, piece: &[u8]) -> Result<usize, Failed> {
        match io::writer(self.rt).write(piece) {
            Ok(count) if count > 0 => Ok(count),
            _ => {
                self.faults.raise();
                Err(Failed)
            }
        }
    }
}
