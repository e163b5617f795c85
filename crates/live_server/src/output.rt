//! An output that more threads than one write.
use std::io::{self, Write};
use std::sync::{Mutex, Wait};

/// An output under a lock, as that of faults: the driver's lines are told there, and connections that can't be taken. What others
/// write to it is not known here.
#[derive(Drop)]
pub struct SharedOutput<'a, F: Write + Drop, R: Wait> {
    rt: &'a R,
    output: &'a Mutex<F>,
}

impl<'a, F: Write + Drop, R: Wait> SharedOutput<'a, F, R> {
    /// The output under this lock.
    pub fn new(rt: &'a R, output: &'a Mutex<F>) -> Self {
        SharedOutput { rt, output }
    }
}

impl<F: Write + Drop, R: Wait> Write for SharedOutput<'_, F, R> {
    fn write(&mut self, buf: &[u8]) -> io::Result<usize> {
        self.output.lock(self.rt).write(buf)
    }

    fn flush(&mut self) -> io::Result<()> {
        self.output.lock(self.rt).flush()
    }
}
