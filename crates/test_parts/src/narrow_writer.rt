//! A writer that refuses, and the text that it took.
use schema_reports::OutOfMemory;
use std::io;
use std::io::{ErrorKind, Write};

/// A writer that takes `room` bytes, one at a time, and then refuses.
///
/// Its flush refuses unless `flushes` is set.
#[derive(Drop)]
pub struct NarrowWriter {
    /// The bytes that it has taken.
    pub taken: Vec<u8>,
    /// The number of bytes that it takes in all.
    pub room: usize,
    /// Whether it can be flushed.
    pub flushes: bool,
}

impl Write for NarrowWriter {
    fn write(&mut self, buf: &[u8]) -> io::Result<usize> {
        let Some(byte) = buf.first() else {
            return Ok(0);
        };
        if self.taken.len() >= self.room || self.taken.push(*byte).is_err() {
            return Err(io::Error::from(ErrorKind::BrokenPipe));
        }
        Ok(1)
    }

    fn flush(&mut self) -> io::Result<()> {
        if self.flushes {
            Ok(())
        } else {
            Err(io::Error::from(ErrorKind::BrokenPipe))
        }
    }
}

/// Returns these bytes as text, or `no text` if they are not UTF-8.
fn text_of(bytes: &[u8]) -> &str {
    str::from_utf8(bytes).unwrap_or("no text")
}

/// Adds standard output, standard error after a mark, and the status.
///
/// # Errors
///
/// Out of memory.
pub fn push_written(log: &mut String, out: &[u8], err: &[u8], code: u8) -> Result<(), OutOfMemory> {
    log.push_str(text_of(out))?;
    if !err.is_empty() {
        log.push_str("!")?;
    }
    log.push_str(text_of(err))?;
    write!(log, "{code};")
}
