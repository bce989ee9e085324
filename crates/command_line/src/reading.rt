//! Reads JSON from files.

use crate::desk::Stop;
use crate::options::STANDARD_INPUT;
use crate::telling::{tell_unparsed, tell_unread};
use serde_json::Value;
use std::io::Read;
use std::{fmt, fs, io};

/// Why there is no value of a file.
#[derive(Drop)]
pub enum Fault {
    Unread(io::Error),
    Unparsed(serde_json::Error),
}

/// Displays as `cannot be read: ` or `is not JSON: `, and the reason.
impl fmt::Display for Fault {
    fn fmt<W: fmt::Write>(&self, f: &mut fmt::Formatter<W>) -> fmt::Result {
        match self {
            Fault::Unread(fault) => write!(f, "cannot be read: {fault}"),
            Fault::Unparsed(fault) => write!(f, "is not JSON: {fault}"),
        }
    }
}

fn bytes_of(rt: &HostRuntime, file: &str) -> io::Result<Vec<u8>> {
    if file == STANDARD_INPUT {
        let mut bytes = Vec::new(rt.alloc());
        rt.stdin().read_to_end(&mut bytes)?;
        Ok(bytes)
    } else {
        fs::read(rt, file)
    }
}

/// Returns the bytes without a byte order mark of UTF-8 at their front.
pub(crate) fn without_mark(bytes: &[u8]) -> &[u8] {
    bytes.strip_prefix(b"\xef\xbb\xbf").unwrap_or(bytes)
}

/// Reads the value of a JSON file. A byte order mark at its front is passed over.
pub(crate) fn read_value(rt: &HostRuntime, file: &str) -> Result<Value, Fault> {
    match bytes_of(rt, file) {
        Ok(bytes) => {
            let read = Value::from_slice(rt.alloc(), without_mark(bytes.as_slice()));
            drop(bytes);
            read.map_err(|fault| Fault::Unparsed(fault))
        }
        Err(fault) => Err(Fault::Unread(fault)),
    }
}

/// Reports why there is no value of a file.
pub(crate) fn tell_fault(rt: &HostRuntime, file: &str, fault: &Fault) -> Stop {
    match fault {
        Fault::Unread(fault) => tell_unread(rt, file, fault),
        Fault::Unparsed(fault) => tell_unparsed(rt, file, fault),
    }
}

/// Reads the value of a JSON file. If that fails, reports why.
pub fn value_of(rt: &HostRuntime, file: &str) -> Result<Value, Stop> {
    match read_value(rt, file) {
        Ok(value) => Ok(value),
        Err(fault) => {
            let stop = tell_fault(rt, file, &fault);
            drop(fault);
            Err(stop)
        }
    }
}
