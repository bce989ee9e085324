//! Writers of texts that stop at the first fault.
ghost use Rattle.std.specs.Prelude.{◌≡◌, None, IsNone, IsSome, OnOk};
ghost use Rattle.std.specs.Io.KnownBytes.{Appends};

use std::io;
use std::io::Write;

/// A writer of texts.
///
/// After a text that cannot be written, it writes nothing more and keeps the fault.
#[derive(Drop)]
pub struct Page<W> {
    pub to: W,
    /// The reason why nothing more is written, if there is one.
    pub fault: Option<io::Error>,
}

impl<W: Write + Drop> Page<W> {
    /// Creates a page to which nothing is written yet.
    pub fn new(to: W) -> Page<W>
        ensures to { result.to ≡ to }
        ensures faultless { result.fault ≡ None }
    {
        Page { to, fault: None }
    }

    /// Writes a text, unless an earlier one could not be written.
    pub fn put(&mut self, text: &str)
        ensures written { IsNone self.new.fault → Appends (W.contents self.old.to) (W.contents self.new.to) text.now }
        ensures stopped { IsSome self.old.fault → self.new ≡ self.old }
    {
        if self.fault.is_some() {
            return;
        }
        if let Err(fault) = self.write(text) {
            self.fault = Some(fault);
        }
    }

    fn write(&mut self, text: &str) -> io::Result<()>
        ensures written { OnOk result (Appends (W.contents self.old.to) (W.contents self.new.to) text.now) }
        ensures fault { self.new.fault ≡ self.old.fault }
    {
        self.to.write_all(text.as_bytes())?;
        self.to.flush()
    }
}
