// Where the replies go. The first write that fails is kept, and nothing is written behind it: what a request makes of the index
// depends on no write, so only the end of a line asks whether all was written.
ghost use Rattle.std.specs.Prelude.{◌≡◌, ◌↔◌, IfSome, IsErr, IsOk, IsTrue, OnOk};
ghost use Rattle.std.specs.Io.KnownBytes.{Appends};

use std::fmt::Display;
use std::io;
use std::io::Write;

#[derive(Drop)]
pub struct Output<W> {
    to: W,
    written: io::Result<()>,
}

impl<W: Write> Output<W> {
    pub fn new(to: W) -> Output<W>
        ensures writer { result.to ≡ to }
        ensures no_failure { IsOk result.written }
    {
        Output {
            to,
            written: Ok(()),
        }
    }

    pub fn print<D: Display + Drop>(&mut self, value: D)
        ensures text { OnOk self.new.written (IfSome (D.output value) (Appends (W.contents self.old.to) (W.contents self.new.to))) }
        ensures failed { IsErr self.old.written → self.new ≡ self.old }
    {
        if self.written.is_ok() {
            self.written = self.to.write_fmt(value);
        }
    }

    pub fn write(&mut self, bytes: &[u8])
        ensures bytes { OnOk self.new.written (Appends (W.contents self.old.to) (W.contents self.new.to) bytes.now) }
        ensures failed { IsErr self.old.written → self.new ≡ self.old }
    {
        if self.written.is_ok() {
            self.written = self.to.write_all(bytes);
        }
    }

    // Whether all was written so far.
    pub fn is_written(&self) -> bool
        ensures { IsTrue result ↔ IsOk self.now.written }
    {
        self.written.is_ok()
    }

    // The first write that failed.
    pub fn close(self) -> io::Result<()>
    where
        W: Drop,
        ensures { IsOk result ↔ IsOk self.written }
    {
        match self.written {
            Ok(()) => Ok(()),
            Err(e) => Err(io::Error::new(e.kind(), "replay: standard output cannot be written")),
        }
    }
}
