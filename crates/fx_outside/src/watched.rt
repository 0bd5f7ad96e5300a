//! A reader that is watched: how many bytes it gave, and how many of its reads failed.
ghost use Rattle.std.specs.Prelude.{◌≡◌, ◌≢◌, IfOk, IfErr, OnOk, OnErr};
ghost use Rattle.std.specs.IoError.{error_kind};
ghost use Rattle.std.specs.Io.{ReadsAtMost};
ghost use Rattle.std.specs.Io.KnownBytes.{ReadConsumes};
ghost use Rattle.fx_outside.specs.Calls.{one_more, so_many_more};

use std::io;
use std::io::{ErrorKind, Read};

/// A reader with its counts. A read that a signal interrupted has not failed.
#[derive(Drop)]
pub struct Watched<F: Read + Drop> {
    reader: F,
    given: u64,
    failed: u64,
}

impl<F: Read + Drop> Watched<F> {
    /// Nothing was read yet.
    pub fn new(reader: F) -> Watched<F>
        ensures reader { result.reader ≡ reader }
        ensures given { result.given ≡ 0 }
        ensures failed { result.failed ≡ 0 }
    {
        Watched {
            reader,
            given: 0,
            failed: 0,
        }
    }

    /// How many bytes it gave.
    pub fn given(&self) -> u64
        ensures { result ≡ self.now.given }
    {
        self.given
    }

    /// How many reads failed.
    pub fn failed(&self) -> u64
        ensures { result ≡ self.now.failed }
    {
        self.failed
    }
}

impl<F: Read + Drop> Read for Watched<F> {
    ghost remaining = { λ w. F.remaining w.reader };

    fn read(&mut self, buf: &mut [u8]) -> io::Result<usize>
        ensures bound { ReadsAtMost result buf.new }
        ensures bytes { ReadConsumes (F.remaining self.old.reader) (F.remaining self.new.reader) result buf.new }
        ensures given { IfOk result (λ n. self.new.given ≡ so_many_more n self.old.given) }
        ensures none_given { OnErr result (self.new.given ≡ self.old.given) }
        ensures none_failed { OnOk result (self.new.failed ≡ self.old.failed) }
        ensures failed { IfErr result (λ e. error_kind e ≢ ErrorKind.Interrupted
            → self.new.failed ≡ one_more self.old.failed) }
        ensures again { IfErr result (λ e. error_kind e ≡ ErrorKind.Interrupted → self.new.failed ≡ self.old.failed) }
    {
        let read = self.reader.read(buf);
        match &read {
            Ok(n) => self.given = self.given.saturating_add(*n as u64),
            Err(e) if e.kind() == ErrorKind::Interrupted => {}
            Err(_) => self.failed = self.failed.saturating_add(1),
        }
        read
    }
}
