//! A reader whose calls are counted.
ghost use Rattle.std.specs.Prelude.{◌≡◌, ◌+◌, ◌^◌, ◌<◌};
ghost use Rattle.std.specs.Io.{ReadsAtMost};
ghost use Rattle.std.specs.Io.KnownBytes.{ReadConsumes};

use std::io;
use std::io::Read;

/// A reader that is lent, and the number of calls of its `read` since then. While it is lent, nothing else reaches it.
#[derive(Drop)]
pub(crate) struct CountedReader<'r, R> {
    reader: &'r mut R,
    calls: usize,
}

impl<'r, R: Read> CountedReader<'r, R> {
    /// The reader, not called yet.
    pub(crate) fn new(reader: &'r mut R) -> CountedReader<'r, R>
        ensures same_reference { result.reader.ghost_name ≡ reader.entry.ghost_name }
        ensures reader { result.reader.now ≡ reader.old }
        ensures calls { result.calls ≡ 0 }
    {
        CountedReader { reader, calls: 0 }
    }

    /// Calls `read` of the reader once.
    pub(crate) fn read(&mut self, buffer: &mut [u8]) -> io::Result<usize>
        requires countable { self.old.calls < 2 ^ 32 }
        ensures same_reference { self.new.reader.ghost_name ≡ self.old.reader.ghost_name }
        ensures calls { self.new.calls ≡ self.old.calls + 1 }
        ensures bound { ReadsAtMost result buffer.new }
        ensures bytes { ReadConsumes (R.remaining self.old.reader.now) (R.remaining self.new.reader.now) result buffer.new }
    {
        self.calls += 1;
        self.reader.read(buffer)
    }

    /// The reader, given back.
    pub(crate) fn into_reader(self) -> &'r mut R
        ensures same_reference { result.ghost_name ≡ self.entry.reader.ghost_name }
        ensures reader { result.now ≡ self.entry.reader.now }
    {
        self.reader
    }
}
