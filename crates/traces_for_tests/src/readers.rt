//! Readers that fail, give few bytes a call or are interrupted.

use std::io;
use std::io::{Error, ErrorKind, Read};

/// A reader that fails with this kind at each call, and counts the calls.
#[derive(Drop)]
pub struct FailingReader {
    kind: ErrorKind,
    /// How often it was called.
    pub calls: usize,
}

impl FailingReader {
    /// One that fails with this kind.
    pub fn new(kind: ErrorKind) -> FailingReader {
        FailingReader { kind, calls: 0 }
    }
}

impl Read for FailingReader {
    fn read(&mut self, _buf: &mut [u8]) -> io::Result<usize> {
        self.calls = self.calls.saturating_add(1);
        Err(Error::from(self.kind))
    }
}

/// A reader that gives at most so many bytes a call, interrupted once before each call and before its end.
#[derive(Drop)]
pub struct SlowReader<R> {
    inner: R,
    most: usize,
    interrupted: bool,
}

impl<R: Read> SlowReader<R> {
    /// What this reader gives, at most so many bytes a call.
    pub fn new(inner: R, most: usize) -> SlowReader<R> {
        SlowReader {
            inner,
            most,
            interrupted: false,
        }
    }
}

impl<R: Read> Read for SlowReader<R> {
    fn read(&mut self, buf: &mut [u8]) -> io::Result<usize> {
        self.interrupted = !self.interrupted;
        if self.interrupted {
            return Err(Error::from(ErrorKind::Interrupted));
        }
        let count = buf.len().min(self.most);
        self.inner.read(&mut buf[..count])
    }
}

/// A reader that gives its bytes and then fails with this kind.
#[derive(Drop)]
pub struct TornReader<'a> {
    rest: &'a [u8],
    kind: ErrorKind,
}

impl<'a> TornReader<'a> {
    /// One of these bytes.
    pub fn new(rest: &'a [u8], kind: ErrorKind) -> TornReader<'a> {
        TornReader { rest, kind }
    }
}

impl Read for TornReader<'_> {
    fn read(&mut self, buf: &mut [u8]) -> io::Result<usize> {
        if self.rest.is_empty() {
            return Err(Error::from(self.kind));
        }
        self.rest.read(buf)
    }
}

/// A reader that gives its bytes, then its end, and fails after that. It counts the calls.
#[derive(Drop)]
pub struct EndedReader<'a> {
    rest: &'a [u8],
    ended: bool,
    /// How often it was called.
    pub calls: usize,
}

impl<'a> EndedReader<'a> {
    /// One of these bytes.
    pub fn new(rest: &'a [u8]) -> EndedReader<'a> {
        EndedReader {
            rest,
            ended: false,
            calls: 0,
        }
    }
}

impl Read for EndedReader<'_> {
    fn read(&mut self, buf: &mut [u8]) -> io::Result<usize> {
        self.calls = self.calls.saturating_add(1);
        if self.ended {
            return Err(Error::from(ErrorKind::Other));
        }
        self.ended = self.rest.is_empty();
        self.rest.read(buf)
    }
}
