//! Writers that fail, stop short or are interrupted.

use std::alloc::Global;
use std::io;
use std::io::{Error, ErrorKind, Write};

/// A writer of one byte a call, interrupted once before each.
#[derive(Drop)]
pub struct SlowWriter {
    /// The bytes that it took.
    pub taken: Vec<u8>,
    interrupted: bool,
}

impl SlowWriter {
    /// One that took nothing yet.
    pub fn new(alloc: Global) -> SlowWriter {
        SlowWriter {
            taken: Vec::new(alloc),
            interrupted: false,
        }
    }
}

impl Write for SlowWriter {
    fn write(&mut self, buf: &[u8]) -> io::Result<usize> {
        self.interrupted = !self.interrupted;
        if self.interrupted {
            return Err(Error::from(ErrorKind::Interrupted));
        }
        let count = buf.len().min(1);
        self.taken.extend_from_slice(&buf[..count])?;
        Ok(count)
    }

    fn flush(&mut self) -> io::Result<()> {
        Ok(())
    }
}

/// A writer that is interrupted so many times and then takes all bytes. It counts the calls.
#[derive(Drop)]
pub struct InterruptedWriter {
    /// The bytes that it took.
    pub taken: Vec<u8>,
    interrupts: usize,
    /// How often it was called.
    pub calls: usize,
}

impl InterruptedWriter {
    /// One that is interrupted so many times.
    pub fn new(alloc: Global, interrupts: usize) -> InterruptedWriter {
        InterruptedWriter {
            taken: Vec::new(alloc),
            interrupts,
            calls: 0,
        }
    }
}

impl Write for InterruptedWriter {
    fn write(&mut self, buf: &[u8]) -> io::Result<usize> {
        self.calls = self.calls.saturating_add(1);
        if self.calls <= self.interrupts {
            return Err(Error::from(ErrorKind::Interrupted));
        }
        self.taken.extend_from_slice(buf)?;
        Ok(buf.len())
    }

    fn flush(&mut self) -> io::Result<()> {
        Ok(())
    }
}

/// What a writer does that has no room left.
#[derive(Clone, Copy)]
pub enum Full {
    /// It fails with this kind.
    Fails(ErrorKind),
    /// It takes no byte.
    TakesNothing,
}

/// A writer with room for some bytes, and what it does then. It counts the calls.
#[derive(Drop)]
pub struct ShortWriter {
    /// The bytes that it took.
    pub taken: Vec<u8>,
    room: usize,
    full: Full,
    /// How often it was called.
    pub calls: usize,
}

impl ShortWriter {
    /// One with room for so many bytes.
    pub fn new(alloc: Global, room: usize, full: Full) -> ShortWriter {
        ShortWriter {
            taken: Vec::new(alloc),
            room,
            full,
            calls: 0,
        }
    }
}

impl Write for ShortWriter {
    fn write(&mut self, buf: &[u8]) -> io::Result<usize> {
        self.calls = self.calls.saturating_add(1);
        let count = self.room.saturating_sub(self.taken.len()).min(buf.len());
        if count > 0 {
            self.taken.extend_from_slice(&buf[..count])?;
            return Ok(count);
        }
        match self.full {
            Full::Fails(kind) => Err(Error::from(kind)),
            Full::TakesNothing => Ok(0),
        }
    }

    fn flush(&mut self) -> io::Result<()> {
        Ok(())
    }
}

/// A writer that takes all bytes, and fails to flush after so many flushes. It counts them.
#[derive(Drop)]
pub struct FlushedWriter {
    /// The bytes that it took.
    pub taken: Vec<u8>,
    most_flushes: usize,
    /// How often it was flushed.
    pub flushes: usize,
}

impl FlushedWriter {
    /// One that may be flushed so many times.
    pub fn new(alloc: Global, most_flushes: usize) -> FlushedWriter {
        FlushedWriter {
            taken: Vec::new(alloc),
            most_flushes,
            flushes: 0,
        }
    }
}

impl Write for FlushedWriter {
    fn write(&mut self, buf: &[u8]) -> io::Result<usize> {
        self.taken.extend_from_slice(buf)?;
        Ok(buf.len())
    }

    fn flush(&mut self) -> io::Result<()> {
        if self.flushes >= self.most_flushes {
            return Err(Error::from(ErrorKind::Other));
        }
        self.flushes = self.flushes.saturating_add(1);
        Ok(())
    }
}
