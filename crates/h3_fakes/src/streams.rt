//! Sources and sinks that fail at a given call.

ghost use Rattle.std.specs.Prelude.{◌≡◌, Some};

use arrayvec::ArrayVec;
use h3_streams::{Sink, Source, StreamFault};

/// Which calls of a stream fail, counted from 0.
#[derive(Clone, Copy)]
pub enum Faults {
    /// Each from this one on.
    From(u64),

    /// This one alone.
    Once(u64),
}

/// No call fails.
pub const NO_FAULT: Faults = Faults::From(u64::MAX);

impl Faults {
    /// The first call that fails.
    pub fn first(self) -> u64 {
        match self {
            Faults::From(call) | Faults::Once(call) => call,
        }
    }

    /// Whether a call fails.
    fn has(self, call: u64) -> bool {
        match self {
            Faults::From(first) => call >= first,
            Faults::Once(only) => call == only,
        }
    }
}

/// How many pulls of at most `most` bytes take so many bytes.
pub fn pulls_of(bytes: usize, most: usize) -> u64 {
    bytes.div_ceil(most.max(1)) as u64
}

/// How many of them read a text: the last one finds its end.
pub fn pulls_to_end(text: &str, most: usize) -> u64 {
    pulls_of(text.len(), most).saturating_add(1)
}

/// A source over bytes in memory, which gives at most `most` of them a pull.
#[derive(Drop)]
pub struct FaultySource<'a> {
    rest: &'a [u8],
    most: usize,
    faults: Faults,
    pulls: u64,
    failed: bool,
}

impl<'a> FaultySource<'a> {
    /// A source of these bytes, at most `most` a pull. With `most` 0 each pull fails.
    pub fn new(bytes: &'a [u8], most: usize, faults: Faults) -> Self {
        FaultySource {
            rest: bytes,
            most,
            faults,
            pulls: 0,
            failed: false,
        }
    }

    /// The number of pulls so far.
    pub fn pulls(&self) -> u64 {
        self.pulls
    }

    /// Whether a pull failed.
    pub fn failed(&self) -> bool {
        self.failed
    }
}

impl Source for FaultySource<'_> {
    ghost left = { λ s. Some s.rest.now };

    ghost has_failed = { λ s. s.failed };

    fn pull(&mut self, buf: &mut [u8]) -> Result<usize, StreamFault> {
        let fails = self.most == 0 || self.faults.has(self.pulls);
        self.pulls = self.pulls.saturating_add(1);
        if fails {
            self.failed = true;
            return Err(StreamFault);
        }
        let count = self.rest.len().min(buf.len()).min(self.most);
        let (front, rest) = self.rest.split_at(count);
        buf[..count].copy_from_slice(front);
        self.rest = rest;
        Ok(count)
    }
}

/// A sink with room for `N` bytes, which takes at most `most` of them a push. Where it is full, a
/// push fails.
#[derive(Drop)]
pub struct FaultySink<const N: usize> {
    bytes: ArrayVec<u8, N>,
    most: usize,
    faults: Faults,
    calls: u64,
    flushes: u64,
    flush_fails: bool,
    failed: bool,
}

impl<const N: usize> FaultySink<N> {
    /// A sink that takes at most `most` bytes a push. Pushes and flushes are counted together.
    pub fn new(most: usize, faults: Faults) -> Self {
        FaultySink {
            bytes: ArrayVec::new(),
            most,
            faults,
            calls: 0,
            flushes: 0,
            flush_fails: false,
            failed: false,
        }
    }

    /// A sink whose pushes succeed and whose flushes fail.
    pub fn refusing_flush(most: usize) -> Self {
        FaultySink {
            bytes: ArrayVec::new(),
            most,
            faults: NO_FAULT,
            calls: 0,
            flushes: 0,
            flush_fails: true,
            failed: false,
        }
    }

    /// The bytes that it took.
    pub fn bytes(&self) -> &[u8] {
        self.bytes.as_slice()
    }

    /// The number of pushes and flushes so far.
    pub fn calls(&self) -> u64 {
        self.calls
    }

    /// The number of flushes so far.
    pub fn flushes(&self) -> u64 {
        self.flushes
    }

    /// Counts a call, and returns whether it fails.
    fn count(&mut self) -> bool
        ensures bytes { self.new.bytes.items ≡ self.old.bytes.items }
        ensures failed { self.new.failed ≡ self.old.failed }
    {
        let fails = self.faults.has(self.calls);
        self.calls = self.calls.saturating_add(1);
        fails
    }
}

impl<const N: usize> Sink for FaultySink<N> {
    ghost taken = { λ s. Some s.bytes.items };

    ghost has_failed = { λ s. s.failed };

    fn push(&mut self, bytes: &[u8]) -> Result<usize, StreamFault> {
        let fails = self.count();
        let room = self.most.min(self.bytes.remaining_capacity());
        let count = bytes.len().min(room);
        if fails || (count == 0 && !bytes.is_empty()) {
            self.failed = true;
            return Err(StreamFault);
        }
        if self.bytes.try_extend_from_slice(&bytes[..count]).is_err() {
            self.failed = true;
            return Err(StreamFault);
        }
        Ok(count)
    }

    fn flush(&mut self) -> Result<(), StreamFault> {
        self.flushes = self.flushes.saturating_add(1);
        if self.count() || self.flush_fails {
            self.failed = true;
            return Err(StreamFault);
        }
        Ok(())
    }
}
