ghost use Rattle.std.specs.Prelude.{◌≡◌, ◌+◌, ◌-◌, ◌<◌, ◌≤◌, ◌↔◌, ◌^◌, ℕ, [], length, min, take, IfOk, IsTrue, Contains};
ghost use Rattle.tab_io.specs.Sinks.{Wrote, Finished, CountsPut, StaysSettled, UsesRoom, KeepsRoom, FinishWorks};
ghost use Rattle.tab_io.specs.Sources.{Gave, CountsGot, StaysSound};
ghost use Rattle.tab_io.specs.declared.source.Got.{Got};
ghost use Rattle.tab_io.specs.declared.sink.Put.{Put};
ghost use Rattle.std.specs.Io.KnownBytes.{Keeps};

use crate::fault_count::FaultCount;
use crate::sink::{Put, Sink};
use crate::source::{Got, Source};
use std::alloc::{AllocError, Global};

/// A source in memory, of which the listed reads fail.
#[derive(Drop)]
pub struct MemSource {
    bytes: Vec<u8>,
    at: usize,
    fails: Vec<u32>,
    reads: u64,
    faults: FaultCount,
    ghost within: { at ≤ length bytes.items },
}

impl MemSource {
    ghost use Rattle.tab_io.specs.Memory.{source_state, bytes_left, reads_of, fails_of};

    /// A source of these bytes. The reads of these numbers fail, counted from 0, and no other.
    pub fn of(alloc: Global, bytes: &[u8], fails: &[u32]) -> Result<MemSource, AllocError>
        ensures bytes { IfOk result (λ source. bytes_left source ≡ bytes.now) }
        ensures fails { IfOk result (λ source. fails_of source ≡ fails.now) }
        ensures no_read { IfOk result (λ source. reads_of source ≡ 0) }
        ensures no_fault { IfOk result (λ source. (source_state source).faults ≡ 0) }
    {
        Ok(MemSource {
            bytes: bytes.to_vec(alloc)?,
            at: 0,
            fails: fails.to_vec(alloc)?,
            reads: 0,
            faults: FaultCount::new(),
        })
    }
}

impl Source for MemSource {
    ghost use Rattle.tab_io.specs.Memory.{source_state, bytes_left, reads_of, fails_of};

    ghost state = { source_state };

    // Besides what each source owes: exactly the listed reads fail, each fault counts once, and a
    // read gives as many bytes as there are and fit.
    fn read(&mut self, into: &mut [u8]) -> Got
        requires { 0 < length into.old }
        ensures gave { Gave (source_state self.old) (source_state self.new) into.new result }
        ensures later { (source_state self.old).faults ≤ (source_state self.new).faults }
        ensures sound { StaysSound (source_state self.old) (source_state self.new) result }

        ensures listed { (result ≡ Got.Failed) ↔ Contains (fails_of self.old) (reads_of self.old) }
        ensures count { (n : ℕ) → result ≡ Got.Bytes n
            → n ≡ min (length (bytes_left self.old)) (length into.old) }
        ensures reads { reads_of self.new ≡ min (reads_of self.old + 1) (2 ^ 64 - 1) }
        ensures fails { fails_of self.new ≡ fails_of self.old }
        ensures faults { CountsGot (source_state self.old).faults
            (source_state self.new).faults result }
    {
        let number = self.reads;
        self.reads = self.reads.saturating_add(1);
        if is_listed(&self.fails, number) {
            self.faults.rise();
            return Got::Failed;
        }
        let (_, left) = self.bytes.split_at(self.at);
        if left.is_empty() {
            return Got::End;
        }
        let count = copy_front(left, into);
        self.at += count;
        Got::Bytes(count)
    }
}

// Whether the number is one of these.
fn is_listed(numbers: &[u32], number: u64) -> bool
    ensures { IsTrue result ↔ Contains numbers.now number }
{
    match u32::try_from(number) {
        Ok(number) => numbers.contains(&number),
        Err(_) => false,
    }
}

// Copies as many of the bytes as there is room for, and says how many.
fn copy_front(from: &[u8], into: &mut [u8]) -> usize
    ensures count { result ≡ min (length from.now) (length into.old) }
    ensures copied { take result into.new ≡ take result from.now }
{
    let count = from.len().min(into.len());
    into[..count].copy_from_slice(&from[..count]);
    count
}

/// A sink in memory with room for so many bytes in all.
#[derive(Drop)]
pub struct MemSink {
    bytes: Vec<u8>,
    room: usize,
    settled: usize,
    faults: FaultCount,
    ghost within: { length bytes.items ≤ room },
    ghost roomy: { room ≤ bytes.cap },
}

impl MemSink {
    ghost use Rattle.tab_io.specs.Memory.{sink_state, bytes_taken, room_of};

    /// An empty sink with room for so many bytes. The memory for them is taken here.
    pub fn with_room(alloc: Global, room: usize) -> Result<MemSink, AllocError>
        ensures empty { IfOk result (λ sink. bytes_taken sink ≡ []) }
        ensures room { IfOk result (λ sink. room_of sink ≡ room) }
        ensures unsettled { IfOk result (λ sink. (sink_state sink).settled ≡ Some 0) }
        ensures no_fault { IfOk result (λ sink. (sink_state sink).faults ≡ 0) }
    {
        Ok(MemSink {
            bytes: Vec::with_capacity(alloc, room)?,
            room,
            settled: 0,
            faults: FaultCount::new(),
        })
    }

    /// The bytes that it took.
    pub fn bytes(&self) -> &[u8]
        ensures { result.now ≡ bytes_taken self.now }
    {
        self.bytes.as_slice()
    }
}

impl Sink for MemSink {
    ghost use Rattle.tab_io.specs.Memory.{sink_state, room_of, room_left};

    ghost state = { sink_state };

    // Besides what each sink owes: it takes what fits, exactly a write with no room left fails, and
    // each fault counts once.
    fn write(&mut self, piece: &[u8]) -> Put
        requires { 0 < length piece.now }
        ensures wrote { Wrote (sink_state self.old) (sink_state self.new) piece.now result }
        ensures room { UsesRoom (sink_state self.old) (sink_state self.new) result }
        ensures settled { StaysSettled (sink_state self.old).settled (sink_state self.new).settled }
        ensures later { (sink_state self.old).faults ≤ (sink_state self.new).faults }

        ensures full { (result ≡ Put.Failed) ↔ (room_left self.old ≡ 0) }
        ensures count { (n : ℕ) → result ≡ Put.Took n
            → n ≡ min (length piece.now) (room_left self.old) }
        ensures limit { room_of self.new ≡ room_of self.old }
        ensures faults { CountsPut (sink_state self.old).faults
            (sink_state self.new).faults result }
    {
        let count = piece.len().min(self.room - self.bytes.len());
        if count == 0 {
            self.faults.rise();
            return Put::Failed;
        }
        self.bytes.extend_from_slice(&piece[..count]).unwrap();
        Put::Took(count)
    }

    // Besides what each sink owes: it never fails.
    fn finish(&mut self) -> Put
        ensures finished { Finished (sink_state self.old) (sink_state self.new) result }
        ensures works { FinishWorks (sink_state self.old) result }
        ensures taken { Keeps (sink_state self.old).taken (sink_state self.new).taken }
        ensures room { KeepsRoom (sink_state self.old) (sink_state self.new) }
        ensures later { (sink_state self.old).faults ≤ (sink_state self.new).faults }

        ensures done { result ≡ Put.Took 0 }
        ensures limit { room_of self.new ≡ room_of self.old }
        ensures faults { CountsPut (sink_state self.old).faults
            (sink_state self.new).faults result }
    {
        self.settled = self.bytes.len();
        Put::Took(0)
    }
}
