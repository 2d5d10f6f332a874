//! Bounded reading.

ghost use Rattle.std.specs.Prelude.{◌≡◌, ◌+◌, ◌-◌, ◌≤◌, false, [], min, vec_len, IfOk, OnOk, IsErrOf, if◌then◌else◌};
ghost use Rattle.dh_ports.specs.Ports.{CountsUpTo, CountsAtLeast};
ghost use Rattle.dh_ports.specs.declared.intake.TheConstants.{MOST_READS};
ghost use Rattle.dh_ports.specs.Reading.{reader_failed, AddsOneRead, IsFull};

use crate::source::Source;
use crate::stop::Stop;
use std::alloc::Global;

/// The most reads that may bring bytes.
pub const MOST_READS: u32 = 100_000;

/// The most bytes that one read asks for.
pub const READ_SIZE: usize = 4096;

/// What was read so far, and in how many reads that brought bytes: at most 100,000.
#[derive(Drop)]
pub struct Intake {
    pub bytes: Vec<u8>,
    pub reads: u32,
    ghost counted: { reads ≤ vec_len bytes },
    ghost bounded: { reads ≤ MOST_READS },
}

impl Intake {
    /// An intake that has read nothing.
    pub fn new(alloc: Global) -> Intake
        ensures empty { result.bytes.items ≡ [] }
        ensures unasked { result.reads ≡ 0 }
    {
        Intake {
            bytes: Vec::new(alloc),
            reads: 0,
        }
    }

    /// Reads once, up to 4,096 bytes, and answers whether any came: none come only at the end. After 100,000 reads it asks the
    /// source no more. The bytes from before stay in any case.
    pub fn more<R: Source>(&mut self, source: &mut R) -> Result<bool, Stop>
        requires { R.broken source.old ≡ false }
        ensures adds { AddsOneRead (R.left source.old) (R.left source.new)
            self.old.bytes.items self.new.bytes.items result }
        ensures broken { R.broken source.new ≡ reader_failed result }
        ensures spent { IfOk result (λ came.
            self.new.reads ≡ self.old.reads + (if came then 1 else 0)) }
        ensures full { IsErrOf result Stop.TooManyTurns
            → IsFull self.old.reads self.old.bytes.items × (source.new ≡ source.old) }
        ensures reads { CountsUpTo (R.fills source.old) (R.fills source.new)
            (min 1 (MOST_READS - self.old.reads)) }
        ensures asked { OnOk result (CountsAtLeast (R.fills source.old) (R.fills source.new) 1) }
        ensures few { self.new.reads ≤ MOST_READS }
    {
        if self.reads == MOST_READS {
            return Err(Stop::TooManyTurns);
        }
        let mut room = [0u8; READ_SIZE];
        match source.fill(&mut room) {
            Err(_) => Err(Stop::Read),
            Ok(0) => Ok(false),
            Ok(count) => {
                if self.bytes.extend_from_slice(&room[..count]).is_err() {
                    return Err(Stop::Memory);
                }
                self.reads += 1;
                Ok(true)
            }
        }
    }
    /// All that was read.
    pub fn into_bytes(self) -> Vec<u8>
        ensures { result.items ≡ self.bytes.items }
    {
        let Intake { bytes, reads: _ } = self;
        bytes
    }
}
