// What a reader gives, read to the start of a lent buffer.
#![tactic(auto)]

ghost use Rattle.std.specs.Prelude.{◌<◌, length, take, OnOk};
ghost use Rattle.std.specs.Io.KnownBytes.{Consumes, IsAtEnd};
ghost use Rattle.io.specs.Counts.{IsPrefixLen};

use std::io;
use std::io::Read;

// Reads until the buffer is full, the reader is at its end or a read fails, as one that a signal interrupts does. How many bytes were put at the buffer's start, and whether a read failed. Either way these bytes are what the reader lost; where no read failed and the buffer isn't full, the reader has none left. A count beside the result, since what came before a failure counts.
pub fn read_full<R: Read>(reader: &mut R, into: &mut [u8]) -> (usize, io::Result<()>)
    ensures in_bounds { IsPrefixLen result.0 into.new }
    ensures bytes { Consumes (R.remaining reader.old) (R.remaining reader.new) (take result.0 into.new) }
    ensures end { OnOk result.1 (result.0 < length into.new → IsAtEnd (R.remaining reader.new)) }
{
    let mut done = 0;
    // A while, since a read may give fewer bytes than there is room for.
    while done < into.len() {
        match reader.read(&mut into[done..]) {
            Ok(0) => return (done, Ok(())),
            Ok(n) => done += n,
            Err(e) => return (done, Err(e)),
        }
    }
    (done, Ok(()))
}
