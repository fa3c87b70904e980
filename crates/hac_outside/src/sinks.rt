//! Where bytes go.
ghost use Rattle.std.specs.Prelude.{◌≡◌, ◌≢◌, ◌<◌, ◌≤◌, Ok, OnOk, OnErr, length};
ghost use Rattle.std.specs.Io.{WritesAtMost};
ghost use Rattle.std.specs.Io.KnownBytes.{Keeps, WriteAppends};
ghost use Rattle.hac_outside.specs.Causes.{HasCause};
ghost use Rattle.hac_outside.specs.Seen.{SinkSeen, HoldsMore, Writes, WritesSome};

use super::fault::Failed;

/// A place that bytes are written to, with a count of its faults.
pub trait Sink {
    // A sink that tells its bytes goes on telling them; one that doesn't may begin to. At the end
    // of its type the count of faults stays as it is.
    ghost seen: { Self → SinkSeen };

    /// Takes some bytes from the front of `bytes`, and says how many. Where there are any, it takes
    /// one at least, or fails. It may hold them back.
    fn write(&mut self, bytes: &[u8]) -> Result<usize, Failed>
        ensures bound { WritesAtMost result bytes.now }
        ensures some { 0 < length bytes.now → result ≢ Ok 0 }
        ensures bytes { WriteAppends (seen self.old).written
            (seen self.new).written result bytes.now }
        ensures held { HoldsMore (seen self.old).held_back (seen self.new).held_back result }
        ensures cause { HasCause (seen self.old).faults (seen self.new).faults result };

    /// Passes on what the sink may still hold back.
    fn flush(&mut self) -> Result<(), Failed>
        ensures bytes { Keeps (seen self.old).written (seen self.new).written }
        ensures passed { OnOk result ((seen self.new).held_back ≡ 0) }
        ensures held { (seen self.new).held_back ≤ (seen self.old).held_back }
        ensures cause { HasCause (seen self.old).faults (seen self.new).faults result };
}

/// Writes all of `bytes`, by as many writes as it takes. It doesn't flush. After a failure the
/// sink holds a beginning of `bytes`, and nothing is tried again.
pub fn write_all<K: Sink>(sink: &mut K, bytes: &[u8]) -> Result<(), Failed>
    ensures ok { OnOk result (Writes (K.seen sink.old) (K.seen sink.new) bytes.now) }
    ensures err { OnErr result (WritesSome (K.seen sink.old) (K.seen sink.new) bytes.now) }
    ensures cause { HasCause (K.seen sink.old).faults (K.seen sink.new).faults result }
{
    let mut done = 0;
    while done < bytes.len() {
        done += sink.write(&bytes[done..])?;
    }
    Ok(())
}
