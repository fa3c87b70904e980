//! Where bytes come from.
ghost use Rattle.std.specs.Prelude.{◌≡◌, false};
ghost use Rattle.std.specs.Io.{ReadsAtMost};
ghost use Rattle.std.specs.Io.KnownBytes.{ReadConsumes};
ghost use Rattle.hac_outside.specs.Causes.{HasCause};
ghost use Rattle.hac_outside.specs.Seen.{SourceSeen, gives_end};

use super::fault::Failed;

/// A place that bytes are read from, with a count of its faults. Its end is given once.
pub trait Source {
    // A source that tells its bytes goes on telling them; one that doesn't may begin to. At the end
    // of its type the count of faults stays as it is.
    ghost seen: { Self → SourceSeen };

    /// Reads some bytes to the front of `into`, and says how many. 0 at a place that isn't empty
    /// is the end, and behind it no read may come: a terminal would wait for a second one. After a
    /// failure nothing is known of what `into` holds.
    fn read(&mut self, into: &mut [u8]) -> Result<usize, Failed>
        requires { (seen self.old).ended ≡ false }
        ensures bound { ReadsAtMost result into.new }
        ensures bytes { ReadConsumes (seen self.old).left (seen self.new).left result into.new }
        ensures end { (seen self.new).ended ≡ gives_end result into.new }
        ensures cause { HasCause (seen self.old).faults (seen self.new).faults result };
}
