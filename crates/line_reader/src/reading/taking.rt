//! The bytes that follow a line, in whatever pieces the stream comes.
ghost use Rattle.std.specs.Prelude.{◌≡◌, ◌+◌, ◌<◌, ◌≤◌, false, length, min, take, drop, IfOk};
ghost use Rattle.std.specs.Prelude.{OnOk, OnErr, IsErrOf};
ghost use Rattle.hac_model.specs.declared.taken.Taken.TheVariants.{Whole};
ghost use Rattle.line_reader.specs.Reading.{IsReading, IsReaderBehind};
ghost use Rattle.line_reader.specs.Takes.{TakesPut, within};

use super::{LineFault, Reader};
use hac_model::{SCRIPT_LIMIT, TEXT_LIMIT, Taken, Text};
use hac_outside::Source;

impl Reader {
    /// Takes the bytes that follow a line, all that it asks for or all that the script has. If they
    /// are no more than a text may have, they stay in the reader until all came; more are dropped
    /// as they come.
    pub fn take_put<S: Source>(&mut self, source: &mut S, asked: u64) -> Result<Taken, LineFault>
        // The line that asks for the bytes was given, or a fault came and they are asked for again.
        requires { IsReaderBehind asked self.old (S.seen source.old) }

        ensures { TakesPut S.seen asked self.old self.new source.old source.new result }
    {
        if asked > TEXT_LIMIT {
            self.drop_put(source, asked)
        } else {
            self.keep_put(source, asked)
        }
    }

    /// Takes bytes that a text may have.
    fn keep_put<S: Source>(&mut self, source: &mut S, asked: u64) -> Result<Taken, LineFault>
        requires source { IsReaderBehind asked self.old (S.seen source.old) }
        requires few { asked ≤ TEXT_LIMIT }
        ensures { TakesPut S.seen asked self.old self.new source.old source.new result }
    {
        'bytes: loop {
            if asked <= self.within() as u64 {
                return self.give_text(asked as usize);
            }
            if self.has_ended()? {
                self.skip(self.within());
                return Ok(Taken::Short);
            }
            self.fill(source)?;
        }
    }

    /// Takes more bytes than a text may have, and keeps none.
    fn drop_put<S: Source>(&mut self, source: &mut S, asked: u64) -> Result<Taken, LineFault>
        requires source { IsReaderBehind asked self.old (S.seen source.old) }
        requires many { TEXT_LIMIT < asked }
        ensures { TakesPut S.seen asked self.old self.new source.old source.new result }
    {
        let mut due = asked;
        'bytes: loop {
            due -= self.drop_held(due);
            if due == 0 {
                return Ok(Taken::Dropped);
            }
            if self.has_ended()? {
                return Ok(Taken::Short);
            }
            self.fill(source)?;
        }
    }

    /// How many of the bytes that are buffered lie within the limit of a script.
    fn within(&self) -> usize
        ensures count { result ≡ within self.now }
        ensures sound { IsReading self.now }
    {
        self.buffered().len() - self.taken.saturating_sub(SCRIPT_LIMIT) as usize
    }

    /// Whether the source has ended. A script of which a byte beyond the limit was taken is too
    /// long.
    fn has_ended(&self) -> Result<bool, LineFault>
        ensures ended { IfOk result (λ ended. ended ≡ self.now.ended) }
        ensures room { OnOk result (self.now.taken ≤ SCRIPT_LIMIT) }
        ensures past { OnErr result (IsErrOf result
            LineFault.TooLong × (self.now.ended ≡ false) × (self.now.taken ≡ SCRIPT_LIMIT + 1)) }
    {
        if self.taken > SCRIPT_LIMIT {
            return Err(LineFault::TooLong);
        }
        Ok(self.ended)
    }

    /// Gives the first `count` bytes as a text.
    fn give_text(&mut self, count: usize) -> Result<Taken, LineFault>
        requires inside { count ≤ within self.old }
        ensures text { IfOk result (λ taken. taken ≡ Whole (take count self.old.buffered)) }
        ensures ok { OnOk result (self.new
            ≡ record self.old { buffered = drop count self.old.buffered }) }
        ensures err { OnErr result (self.new ≡ self.old) }
        ensures memory { OnErr result (IsErrOf result LineFault.Memory) }
    {
        let text = Vec::from_slice(self.alloc, &self.buffered()[..count])?;
        self.skip(count);
        Ok(Taken::Whole(Text::new(text)))
    }

    /// Leaves out at most `most` of the buffered bytes, none beyond the limit of a script, and
    /// answers how many.
    fn drop_held(&mut self, most: u64) -> u64
        ensures count { result ≡ min most (within self.old) }
        ensures buffered { self.new ≡ record self.old { buffered = drop result self.old.buffered } }
        ensures was { IsReading self.old }
        ensures sound { IsReading self.new }
    {
        let within = self.within();
        let count = if most < within as u64 {
            most as usize
        } else {
            within
        };
        self.skip(count);
        count as u64
    }

    /// Leaves out the first `count` bytes.
    fn skip(&mut self, count: usize)
        requires inside { count ≤ within self.old }
        ensures buffered { self.new ≡ record self.old { buffered = drop count self.old.buffered } }
        ensures sound { IsReading self.new }
    {
        self.start += count;
        self.scanned = self.scanned.max(self.start);
    }
}
