// The lines of a sheet's text, one after another.
ghost use Rattle.std.specs.Prelude.{◌≡◌, ◌+◌, ◌<◌, ◌≤◌, true, IfOk, Ok, Err, MatchResult};
ghost use Rattle.sheet.specs.Reading.{next_line, number_line, rate_line, frame_lines, timing_lines, flow_lines, heading_line};
ghost use Rattle.sheet.specs.Readers.{cursor, keyed_line, Reads};
ghost use Rattle.sheet.specs.Lines.{line_part};

use super::Reader;
use crate::cuts::cut;
use crate::faults::LineFault;
use crate::lines::{Key, Line, Part, key_of};
use traffic::flow::Flow;
use traffic::rate::{Rate, wire_time};

// The lines of queue and octets.
#[derive(Clone, Copy)]
struct Frame {
    queue: u8,
    octets: u16,
}

// The lines of period and deadline.
#[derive(Clone, Copy)]
struct Timing {
    period: u32,
    deadline: u32,
}

impl<'a> Reader<'a> {
    // The next line, up to the first byte 10 and cut at its first "=".
    fn next_line(&mut self) -> Result<Line<'a>, LineFault>
        ensures reads { MatchResult result (λ l. next_line (cursor self.old) ≡ Ok (keyed_line l, cursor self.new)) (λ e. next_line (cursor self.old) ≡ Err e) }
        ensures place { IfOk result (λ l. (line_part l).line ≡ self.old.line) }
    {
        let line = self.line;
        let fault = LineFault::Form(line);
        let (text, rest) = cut(self.rest, b'\n').ok_or(fault)?;
        self.rest = rest;
        self.line = line + 1;
        let (key, bytes) = cut(text, b'=').ok_or(fault)?;
        let key = key_of(key).ok_or(fault)?;
        Ok(Line::with(key, Part { line, bytes }))
    }

    // The number of the next line, which has to have this key, from `low` to `high`.
    fn number(&mut self, key: Key, low: u64, high: u64) -> Result<u64, LineFault>
        ensures reads { Reads (number_line key low high (cursor self.old)) result (cursor self.new) }
        ensures range { IfOk result (λ n. (low ≤ n) × (n ≤ high)) }
    {
        let part = self.next_line()?.expect(key)?;
        part.between(low, high)
    }

    // The line of the rate.
    pub(super) fn rate(&mut self) -> Result<Rate, LineFault>
        ensures { Reads (rate_line (cursor self.old)) result (cursor self.new) }
    {
        // A `TryFrom` for `Rate`, called here alone, would be this match and a second one of its answer.
        let line = self.line;
        match self.number(Key::Rate, 0, 9_999_999_999)? {
            10 => Ok(Rate::Mbit10),
            100 => Ok(Rate::Mbit100),
            1000 => Ok(Rate::Mbit1000),
            _ => Err(LineFault::Range(line)),
        }
    }

    // The lines of queue and octets. `number` keeps the ranges, so no cast loses a bit; `try_from` would add an `Err` that
    // never comes.
    fn frame(&mut self) -> Result<Frame, LineFault>
        ensures { Reads (frame_lines (cursor self.old)) result (cursor self.new) }
    {
        let queue = self.number(Key::Queue, 1, 7)? as u8;
        let octets = self.number(Key::Octets, 64, 1522)? as u16;
        Ok(Frame { queue, octets })
    }

    // The lines of period and deadline, which a frame's wire time may not pass.
    fn timing(&mut self, wire: u32) -> Result<Timing, LineFault>
        ensures { Reads (timing_lines wire (cursor self.old)) result (cursor self.new) }
    {
        let period = self.number(Key::Period, 1, 1_000_000_000)? as u32;
        let line = self.line;
        let deadline = self.number(Key::Deadline, 1, period as u64)? as u32;
        if wire > deadline {
            return Err(LineFault::WireTime(line));
        }
        Ok(Timing { period, deadline })
    }

    // The lines of a flow behind its number: queue, octets, period, deadline, miss, of and weight.
    pub(super) fn flow(&mut self, rate: Rate) -> Result<Flow, LineFault>
        ensures { Reads (flow_lines rate (cursor self.old)) result (cursor self.new) }
    {
        let Frame { queue, octets } = self.frame()?;
        let Timing { period, deadline } = self.timing(wire_time(rate, octets))?;
        let miss = self.number(Key::Miss, 0, 19)?;
        let among = self.number(Key::Of, miss + 1, 20)? as u8;
        let weight = self.number(Key::Weight, 0, 255)? as u8;
        let miss = miss as u8;
        Ok(Flow {
            queue,
            octets,
            period,
            deadline,
            miss,
            among,
            weight,
        })
    }

    // Does one more flow begin behind so many?
    pub(super) fn heading(&mut self, count: usize) -> Result<bool, LineFault>
        ensures reads { Reads (heading_line count (cursor self.old)) result (cursor self.new) }
        ensures few { IfOk result (λ more. more ≡ true → count < 64) }
    {
        let line = self.next_line()?;
        let part = line.part();
        let count = count as u64;
        match line {
            Line::Flow(_) if count < 64 => {
                part.between(count + 1, count + 1)?;
                Ok(true)
            }
            Line::Flows(_) if count > 0 => {
                part.between(count, count)?;
                Ok(false)
            }
            _ => Err(LineFault::Form(part.line)),
        }
    }
}
