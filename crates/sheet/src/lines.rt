// The lines of a sheet's text.
ghost use Rattle.std.specs.Prelude.{◌≡◌, if◌then◌else◌, Ok, Err};
ghost use Rattle.std.specs.Str.{bytes_eq};
ghost use Rattle.sheet.specs.declared.faults.LineFault.TheVariants.{Form};
ghost use Rattle.sheet.specs.Lines.{key_text, spelled, key_of, same_key, line_with, line_key, line_part, ranged};

use crate::digits::number;
use crate::faults::LineFault;

// The key of a line.
#[derive(Clone, Copy, PartialEq, Eq, Debug)]
pub(crate) enum Key {
    Rate,
    Flow,
    Queue,
    Octets,
    Period,
    Deadline,
    Miss,
    Of,
    Weight,
    Flows,
}

// The bytes of a line's number, with the line's place in the text, counted from 1.
#[derive(Clone, Copy)]
pub(crate) struct Part<'a> {
    pub line: u32,
    pub bytes: &'a [u8],
}

// A line by its key, which was cut off. By a rule of the project a line is an enum of its ten kinds; `with` and `key` tie them
// to `Key`.
#[derive(Clone, Copy)]
pub(crate) enum Line<'a> {
    Rate(Part<'a>),
    Flow(Part<'a>),
    Queue(Part<'a>),
    Octets(Part<'a>),
    Period(Part<'a>),
    Deadline(Part<'a>),
    Miss(Part<'a>),
    Of(Part<'a>),
    Weight(Part<'a>),
    Flows(Part<'a>),
}

// All keys.
const KEYS: [Key; 10] = [
    Key::Rate,
    Key::Flow,
    Key::Queue,
    Key::Octets,
    Key::Period,
    Key::Deadline,
    Key::Miss,
    Key::Of,
    Key::Weight,
    Key::Flows,
];

// The bytes of a key. They are compared, never printed, so no `Display` has them.
fn key_text(key: Key) -> &'static [u8]
    ensures { result.now ≡ key_text key }
{
    match key {
        Key::Rate => b"rate",
        Key::Flow => b"flow",
        Key::Queue => b"queue",
        Key::Octets => b"octets",
        Key::Period => b"period",
        Key::Deadline => b"deadline",
        Key::Miss => b"miss",
        Key::Of => b"of",
        Key::Weight => b"weight",
        Key::Flows => b"flows",
    }
}

// Do the bytes spell this key?
fn spells(bytes: &[u8], key: Key) -> bool
    ensures { result ≡ bytes_eq bytes.now (key_text key) }
{
    bytes == key_text(key)
}

// That of these keys which the bytes spell.
fn spelled(bytes: &[u8], keys: &[Key]) -> Option<Key>
    ensures { result ≡ spelled bytes.now keys.now }
{
    keys.iter().find(|key| spells(bytes, **key)).copied()
}

// The key that the bytes spell.
pub(crate) fn key_of(bytes: &[u8]) -> Option<Key>
    ensures { result ≡ key_of bytes.now }
{
    spelled(bytes, &KEYS)
}

impl<'a> Line<'a> {
    // The line with a key.
    pub(crate) fn with(key: Key, part: Part<'a>) -> Line<'a>
        ensures { result ≡ line_with key part.entry }
    {
        match key {
            Key::Rate => Line::Rate(part),
            Key::Flow => Line::Flow(part),
            Key::Queue => Line::Queue(part),
            Key::Octets => Line::Octets(part),
            Key::Period => Line::Period(part),
            Key::Deadline => Line::Deadline(part),
            Key::Miss => Line::Miss(part),
            Key::Of => Line::Of(part),
            Key::Weight => Line::Weight(part),
            Key::Flows => Line::Flows(part),
        }
    }

    // Its key.
    pub(crate) fn key(&self) -> Key
        ensures { result ≡ line_key self.now }
    {
        match *self {
            Line::Rate(_) => Key::Rate,
            Line::Flow(_) => Key::Flow,
            Line::Queue(_) => Key::Queue,
            Line::Octets(_) => Key::Octets,
            Line::Period(_) => Key::Period,
            Line::Deadline(_) => Key::Deadline,
            Line::Miss(_) => Key::Miss,
            Line::Of(_) => Key::Of,
            Line::Weight(_) => Key::Weight,
            Line::Flows(_) => Key::Flows,
        }
    }

    // Its number.
    pub(crate) fn part(&self) -> Part<'a>
        ensures { result ≡ line_part self.now }
    {
        match *self {
            Line::Rate(part)
            | Line::Flow(part)
            | Line::Queue(part)
            | Line::Octets(part)
            | Line::Period(part)
            | Line::Deadline(part)
            | Line::Miss(part)
            | Line::Of(part)
            | Line::Weight(part)
            | Line::Flows(part) => part,
        }
    }

    // Its number, where it has the key that is expected.
    pub(crate) fn expect(&self, key: Key) -> Result<Part<'a>, LineFault>
        ensures { result ≡ (if same_key (line_key self.now) key then Ok (line_part self.now) else Err (Form (line_part self.now).line)) }
    {
        let part = self.part();
        if self.key() != key {
            return Err(LineFault::Form(part.line));
        }
        Ok(part)
    }
}

impl<'a> Part<'a> {
    // The number that the part writes, from `low` to `high`.
    pub(crate) fn between(&self, low: u64, high: u64) -> Result<u64, LineFault>
        ensures { result ≡ ranged self.now.line low high self.now.bytes.now }
    {
        let n = number(self.line, self.bytes)?;
        if !(low..=high).contains(&n) {
            return Err(LineFault::Range(self.line));
        }
        Ok(n)
    }
}
