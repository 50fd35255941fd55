// How the reader goes from field to field.
ghost use Rattle.std.specs.Prelude.{◌≡◌, ◌+◌, ◌≤◌, length, take, drop};
ghost use Rattle.casefile.specs.declared.field.Phase.TheVariants.{Start};
ghost use Rattle.casefile.specs.Format.{two, four, fits, past_end};
ghost use Rattle.casefile.specs.Fields.{Advanced, given, next, HandsOn};

use super::Reader;
use crate::fault::{Fault, FileRefusal};
use crate::field::{Field, Phase};

// The N bytes from the place on.
fn part<const N: usize>(bytes: &[u8], at: usize) -> [u8; N]
    requires { at + N ≤ length bytes.now }
    ensures { result ≡ take N (drop at bytes.now) }
{
    bytes[at..at + N].try_into().unwrap()
}

fn two_at(bytes: &[u8], at: usize) -> u16
    requires { at + 2 ≤ length bytes.now }
    ensures { result ≡ two bytes.now at }
{
    u16::from_be_bytes(part(bytes, at))
}

fn four_at(bytes: &[u8], at: usize) -> u32
    requires { at + 4 ≤ length bytes.now }
    ensures { result ≡ four bytes.now at }
{
    u32::from_be_bytes(part(bytes, at))
}

// The tags stay bytes, here and below: an enum would be made by these four numbers, and the phase decides which fault another byte is.
fn length_fits(tag: u8, len: u16) -> bool
    ensures { result ≡ fits tag len }
{
    match tag {
        1 => len == 2,
        2 => len == 5,
        3 => len <= 24,
        _ => len == 0,
    }
}

impl Phase {
    fn past_end(self) -> bool
        ensures { result ≡ past_end self }
    {
        matches!(self, Phase::PastEnd)
    }

    // The phase and the next tag decide together.
    fn advance(&mut self, tag: u8) -> Result<(), Fault>
        ensures { Advanced self.old tag result self.new }
    {
        match (*self, tag) {
            (Phase::Start, 1) => *self = Phase::Amounts,
            (Phase::Amounts, 2) => {}
            (Phase::Amounts | Phase::Rules, 3) => *self = Phase::Rules,
            (Phase::Amounts | Phase::Rules, 4) => *self = Phase::PastEnd,
            (_, 1..=4) => return Err(Fault::OutOfOrder),
            (_, _) => return Err(Fault::UnknownTag),
        }
        Ok(())
    }
}

impl<'a> Reader<'a> {
    pub fn new(bytes: &'a [u8]) -> Reader<'a>
        ensures bytes { result.bytes.now ≡ bytes.now }
        ensures place { result.at ≡ 0 }
        ensures phase { result.phase ≡ Start }
    {
        Reader {
            bytes,
            at: 0,
            phase: Phase::Start,
        }
    }

    // How many bytes are read.
    pub fn place(&self) -> usize
        ensures { result ≡ self.now.at }
    {
        self.at
    }

    // What `next` does, apart from it: so the further clause of `next` is proved once, and not at each return here.
    fn step(&mut self) -> Result<Option<Field<'a>>, FileRefusal>
        ensures bytes { self.new.bytes.now ≡ self.old.bytes.now }
        ensures gave { given result self.new.phase self.new.at ≡ next self.old.phase self.old.bytes.now self.old.at }
    {
        let place = self.at;
        let bytes = self.bytes;
        if self.phase.past_end() {
            return if place < bytes.len() {
                Err(Fault::Trailing.at(place))
            } else {
                Ok(None)
            };
        }
        if bytes.len() - place < 3 {
            return Err(Fault::Truncated.at(place));
        }
        let tag = bytes[place];
        let len = two_at(bytes, place + 1);
        let mut phase = self.phase;
        phase.advance(tag).map_err(|fault| fault.at(place))?;
        if !length_fits(tag, len) {
            return Err(Fault::WrongLength.at(place));
        }
        let from = place + 3;
        if bytes.len() - from < len as usize {
            return Err(Fault::Truncated.at(place));
        }
        self.phase = phase;
        self.at = from + len as usize;
        Ok(Some(match tag {
            1 => Field::Options(two_at(bytes, from)),
            2 => Field::Amount {
                literal: bytes[from],
                amount: four_at(bytes, from + 1),
            },
            3 => Field::Rule(&bytes[from..from + len as usize]),
            _ => Field::End,
        }))
    }

    // The next field, where a rule is a part of the file at the field's place; None after the end field. A refusal leaves
    // the reader as it was.
    pub fn next(&mut self) -> Result<Option<Field<'a>>, FileRefusal>
        ensures bytes { self.new.bytes.now ≡ self.old.bytes.now }
        ensures gave { given result self.new.phase self.new.at ≡ next self.old.phase self.old.bytes.now self.old.at }
        ensures part { HandsOn self.old.bytes.now self.old.at result }
    {
        self.step()
    }
}
