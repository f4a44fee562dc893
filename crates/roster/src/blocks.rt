// Blocks of 512 bytes: their fields and their check.
ghost use Rattle.std.specs.Prelude.{◌≡◌, ℕ, ◌+◌, ◌*◌, ◌<◌, ◌≤◌, not, ◌==◌, length, slice_index, position, IfOk};
ghost use Rattle.std.specs.Result.{result_err};
ghost use Rattle.lists.specs.Order.{unless};
ghost use Rattle.roster.specs.Layout.{byte_at, two_at, weighted};
ghost use Rattle.roster.specs.FirstFault.{check_fault, bound_fault, zero_fault};

use crate::fields::Field;
use lists::faults::Fault;
use std::ops::Range;

// How many bytes a block has.
pub(crate) const BLOCK: usize = 512;

// How many of them its check covers, and so where it begins.
pub(crate) const CHECKED: u16 = 508;

// A block of a roster.
#[derive(Clone, Copy)]
pub(crate) struct Block<'a> {
    pub roster: &'a [u8],
    pub number: u16,
    ghost whole: { 512 * number + 512 ≤ length roster.now },
}

// Where the first byte stands that is not zero.
fn first_nonzero(bytes: &[u8]) -> Option<usize>
    ensures { result ≡ position (λ byte. not (byte == 0)) bytes.now }
{
    bytes.iter().position(|byte| *byte != 0)
}

// Where a field stands is a number at each call, so what lies within the block is asked there.
impl Block<'_> {
    // Where the block begins in the roster.
    fn start(&self) -> usize
        ensures { result ≡ 512 * self.now.number }
    {
        BLOCK * usize::from(self.number)
    }

    // Some of its bytes.
    fn bytes(&self, part: Range<u16>) -> &[u8]
        requires { (part.start ≤ part.end) × (part.end ≤ 512) }
        ensures len { part.start + length result.now ≡ part.end }
        ensures same { (k : ℕ) → k < length result.now → slice_index result.now k ≡ byte_at self.now.roster.now self.now.number (part.start + k) }
    {
        let start = self.start();
        &self.roster[start + usize::from(part.start)..start + usize::from(part.end)]
    }

    // One byte.
    pub(crate) fn byte(&self, at: u16) -> u8
        requires { at < 512 }
        ensures { result ≡ byte_at self.now.roster.now self.now.number at }
    {
        self.roster[self.start() + usize::from(at)]
    }

    // What is wrong at a byte that begins a field.
    fn wrong_field(&self, byte: u16) -> Fault
        ensures { result ≡ Fault.BlockField self.now.number byte }
    {
        Fault::BlockField {
            block: self.number,
            byte,
        }
    }

    // The bytes that the check covers, each times its place counted from 1.
    fn weight(&self) -> u32
        ensures { result ≡ weighted (byte_at self.now.roster.now self.now.number) 508 }
    {
        let mut sum = 0;
        for (at, byte) in self.bytes(0..CHECKED).iter().enumerate() {
            // `enumerate` counts in `usize`, and a second counter of 32 bits beside it would say no more.
            sum += (at as u32 + 1) * u32::from(*byte);
        }
        sum
    }

    // The check that the block carries fits its bytes.
    pub(crate) fn check_seal(&self) -> Result<(), Fault>
        ensures { result_err result ≡ check_fault self.now.roster.now self.now.number }
    {
        if self.weight() % 131071 == u32::from_block(self, CHECKED) {
            Ok(())
        } else {
            Err(Fault::BlockCheck { block: self.number })
        }
    }

    // A field has the value that belongs there.
    pub(crate) fn check<T: Field>(&self, at: u16, value: T) -> Result<(), Fault>
        requires { at + T.width ≤ 512 }
        ensures { result_err result ≡ unless (T.eq (T.value_at self.now.roster.now self.now.number at) value) (Fault.BlockField self.now.number at) }
    {
        if T::from_block(self, at) == value {
            Ok(())
        } else {
            Err(self.wrong_field(at))
        }
    }

    // The value of a two-byte field that has a bound.
    pub(crate) fn bounded(&self, at: u16, most: u16) -> Result<u16, Fault>
        requires { at + 2 ≤ 512 }
        ensures fault { result_err result ≡ bound_fault self.now.roster.now self.now.number at most }
        ensures value { IfOk result (λ n. (n ≡ two_at self.now.roster.now self.now.number at) × (n ≤ most)) }
    {
        let value = u16::from_block(self, at);
        if value <= most {
            Ok(value)
        } else {
            Err(self.wrong_field(at))
        }
    }

    // A part of the block is zero throughout.
    pub(crate) fn check_zeros(&self, part: Range<u16>) -> Result<(), Fault>
        requires { (part.start ≤ part.end) × (part.end ≤ 512) }
        ensures { result_err result ≡ zero_fault self.now.roster.now self.now.number part.start part.end }
    {
        let from = part.start;
        match first_nonzero(self.bytes(part)) {
            None => Ok(()),
            // `position` counts in `usize`; a conversion that can fail would need a fault that cannot come.
            Some(k) => Err(self.wrong_field(from + k as u16)),
        }
    }
}
