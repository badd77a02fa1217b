// A reader of bytes. Numbers are groups of seven bits, lowest first, one a byte, in the fewest bytes and at most three.
ghost use Rattle.std.specs.Prelude.{◌≡◌, ℕ, ◌<◌, ◌≤◌, ◌↔◌, length, IfOk, Ok, OnErr};
ghost use Rattle.codec.specs.Reading.{read_to};
ghost use Rattle.codec.specs.Number.{number_at, IsNumber};
ghost use Rattle.codec.specs.Field.{field_at, ranged_at};

use crate::fault::{CardFault, NumberFault, RangeFault};

// Bytes, and the place from which they are read. Both are open to callers, so each call that moves the place tells that the bytes are as they were, and
// that the place it moves to is within them.
#[derive(Clone, Copy)]
pub struct Reader<'a> {
    pub bytes: &'a [u8],
    pub at: usize,
}

// Reads one, two or three bytes at the place, as a number. It stands beside `read_number`, since the proof did not close with the steps in the method.
// This and the calls over it are put in where they are called, as the place of a reader else goes through memory at each number.
#[inline(always)]
fn decode(bytes: &[u8], at: &mut usize) -> Result<u32, NumberFault>
    ensures value { read_to result at.new ≡ number_at bytes.now at.old }
    ensures refused { OnErr result (at.new ≡ at.old) }
    ensures within { IfOk result (λ _. (at.old < at.new) × (at.new ≤ length bytes.now)) }
{
    let place = *at;
    let short = NumberFault::Short { place: bytes.len() };
    let form = NumberFault::Form { place };
    let first = *bytes.get(place).ok_or(short)?;
    if first < 128 {
        *at = place + 1;
        return Ok(u32::from(first));
    }
    let second = *bytes.get(place + 1).ok_or(short)?;
    if second == 0 {
        return Err(form);
    }
    if second < 128 {
        *at = place + 2;
        return Ok(u32::from(first) - 128 + 128 * u32::from(second));
    }
    let third = *bytes.get(place + 2).ok_or(short)?;
    if third == 0 || third >= 128 {
        return Err(form);
    }
    *at = place + 3;
    let low = u32::from(first) - 128 + 128 * (u32::from(second) - 128);
    Ok(low + 16384 * u32::from(third))
}

// The same, which is exact for the encoding, as bytes are below 256.
#[inline(always)]
#[tactic(auto, using(crate::proofs::Numbers::exact_from))]
fn decode_exactly(bytes: &[u8], at: &mut usize) -> Result<u32, NumberFault>
    ensures value { read_to result at.new ≡ number_at bytes.now at.old }
    ensures refused { OnErr result (at.new ≡ at.old) }
    ensures within { IfOk result (λ _. (at.old < at.new) × (at.new ≤ length bytes.now)) }
    ensures exact { (v q : ℕ) → (read_to result at.new ≡ Ok (record { value = v; next = q })) ↔ IsNumber bytes.now at.old v q }
{
    decode(bytes, at)
}

impl Reader<'_> {
    // Reads the number that begins at the place. It is read exactly where the bytes there begin with its encoding; else the reader stays where it is.
    #[inline(always)]
    pub fn read_number(&mut self) -> Result<u32, NumberFault>
        ensures value { read_to result self.new.at ≡ number_at self.old.bytes.now self.old.at }
        ensures kept { self.new.bytes ≡ self.old.bytes }
        ensures refused { OnErr result (self.new.at ≡ self.old.at) }
        ensures within { IfOk result (λ _. (self.old.at < self.new.at) × (self.new.at ≤ length self.old.bytes.now)) }
        ensures exact { (v q : ℕ) → (read_to result self.new.at ≡ Ok (record { value = v; next = q })) ↔ IsNumber self.old.bytes.now self.old.at v q }
    {
        decode_exactly(self.bytes, &mut self.at)
    }

    // Reads the number from `low` to `high` that begins at the place; else the reader stays where it is, and the fault is in the words of a layer.
    #[inline(always)]
    pub fn read_ranged<F: RangeFault>(&mut self, low: u32, high: u32) -> Result<u32, F>
        ensures value { read_to result self.new.at ≡ ranged_at F.short F.carried F.outside self.old.bytes.now self.old.at low high }
        ensures kept { self.new.bytes ≡ self.old.bytes }
        ensures refused { OnErr result (self.new.at ≡ self.old.at) }
        ensures within { IfOk result (λ n. (self.old.at < self.new.at) × (self.new.at ≤ length self.old.bytes.now) × (low ≤ n) × (n ≤ high)) }
    {
        let place = self.at;
        if self.bytes.len() <= place {
            return Err(F::short(self.bytes.len()));
        }
        let number = self.read_number()?;
        if !(low..=high).contains(&number) {
            self.at = place;
            return Err(F::outside(place));
        }
        Ok(number)
    }

    // Reads the number from `low` to `high` inside a card that begins at the place; else the reader stays where it is.
    #[inline(always)]
    pub fn read_field(&mut self, low: u32, high: u32) -> Result<u32, CardFault>
        ensures value { read_to result self.new.at ≡ field_at self.old.bytes.now self.old.at low high }
        ensures kept { self.new.bytes ≡ self.old.bytes }
        ensures refused { OnErr result (self.new.at ≡ self.old.at) }
        ensures within { IfOk result (λ n. (self.old.at < self.new.at) × (self.new.at ≤ length self.old.bytes.now) × (low ≤ n) × (n ≤ high)) }
    {
        self.read_ranged(low, high)
    }
}
