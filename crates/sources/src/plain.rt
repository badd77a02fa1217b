// The plain log: one byte an event.
ghost use Rattle.std.specs.Prelude.{◌≡◌, ℕ, ◌+◌, ◌<◌, length, drop, is_ok, not, nat_lt, Decides, slice_index};
ghost use Rattle.std.specs.List.{position_from};
ghost use Rattle.sources.specs.PlainLogs.{checked_log, plain_events};
ghost use Rattle.sources.specs.Small.{plain_small};
ghost use Rattle.sources.specs.Waiting.{AllEvents, first_of};

use crate::source::{LineSource, SourceRefusal, is_event, poll_event};
use codec::fault::CardFault;

// The place of the first byte that is no event.
fn first_outside(bytes: &[u8]) -> Option<usize>
    ensures { result ≡ position_from (λ byte. not (nat_lt byte 64)) 0 bytes.now }
{
    bytes.iter().position(|byte| !is_event(*byte))
}

// Whether each byte is an event; else the place of the first that is none.
pub fn check_log(bytes: &[u8]) -> Result<(), CardFault>
    ensures fault { result ≡ checked_log bytes.now }
    ensures exact { Decides (is_ok result) (AllEvents bytes.now) }
{
    match first_outside(bytes) {
        Some(place) => Err(CardFault::Range { place }),
        None => Ok(()),
    }
}

// A plain log, and how far it was played.
#[derive(Drop)]
pub struct PlainLog<'a> {
    bytes: &'a [u8],
    place: usize,
    ghost small: { (k : ℕ) → k < length bytes.now → slice_index bytes.now k < 64 },
}

impl<'a> PlainLog<'a> {
    // The log of these bytes, or the empty log where the check refuses them.
    pub fn over(bytes: &'a [u8]) -> Self
        ensures { drop result.place result.bytes.now ≡ plain_events bytes.now }
    {
        match check_log(bytes) {
            Ok(()) => PlainLog { bytes, place: 0 },
            Err(_) => PlainLog {
                bytes: &[],
                place: 0,
            },
        }
    }

    // The first event, if one waits.
    fn first(&self) -> Option<u8>
        ensures { result ≡ first_of (drop self.now.place self.now.bytes.now) }
    {
        self.bytes.get(self.place).copied()
    }

    // Lets the byte at the place go.
    fn advance(&mut self)
        requires { self.old.place < length self.old.bytes.now }
        ensures place { self.new.place ≡ self.old.place + 1 }
        ensures bytes { self.new.bytes ≡ self.old.bytes }
    {
        self.place += 1;
    }
}

// A plain log as a source: its bytes from the place on.
impl LineSource for PlainLog<'_> {
    ghost events = { λ s. drop s.place s.bytes.now };

    ghost small = { λ s. plain_small s.place s.bytes.now s.small };

    fn waiting(&self) -> bool {
        self.first().is_some()
    }

    fn poll(&self, line: u8) -> Result<bool, SourceRefusal> {
        poll_event(self.first(), line)
    }

    fn drop_first(&mut self) -> Result<(), SourceRefusal> {
        if self.place >= self.bytes.len() {
            return Err(SourceRefusal::NothingWaiting);
        }
        self.advance();
        Ok(())
    }
}
