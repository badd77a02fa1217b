// A line source: a list of events still to come, seen through polls of single lines.
ghost use Rattle.std.specs.Prelude.{◌≡◌, ℕ, ◌-◌, ◌^◌, min, cond, List, [], length, nat_lt, bit_or};
ghost use Rattle.events.specs.Sets.{has};
ghost use Rattle.sources.specs.Waiting.{AllEvents, any_waiting, dropped, first_of, later_of, or_nothing, polled, source_number};

use events::contains;

// How many lines there are.
pub(crate) const LINES: u8 = 6;

// How many events there are: each of six lines on or off.
const EVENTS: u8 = 64;

// Whether a number is an event.
pub fn is_event(number: u8) -> bool
    ensures { result ≡ nat_lt number 64 }
{
    number < EVENTS
}

// Why a source refuses a call.
#[derive(Clone, Copy, PartialEq, Eq)]
pub enum SourceRefusal {
    // the poll is of a line that there is not
    NoSuchLine,
    // there is no event to poll or to drop
    NothingWaiting,
}

impl SourceRefusal {
    // The number that the refusal is told by. A method and no `From`: `u8::from` would not say which number.
    pub fn number(self) -> u8
        ensures { result ≡ source_number self }
    {
        // A match and no discriminants: a number that is told for two cases is to be refused by a proof, and discriminants cannot be equal at all.
        match self {
            SourceRefusal::NoSuchLine => 51,
            SourceRefusal::NothingWaiting => 52,
        }
    }
}

// What the layers above need of a source of events. All that they know of it is the list that it means.
pub trait LineSource {
    // the events still to come
    ghost events: { Self → List ℕ };

    // each is an event: a number below 64, whose bit i says whether line i is on
    ghost small: { (s : Self) → AllEvents (events s) };

    // Whether an event waits.
    fn waiting(&self) -> bool
        ensures { result ≡ any_waiting (events self.now) };

    // Whether a line is on in the first event.
    fn poll(&self, line: u8) -> Result<bool, SourceRefusal>
        ensures { result ≡ polled (first_of (events self.now)) line };

    // Lets the first event go.
    fn drop_first(&mut self) -> Result<(), SourceRefusal>
        ensures answer { result ≡ dropped (first_of (events self.old)) }
        ensures after { events self.new ≡ later_of (events self.old) };
}

// Whether a line is on in an event.
pub(crate) fn is_on(event: u8, line: u8) -> bool
    ensures { result ≡ has event line }
{
    contains(u64::from(event), line)
}

// What a poll answers where this is the first event.
pub(crate) fn poll_event(first: Option<u8>, line: u8) -> Result<bool, SourceRefusal>
    ensures { result ≡ polled first line }
{
    if line >= LINES {
        return Err(SourceRefusal::NoSuchLine);
    }
    let event = first.ok_or(SourceRefusal::NothingWaiting)?;
    Ok(is_on(event, line))
}

// An event with one of its lines on. There is no line past 5: there the event stays as it is.
pub(crate) fn with_line(event: u8, line: u8) -> u8
    ensures { result ≡ cond (nat_lt line 6) (bit_or event (2 ^ line)) event }
{
    if line < LINES {
        event | 1 << line
    } else {
        event
    }
}

// The first event of any source, by one poll of each line.
pub fn first_event<S: LineSource>(source: &S) -> Result<u8, SourceRefusal>
    ensures { result ≡ or_nothing (first_of (S.events source.now)) }
{
    let mut event: u8 = 0;
    for line in 0..LINES {
        if source.poll(line)? {
            event = with_line(event, line);
        }
    }
    Ok(event)
}

// Lets every event of a source go, and tells how many there were; a count past 2^64 - 1 is told as that number.
pub fn drain<S: LineSource>(source: &mut S) -> u64
    ensures count { result ≡ min (length (S.LineSource.events source.old)) (2 ^ 64 - 1) }
    ensures after { S.LineSource.events source.new ≡ [] }
{
    let mut count = 0u64;
    while (*source).drop_first().is_ok() {
        count = count.saturating_add(1);
    }
    count
}
