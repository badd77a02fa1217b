// A wiring over any source: each line is one of the lines below, turned over or not.
ghost use Rattle.std.specs.Prelude.{◌≡◌, ℕ, ◌<◌, true, false, is_ok, Decides, nat_lt, slice_index};
ghost use Rattle.sources.specs.Small.{rewired_small};
ghost use Rattle.sources.specs.Wirings.{IsWiring, all_lines, checked_wiring, rewired_all, straight, turned_by, wired_events, wiring_fits, wiring_number};

use crate::source::{LINES, LineSource, SourceRefusal, is_event, is_on};

// The entries of the wiring that changes nothing.
const STRAIGHT: [u8; 6] = [0, 1, 2, 3, 4, 5];

// Why a wiring is refused, with the number that it is told by.
#[derive(Clone, Copy, PartialEq, Eq)]
pub enum WiringRefusal {
    // an entry is no line, or the turned set has a member that is none
    OutOfRange = 53,
}

impl WiringRefusal {
    // The number that the refusal is told by. A method and no `From`: `u8::from` would not say which number.
    pub fn number(self) -> u8
        ensures { result ≡ wiring_number self }
    {
        self as u8
    }
}

// Whether an entry names a line.
fn is_line(entry: u8) -> bool
    ensures { result ≡ nat_lt entry 6 }
{
    entry < LINES
}

// Whether each entry names a line.
fn are_lines(entries: [u8; 6]) -> bool
    ensures { result ≡ all_lines entries }
{
    entries.iter().all(|entry| is_line(*entry))
}

// Whether each entry names a line and the turned set has no members but lines. Such a set is the event in which its members are the lines that are on.
fn is_fitting(entries: [u8; 6], turned: u8) -> bool
    ensures { result ≡ wiring_fits entries turned }
{
    are_lines(entries) && is_event(turned)
}

// Whether these are the entries and the turned set of a wiring.
pub fn check_wiring(entries: [u8; 6], turned: u8) -> Result<(), WiringRefusal>
    ensures answer { result ≡ checked_wiring entries turned }
    ensures exact { Decides (is_ok result) (IsWiring entries turned) }
{
    if is_fitting(entries, turned) {
        return Ok(());
    }
    Err(WiringRefusal::OutOfRange)
}

// The entries and the turned set of a wiring; else those of the wiring that changes nothing.
fn fitted(entries: [u8; 6], turned: u8) -> ([u8; 6], u8)
    ensures fits { wiring_fits entries turned ≡ true → (result.0 ≡ entries) × (result.1 ≡ turned) }
    ensures other { wiring_fits entries turned ≡ false → (result.0 ≡ straight) × (result.1 ≡ 0) }
{
    if is_fitting(entries, turned) {
        (entries, turned)
    } else {
        (STRAIGHT, 0)
    }
}

// A line as a wiring shows it.
fn shown(on: bool, turn: bool) -> bool
    ensures { result ≡ turned_by on turn }
{
    on ^ turn
}

// A source seen through a wiring.
#[derive(Drop)]
pub struct Wiring<S> {
    below: S,
    entries: [u8; 6],
    turned: u8,
    ghost named: { (k : ℕ) → k < 6 → slice_index entries k < 6 },
}

impl<S: LineSource> Wiring<S> {
    // The source below through this wiring, or straight where the check refuses the wiring.
    pub fn over(below: S, entries: [u8; 6], turned: u8) -> Self
        ensures kept { result.below ≡ below }
        ensures means { rewired_all result.entries result.turned (S.LineSource.events result.below) ≡ wired_events entries turned (S.LineSource.events below) }
    {
        let (entries, turned) = fitted(entries, turned);
        Wiring {
            below,
            entries,
            turned,
        }
    }
}

// A wiring as a source: the events of the source below, rewired.
impl<S: LineSource> LineSource for Wiring<S> {
    ghost events = { λ s. rewired_all s.entries s.turned (S.LineSource.events s.below) };

    ghost small = { λ s. rewired_small s.entries s.turned (S.LineSource.events s.below) };

    fn waiting(&self) -> bool {
        self.below.waiting()
    }

    fn poll(&self, line: u8) -> Result<bool, SourceRefusal> {
        if line >= LINES {
            return Err(SourceRefusal::NoSuchLine);
        }
        let on = self.below.poll(self.entries[line as usize])?;
        Ok(shown(on, is_on(self.turned, line)))
    }

    fn drop_first(&mut self) -> Result<(), SourceRefusal> {
        self.below.drop_first()
    }
}
