// The change log: pairs of numbers, a count and the lines that are turned over before it. It is played without being written out.
ghost use Rattle.std.specs.Prelude.{◌≡◌, ◌<◌, ◌≤◌, List, length, is_ok, IfOk, IfErr, Decides};
ghost use Rattle.std.specs.List.{AllByRecursion};
ghost use Rattle.std.specs.Option.{ForSome};
ghost use Rattle.codec.specs.Reading.{read_to};
ghost use Rattle.sources.specs.ChangeLogs.{change_events, checked_pairs, expand, pair_at, pairs_from, played_from, run_of};
ghost use Rattle.sources.specs.ChangeLogs.{InRange, IsChangeLog, LeftmostFault, IsPlayable, encode_pairs, run_after};
ghost use Rattle.sources.specs.Small.{change_small};
ghost use Rattle.sources.specs.Waiting.{first_of};

use crate::source::{LineSource, SourceRefusal, poll_event};
use codec::fault::CardFault;
use codec::reader::Reader;

// A pair counts up to this many events.
const MOST_COUNT: u32 = 16383;

// The set of all six lines.
const ALL_LINES: u32 = 63;

// How often an event comes, and the lines that are turned over before it does.
#[derive(Clone, Copy)]
pub struct Pair {
    pub count: u16,
    pub flips: u8,
}

// Reads the pair that begins at the place.
#[inline(always)]
fn read_pair(reader: &mut Reader) -> Result<Pair, CardFault>
    ensures value { read_to result reader.new.at ≡ pair_at reader.old.bytes.now reader.old.at }
    ensures kept { reader.new.bytes ≡ reader.old.bytes }
    ensures within { IfOk result (λ _. (reader.old.at < reader.new.at) × (reader.new.at ≤ length reader.old.bytes.now)) }
{
    let count = reader.read_field(1, MOST_COUNT)? as u16;
    let flips = reader.read_field(0, ALL_LINES)? as u8;
    Ok(Pair { count, flips })
}

// Whether the bytes are those of pairs in range; else the leftmost fault.
pub fn check_changes(bytes: &[u8]) -> Result<(), CardFault>
    ensures fault { result ≡ checked_pairs (pairs_from bytes.now 0) }
    ensures exact { Decides (is_ok result) (IsChangeLog bytes.now) }
    ensures leftmost { IfErr result (LeftmostFault bytes.now) }
{
    let mut reader = Reader { bytes, at: 0 };
    while reader.at < bytes.len() {
        read_pair(&mut reader)?;
    }
    Ok(())
}

// One event that comes some times: the place behind its pair, the event, and how often it is still to come.
#[derive(Clone, Copy)]
struct Run {
    next: usize,
    current: u8,
    left: u16,
}

// The run of the pair at `at`, behind an event; none where there is no pair.
fn next_run(bytes: &[u8], at: usize, event: u8) -> Option<Run>
    ensures { result ≡ run_of event (pair_at bytes.now at) }
{
    let mut reader = Reader { bytes, at };
    let pair = read_pair(&mut reader).ok()?;
    Some(Run {
        next: reader.at,
        current: event ^ pair.flips,
        left: pair.count,
    })
}

// The run that a log begins with: that of its first pair, behind the event with every line off.
fn first_run(bytes: &[u8]) -> Option<Run>
    ensures { result ≡ run_of 0 (pair_at bytes.now 0) }
{
    next_run(bytes, 0, 0)
}

// What a run leaves once its event came: one less, or the run of the next pair.
fn run_after(bytes: &[u8], run: Run) -> Option<Run>
    ensures { result ≡ run_after bytes.now run }
{
    if run.left > 1 {
        return Some(Run {
            left: run.left - 1,
            ..run
        });
    }
    next_run(bytes, run.next, run.current)
}

// A change log, and how far it was played: the run whose event comes first, and behind it the pairs from its place on. At its end there is no run.
#[derive(Drop)]
pub struct ChangeLog<'a> {
    bytes: &'a [u8],
    run: Option<Run>,
    ghost playable: { ForSome run (IsPlayable bytes.now) },
}

impl<'a> ChangeLog<'a> {
    // The log of these bytes, or the empty log where the check refuses them.
    pub fn over(bytes: &'a [u8]) -> Self
        ensures played { played_from result.bytes.now result.run ≡ change_events bytes.now }
        ensures means { (pairs : List Pair) → AllByRecursion InRange pairs → bytes.now ≡ encode_pairs pairs → played_from result.bytes.now result.run ≡ expand 0 pairs }
    {
        match check_changes(bytes) {
            Ok(()) => ChangeLog {
                bytes,
                run: first_run(bytes),
            },
            Err(_) => ChangeLog { bytes, run: None },
        }
    }

    // The first event, if one waits.
    fn first(&self) -> Option<u8>
        ensures { result ≡ first_of (played_from self.now.bytes.now self.now.run) }
    {
        let run = self.run?;
        Some(run.current)
    }
}

// A change log as a source: the events that are still to be played.
impl LineSource for ChangeLog<'_> {
    ghost events = { λ s. played_from s.bytes.now s.run };

    ghost small = { λ s. change_small s.bytes.now s.run (λ run is. (s.playable run is).small) };

    fn waiting(&self) -> bool {
        self.first().is_some()
    }

    fn poll(&self, line: u8) -> Result<bool, SourceRefusal> {
        poll_event(self.first(), line)
    }

    fn drop_first(&mut self) -> Result<(), SourceRefusal> {
        let run = self.run.ok_or(SourceRefusal::NothingWaiting)?;
        self.run = run_after(self.bytes, run);
        Ok(())
    }
}
