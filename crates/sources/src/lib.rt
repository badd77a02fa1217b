// Line sources: each means a list of events still to come, and is seen through polls of single lines.
#![tactic(auto)]

ghost use Rattle.sources.specs.Laws.{ChangesWorked, FlipsCancel, FlippedLines, RewiredLines, StraightKeeps, TurnsCancel, WiringsCompose};

pub mod change;
pub mod plain;
pub mod source;
pub mod wiring;

// The laws of change logs and wirings. The number that is answered means nothing.
pub fn laws_stand() -> u8
    ensures flipped { FlippedLines }
    ensures flips { FlipsCancel }
    ensures worked { ChangesWorked }
    ensures rewired { RewiredLines }
    ensures turns { TurnsCancel }
    ensures straight { StraightKeeps }
    ensures composed { WiringsCompose }
{
    0
}
