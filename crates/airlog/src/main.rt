// The program: reads the files `rule` and `log` of the folder that it runs in, and prints the library's answer.
#![tactic(auto)]

ghost use Rattle.std.specs.Prelude.{ℕ, ◌≤◌, IfSome, vec_len};

use listing::output::output;
use std::fs::File;
use std::io;
use std::io::Read;

// The most bytes that a file may have.
const MOST: usize = 65_536;

// The bytes of a file, or nothing where it is missing, cannot be read or is longer than MOST.
fn contents(rt: &HostRuntime, path: &str) -> Option<Vec<u8>>
    ensures { IfSome result (λ v. vec_len v ≤ 65536) }
{
    let file = File::open(rt, path).ok()?;
    let mut bytes = Vec::new(rt.alloc());
    file.take(MOST as u64 + 1).read_to_end(&mut bytes).ok()?;
    (bytes.len() <= MOST).then_some(bytes)
}

// Prints what the library answers to the two files.
fn main(rt: HostRuntime) -> io::Result<()> {
    let rule = contents(&rt, "rule");
    let log = contents(&rt, "log");
    rt.print(output(rt.alloc(), rule.as_deref(), log.as_deref())?)
}
