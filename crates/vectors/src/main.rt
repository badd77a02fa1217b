// Runs files of expected answers, each line through the public calls, and prints how many agree. A file that is not there is passed over.
#![tactic(auto)]

mod changes;
mod digits;
mod reader;
mod trees;

use changes::change_answer;
use digits::bytes_of;
use reader::reader_answer;
use std::{fs, io};
use trees::tree_answer;

// Whether the fields of a line behind its first are those that a test wants of the bytes in the first.
fn agrees<F: Fn(&[u8], &str) -> Option<bool>>(
    rt: &HostRuntime,
    line: &str,
    test: &F,
) -> Option<bool>
    requires { F.IsAlwaysCallable test.now }
{
    let (file, rest) = line.split_once('\t')?;
    let bytes = bytes_of(rt.alloc(), file)?;
    (*test)(bytes.as_slice(), rest)
}

// Prints each line that differs, and how many agree and differ.
fn run<F: Fn(&[u8], &str) -> Option<bool>>(rt: &HostRuntime, file: &str, test: F) -> io::Result<()>
    requires { F.IsAlwaysCallable test }
{
    let Ok(text) = fs::read_to_string(rt, file) else {
        return Ok(());
    };
    let mut agree = 0u32;
    let mut differ = 0u32;
    for line in text.lines() {
        if agrees(rt, line, &test) == Some(true) {
            agree = agree.saturating_add(1);
        } else {
            differ = differ.saturating_add(1);
            println!(rt; "{file} differs: {line}")?;
        }
    }
    println!(rt; "{file}: {agree} agree, {differ} differ")
}

// Runs the three files of expected answers, each with its own test.
fn main(rt: HostRuntime) -> io::Result<()> {
    let heap = rt.alloc();
    run(&rt, "reader.tsv", |bytes, wanted| {
        Some(reader_answer(heap, bytes).ok()?.as_str() == wanted)
    })?;
    run(&rt, "changelog.tsv", |bytes, wanted| {
        Some(change_answer(heap, bytes).ok()?.as_str() == wanted)
    })?;
    run(&rt, "trees.tsv", |bytes, rest| {
        let (measure, wanted) = rest.split_once('\t')?;
        Some(tree_answer(heap, bytes, measure)?.as_str() == wanted)
    })
}
