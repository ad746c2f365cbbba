// Checks each list of a folder for its sheet and compares the answer with the one that stands beside it.
#![tactic(auto)]

use anyhow::Context;
use gates::entry::Entry;
use list_check::acceptance::check;
use refusal::{Refusal, refusal_text};
use sheet::refusals::sheet_refusal;
use sheet::sheet::Sheet;
use std::alloc::{AllocError, Global};
use std::fs;

// An entry by its line: gates, length, flow and number. No `FromStr`: that impl could only stand in the crate of `Entry`.
fn entry_of(line: &str) -> anyhow::Result<Entry> {
    let mut parts = line.split(' ');
    let gates = parts.next().context("no gates")?.parse::<u8>()?;
    let interval = parts.next().context("no length")?.parse::<u32>()?;
    let flow = parts.next().context("no flow")?.parse::<u8>()?;
    let number = parts.next().context("no number")?.parse::<u32>()?;
    Ok(Entry {
        gates,
        interval,
        flow,
        number,
    })
}

// The entries of a list's text.
fn list_of(heap: Global, text: &str) -> anyhow::Result<Vec<Entry>> {
    text.lines().map(entry_of).try_collect(heap)
}

// What is told of a sheet's text and a list; an error where memory is short.
fn told(heap: Global, text: &[u8], list: &[Entry]) -> anyhow::Result<String> {
    let mut sheet = Sheet::new(heap);
    if let Err(fault) = sheet.read(text) {
        let refusal = sheet_refusal(fault).ok_or(AllocError)?;
        return Ok(refusal_text(heap, refusal)?);
    }
    match check(&sheet, list) {
        Ok(_) => Ok(String::from_str(heap, "accepted\n")?),
        Err(fault) => Ok(refusal_text(heap, Refusal::from(fault))?),
    }
}

// Does the answer to NAME.sheet and NAME.list agree with NAME.out?
fn agrees(rt: &HostRuntime, name: &str) -> anyhow::Result<bool> {
    let heap = rt.alloc();
    let sheet = fs::read(rt, format!(in heap; "{name}.sheet")?)?;
    let list = fs::read_to_string(rt, format!(in heap; "{name}.list")?)?;
    let expected = fs::read_to_string(rt, format!(in heap; "{name}.out")?)?;
    let entries = list_of(heap, list.as_str())?;
    let answer = told(heap, sheet.as_slice(), entries.as_slice())?;
    Ok(answer.as_str() == expected.as_str())
}

fn main(rt: HostRuntime) -> anyhow::Result<()> {
    cases::compare(&rt, |name| agrees(&rt, name))
}
