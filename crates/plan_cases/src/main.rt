// Plans each sheet of a folder and compares the answer with the one that stands beside it.
#![tactic(auto)]

use planner::plan;
use std::fs;

// Does the answer to NAME.sheet agree with NAME.out?
fn agrees(rt: &HostRuntime, name: &str) -> anyhow::Result<bool> {
    let heap = rt.alloc();
    let sheet = fs::read(rt, format!(in heap; "{name}.sheet")?)?;
    let expected = fs::read(rt, format!(in heap; "{name}.out")?)?;
    let answer = plan(heap, sheet.as_slice())?;
    Ok(answer.as_slice() == expected.as_slice())
}

fn main(rt: HostRuntime) -> anyhow::Result<()> {
    cases::compare(&rt, |name| agrees(&rt, name))
}
