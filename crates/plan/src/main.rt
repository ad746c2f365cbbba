// Reads a flow sheet from standard input and prints its gate list, or its refusal.
#![tactic(auto)]

use planner::plan;
use std::io;
use std::io::{Read, Write};

// One byte more than the longest sheet: no more of the input is needed.
const ENOUGH: usize = 61_441;

// The input, up to so many bytes. Each read asks for all that is still wanted, so that an input which comes in messages loses
// nothing of a long one, as it would in the short first reads of `read_to_end`.
fn read_input(input: &mut impl Read, text: &mut [u8]) -> io::Result<usize> {
    let mut n: usize = 0;
    for _ in 0..ENOUGH {
        if n >= text.len() {
            break;
        }
        let more = input.read(&mut text[n..])?;
        if more == 0 {
            break;
        }
        n += more;
    }
    Ok(n)
}

fn main(rt: HostRuntime) -> anyhow::Result<()> {
    let heap = rt.alloc();
    let mut text = vec![in heap; 0u8; ENOUGH]?;
    let n = read_input(&mut rt.stdin(), text.as_mut_slice())?;
    text.truncate(n);
    let answer = plan(heap, text.as_slice())?;
    rt.stdout().write_all(answer.as_slice())?;
    Ok(())
}
