// Reading standard input, or another reader, into a buffer.
#![tactic(auto)]

ghost use Rattle.std.specs.Prelude.{◌≤◌, length};
ghost use Rattle.file_input.specs.Filling.{FilledFrom, Shifted, Refilled};

use std::io::{Read, Result};

// Reads once, to the bytes from a position on: how many bytes of the buffer are filled then, or why the read failed.
fn read_once<R: Read>(input: &mut R, buf: &mut [u8], at: usize) -> Result<usize>
    requires { at ≤ length buf.old }
    ensures { FilledFrom at buf.old buf.new result }
{
    Ok(at + input.read(&mut buf[at..])?)
}

// Reads to the bytes from a position on, until the buffer is full or the input ends: how many of its bytes are filled then, or why
// a read failed.
pub fn fill<R: Read>(input: &mut R, buf: &mut [u8], from: usize) -> Result<usize>
    requires { from ≤ length buf.old }
    ensures { FilledFrom from buf.old buf.new result }
{
    let mut at = from;
    // each read moves the position on by as much as it gives, which no range counts
    while at < buf.len() {
        let next = read_once(input, buf, at)?;
        if next == at {
            return Ok(at);
        }
        at = next;
    }
    Ok(at)
}

// Moves the bytes from a position on to the front of a buffer: how many they are.
fn keep_rest(buf: &mut [u8], from: usize) -> usize
    requires { from ≤ length buf.old }
    ensures { Shifted from buf.old buf.new result }
{
    buf.copy_within(from.., 0);
    buf.len() - from
}

// Keeps the bytes of a full buffer from a position on, and reads more after them.
pub fn refill<R: Read>(input: &mut R, buf: &mut [u8], from: usize) -> Result<usize>
    requires { from ≤ length buf.old }
    ensures { Refilled from buf.old buf.new result }
{
    let n = keep_rest(buf, from);
    fill(input, buf, n)
}
