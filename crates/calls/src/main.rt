// Reads call sheets from standard input, one after another up to its end, runs each and prints its answer.
#![tactic(auto)]

ghost use Rattle.std.specs.Prelude.{◌≡◌, ◌≤◌, length};
ghost use Rattle.sheet_lines.specs.Printed.{most_for_sheet};
ghost use Rattle.calls.specs.Rest.{Ready, Keeps, Turned, AnswersAll};

use sheet_answer::SheetRead;
use std::io::{Read, Write};

// The most bytes that a sheet has: 15, 113, 1,345, and 106,592 of its job file. Where so many are left, nothing after them matters.
const LONGEST: usize = 108065;

// A sheet was answered: where the bytes that are left begin and end, and how many bytes are printed. Or none stands there, and so many
// bytes are printed; or no bytes are left; or reading failed. Four ends of a turn, which neither Option nor Result tells apart.
#[derive(Clone, Copy)]
enum Outcome {
    Answered(usize, usize, usize),
    Refused(usize),
    Done,
    Failed,
}

// How many bytes were printed: all sheets were answered, or those up to a place where none stands; or reading or writing failed.
// The first two both say how much was printed, so that they are no Ok and Err.
#[derive(Clone, Copy)]
enum Ended {
    All(u64),
    Refused(u64),
    Failed,
}

// Reads on where fewer bytes are left than a sheet may have: where the bytes that are left begin and end in the buffer then, or none
// where reading failed. A buffer that is not full holds the end of the input.
fn more<R: Read, E: Eprint>(
    input: &mut R,
    errors: &E,
    bytes: &mut [u8],
    at: usize,
    end: usize,
) -> Option<(usize, usize)>
    requires { Ready at end bytes.old }
    ensures { Keeps at end bytes.old bytes.new result }
{
    if end < bytes.len() {
        return Some((at, end));
    }
    if LONGEST <= end - at {
        return Some((at, end));
    }
    match file_input::refill(input, bytes, at) {
        Ok(n) => Some((0, n)),
        Err(error) => {
            let _ = eprintln!(errors; "standard input: {error}");
            None
        }
    }
}

// Answers one sheet, with what is read for it.
fn turn<R: Read, E: Eprint>(
    input: &mut R,
    errors: &E,
    bytes: &mut [u8],
    at: usize,
    end: usize,
    out: &mut [u8],
) -> Outcome
    requires ready { Ready at end bytes.old }
    requires most_for_sheet_in_bounds { most_for_sheet ≤ length out.old }
    ensures { Turned at end bytes.old bytes.new out.old out.new result }
{
    let Some((from, to)) = more(input, errors, bytes, at, end) else {
        return Outcome::Failed;
    };
    if from == to {
        return Outcome::Done;
    }
    match sheet_answer::answer_sheet(&bytes[0..to], from, out) {
        SheetRead::Answered(next, printed) => Outcome::Answered(next, to, printed),
        SheetRead::Bad(printed) => Outcome::Refused(printed),
    }
}

// Writes to standard output: whether it was all written.
fn print<W: Write, E: Eprint>(output: &mut W, errors: &E, text: &[u8]) -> bool {
    match output.write_all(text) {
        Ok(()) => true,
        Err(error) => {
            let _ = eprintln!(errors; "standard output: {error}");
            false
        }
    }
}

// Answers sheet after sheet. A proved loop has to end, and nothing says that the input does: so the loop counts its turns, up
// to a number (2^53) that no run uses up and after which the bytes printed can still be counted.
fn answer_all<R: Read, W: Write, E: Eprint>(
    input: &mut R,
    output: &mut W,
    errors: &E,
    bytes: &mut [u8],
    start: usize,
    stop: usize,
    out: &mut [u8],
) -> Ended
    requires ready { Ready start stop bytes.old }
    requires out_len { length out.old ≡ most_for_sheet }
    ensures { AnswersAll start stop bytes.old result }
{
    let mut at = start;
    let mut end = stop;
    let mut printed: u64 = 0;
    for _turn in 0..9007199254740992u64 {
        match turn(input, errors, bytes, at, end, out) {
            Outcome::Answered(next, to, n) => {
                if !print(output, errors, &out[0..n]) {
                    return Ended::Failed;
                }
                at = next;
                end = to;
                printed += n as u64;
            }
            Outcome::Refused(n) => {
                if !print(output, errors, &out[0..n]) {
                    return Ended::Failed;
                }
                return Ended::Refused(printed + n as u64);
            }
            Outcome::Done => {
                return Ended::All(printed);
            }
            Outcome::Failed => {
                return Ended::Failed;
            }
        }
    }
    Ended::Failed
}

fn main(rt: HostRuntime) {
    let mut bytes = [0u8; 262144];
    let mut out = [0u8; 1446];
    // nothing is left of a full buffer, so that the first turn reads
    answer_all(
        &mut rt.stdin(),
        &mut rt.stdout(),
        &rt,
        &mut bytes,
        262144,
        262144,
        &mut out,
    );
}
