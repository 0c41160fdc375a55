// What the shuttle program does with the bytes that it reads: it reads the task, runs it and prints the answer, from one slice to another.
#![tactic(auto)]

ghost use Rattle.std.specs.Prelude.{◌≤◌, length, IfSome};
ghost use Rattle.model.specs.File.{printed_task};
ghost use Rattle.file_job.specs.Reading.{task_of};
ghost use Rattle.file_printing.specs.Printing.{Prints};
ghost use Rattle.shuttle_answers.specs.Answers.{most_for_file, Answers, Printed};

use file_job::Task;
use model::Refusal;
use std::io::{self, Read, Write};
use std::str;

// Runs a task and prints the answer: how many bytes it is. It stays a call, so that the task stands once in its caller's frame.
#[inline(never)]
fn run(task: &Task, out: &mut [u8]) -> usize
    requires { most_for_file ≤ length out.old }
    ensures { Prints out.old out.new result (printed_task (task_of task.now)) }
{
    let job = task.job();
    let settings = task.settings();
    let v = job.network.vehicles.len() / 2;
    let n = job.network.stops.len();
    let mut numbers = [0u32; 80];
    let form = &mut numbers[..v + n];
    match planner::solve(&job, &settings, form) {
        Ok(totals) => file_printing::print_run(totals, &solution::hold(v, n, form), out),
        Err(refusal) => file_printing::print_refusal(u32::from(refusal), out),
    }
}

// What is printed for the bytes of a file: how many bytes it is.
fn answer(bytes: &[u8], out: &mut [u8]) -> usize
    requires { most_for_file ≤ length out.old }
    ensures { Answers bytes.now out.old out.new result }
{
    let Ok(task) = file_job::read_file(bytes) else {
        return file_printing::print_refusal(u32::from(Refusal::File), out);
    };
    run(&task, out)
}

// Tells on standard error what failed, by its name where that is text.
fn tell<E: Eprint>(errors: &E, name: &[u8], error: io::Error) {
    let _ = match str::from_utf8(name) {
        Ok(name) => eprintln!(errors; "{name}: {error}"),
        Err(_) => eprintln!(errors; "{error}"),
    };
}

// Writes what is printed for the file of a reader to standard output, which is lent as a writer: how many bytes it is, and none where
// reading or writing fails. What failed is told on standard error, where the reader goes by its name.
pub fn print_answer<R: Read, W: Write, E: Eprint>(
    input: &mut R,
    name: &[u8],
    output: &mut W,
    errors: &E,
) -> Option<usize>
    ensures { IfSome result Printed }
{
    // one byte more than the longest job file has, so that a longer one is seen not to end there
    let mut bytes = [0u8; 106593];
    let n = match file_input::fill(input, &mut bytes, 0) {
        Ok(n) => n,
        Err(error) => {
            tell(errors, name, error);
            return None;
        }
    };
    let mut out = [0u8; 677];
    let m = answer(&bytes[0..n], &mut out);
    if let Err(error) = output.write_all(&out[0..m]) {
        tell(errors, b"standard output", error);
        return None;
    }
    Some(m)
}
