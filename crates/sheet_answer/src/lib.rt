// Call sheets: a call's number, its lists and a job file are read from bytes, the call is run, and its answer is printed to bytes.
#![tactic(auto)]

ghost use Rattle.std.specs.Prelude.{◌≡◌, ◌≤◌, length, take};
ghost use Rattle.model.specs.Run.{task_for};
ghost use Rattle.model.specs.Job.{of_lent};
ghost use Rattle.file_printing.specs.Printing.{Prints};
ghost use Rattle.sheet_lines.specs.Printed.{most_for_sheet};
ghost use Rattle.sheet_head.specs.Form.{longest_plan};
ghost use Rattle.sheet_head.specs.Numbered.{number_of_call};
ghost use Rattle.sheet_head.specs.Reading.{plan_of};
ghost use Rattle.sheet_answer.specs.Sheets.{ReadableSheet, call_of, printed_call, printed_sheet};
ghost use Rattle.sheet_answer.specs.Running.{Runs, Small, lent_plan, sheet_in, AnswersSheet};

use file_job::{Lists, Task};
use model::{Job, Refusal, Settings};
use sheet_head::{Call, Head};

// The position after a sheet that was answered, and how many bytes are printed for it; or how many are where no sheet stands.
// This is no `Result`: both cases print, and the caller goes on with what is printed in both.
#[derive(Clone, Copy)]
pub enum SheetRead {
    Answered(usize, usize),
    Bad(usize),
}

// Runs a call and prints its answer: how many bytes it is.
fn run_call(
    call: Call,
    job: &Job,
    settings: &Settings,
    given: &[u32],
    plan: &mut [u32],
    out: &mut [u8],
) -> usize
    requires runs { Runs (number_of_call call) given.now plan.old out.old }
    requires small { Small job.now.network.vehicles.now job.now.network.stops.now }
    ensures { Prints out.old out.new result (printed_call (call_of (number_of_call call)) given.now plan.old
        (task_for (of_lent job.now) settings.now.smoothing settings.now.limit settings.now.draws.now)) }
{
    match call {
        Call::Weigh => sheet_calls::weigh(job, plan, out),
        Call::StartPlan => sheet_calls::start_plan(&job.network, plan, out),
        Call::TwoOpt => sheet_calls::two_opt(job, plan, given[0], given[1], out),
        Call::Rebuild => sheet_calls::rebuild(job, plan, given, out),
        Call::Exhaustive => sheet_calls::exhaustive(job, plan, out),
        Call::Pruned => sheet_calls::pruned(job, plan, out),
        Call::Solve => sheet_calls::solve(job, settings, plan, out),
        Call::Arrive => sheet_calls::arrive(job, plan, given, out),
        Call::Cancel => sheet_calls::cancel(job, plan, given, out),
        Call::View => {
            let vehicles = job.network.vehicles;
            let stops = job.network.stops;
            let mut seen = [0u32; 96];
            let m = vehicles.len() / 2 + stops.len();
            sheet_calls::view(vehicles, stops, plan, given[0], &mut seen[..m], out)
        }
        Call::MoveStop => sheet_calls::move_stop(job, plan, given, out),
        Call::Roadworks => sheet_calls::roadworks(job, plan, given, out),
    }
}

// The plan that a call is lent, at the front of an array, and how many numbers it has: those of its line, or a zero for each vehicle and
// each stop of the job.
fn lent_plan(head: &Head, whole: usize) -> ([u32; 96], usize)
    requires { whole ≤ longest_plan }
    ensures { (result.1 ≤ longest_plan)
        × (take result.1 result.0 ≡ lent_plan (number_of_call head.now.call) (plan_of head.now) whole) }
{
    let mut plan = [0u32; 96];
    if !head.call.has_plan() {
        return (plan, whole);
    }
    let lined = head.plan();
    plan[..lined.len()].copy_from_slice(lined);
    (plan, lined.len())
}

// Runs the call of a sheet and prints its answer: how many bytes it is.
fn run_sheet(head: &Head, task: &Task, out: &mut [u8]) -> usize
    requires readable { ReadableSheet (sheet_in head.now task.now) }
    requires room { most_for_sheet ≤ length out.old }
    ensures { Prints out.old out.new result (printed_sheet (sheet_in head.now task.now)) }
{
    let job = task.job();
    let whole = job.network.vehicles.len() / 2 + job.network.stops.len();
    let (mut plan, m) = lent_plan(head, whole);
    run_call(
        head.call,
        &job,
        &task.settings(),
        head.given(),
        &mut plan[..m],
        out,
    )
}

// Answers the sheet that stands at a position, where others may follow it; refusal 14 is printed where none does.
pub fn answer_sheet(bytes: &[u8], at: usize, out: &mut [u8]) -> SheetRead
    requires { most_for_sheet ≤ length out.old }
    ensures { AnswersSheet bytes.now at out.old out.new result }
{
    let Some(head) = sheet_head::read_head(bytes, at) else {
        return SheetRead::Bad(sheet_lines::print_refused(Refusal::File, out));
    };
    let file = head.end;
    let Ok(header) = file_job::check_at(bytes, file) else {
        return SheetRead::Bad(sheet_lines::print_refused(Refusal::File, out));
    };
    // the task that `file_job::read_at` reads, but filled where it stays
    let mut task = Task {
        header,
        lists: Lists {
            vehicles: [0u32; 32],
            stops: [0u32; 64],
            distances: [0u32; 6400],
            draws: [0u32; 1024],
        },
    };
    file_job::fill_lists(bytes, file, header, &mut task.lists);
    let printed = run_sheet(&head, &task, out);
    SheetRead::Answered(task.header.end, printed)
}
