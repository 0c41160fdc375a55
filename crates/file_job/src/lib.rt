// Reading a job file. A file is first checked whole, and only then are its numbers written into the lists of a task.
#![tactic(auto)]

mod header;
mod lending;
mod task;

ghost use Rattle.std.specs.Prelude.{◌≡◌, Ok};
ghost use Rattle.model.specs.File.{AcceptedAt};
ghost use Rattle.file_lines.specs.Standing.{Says};
ghost use Rattle.file_job.specs.Reading.{FirstAt, TablesAt, DrawsAt, CheckedAt, task_of, ListsFilled, ZerosAfter, Blank, ReadAt, ReadWhole};

pub use header::Header;
use model::{Prices, Refusal};
pub use task::{Lists, Task};

// The numbers of a file's first line.
#[derive(Clone, Copy)]
pub struct FirstNumbers {
    pub vehicles: u32,
    pub stops: u32,
    pub locations: u32,
    pub linear: u32,
    pub quadratic: u32,
    pub missed: u64,
    pub smoothing: u32,
    pub limit: u32,
}

// The first line of a file, which is 113 bytes long: no position in it wraps once there is room for it.
fn read_first_line(bytes: &[u8], at: usize) -> Option<FirstNumbers>
    ensures { FirstAt bytes.now at result }
{
    if bytes.get(at..)?.len() < 113 {
        return None;
    }
    if !file_lines::check_fields(bytes, at, 5) {
        return None;
    }
    let missed = file_columns::read_field(bytes, at + 70)?;
    if !file_lines::check_line(bytes, at + 84, 2) {
        return None;
    }
    Some(FirstNumbers {
        vehicles: file_columns::number_at(bytes, at),
        stops: file_columns::number_at(bytes, at + 14),
        locations: file_columns::number_at(bytes, at + 28),
        linear: file_columns::number_at(bytes, at + 42),
        quadratic: file_columns::number_at(bytes, at + 56),
        missed,
        smoothing: file_columns::number_at(bytes, at + 84),
        limit: file_columns::number_at(bytes, at + 98),
    })
}

// Whether the tables of v vehicles, n stops and l locations stand there.
fn check_tables(bytes: &[u8], at: usize, v: usize, n: usize, l: usize) -> bool
    ensures { Says result (TablesAt bytes.now at v n l) }
{
    if !file_lines::check_lines(bytes, at, v, 2) {
        return false;
    }
    let stops = at + v * 29;
    if !file_lines::check_lines(bytes, stops, n, 1) {
        return false;
    }
    let distances = stops + n * 15;
    file_lines::check_lines(bytes, distances, l, l)
}

// How many draws there are: a line with their count, and one draw a line.
fn check_draws(bytes: &[u8], at: usize) -> Option<usize>
    ensures { DrawsAt bytes.now at result }
{
    if !file_lines::check_line(bytes, at, 1) {
        return None;
    }
    let count = file_columns::number_at(bytes, at) as usize;
    if !(1..=1024).contains(&count) {
        return None;
    }
    if !file_lines::check_lines(bytes, at + 15, count, 1) {
        return None;
    }
    Some(count)
}

// The task whose file stands at a position, without its lists, which are only checked.
pub fn check_at(bytes: &[u8], at: usize) -> Result<Header, Refusal>
    ensures { CheckedAt bytes.now at result }
{
    let first = read_first_line(bytes, at).ok_or(Refusal::File)?;
    let v = first.vehicles as usize;
    let n = first.stops as usize;
    let l = first.locations as usize;
    if 16 < v || 64 < n || 80 < l {
        return Err(Refusal::File);
    }
    if !check_tables(bytes, at + 113, v, n, l) {
        return Err(Refusal::File);
    }
    let count = at + 113 + v * 29 + n * 15 + l * (14 * l + 1);
    let draws = check_draws(bytes, count).ok_or(Refusal::File)?;
    Ok(Header {
        vehicles: v,
        stops: n,
        locations: first.locations,
        prices: Prices {
            linear: first.linear,
            quadratic: first.quadratic,
            missed: first.missed,
        },
        smoothing: first.smoothing,
        limit: first.limit,
        draws,
        end: count + 15 + draws * 15,
    })
}

// Fills the lists of a task whose file was checked: what stands behind them stays. A caller lends those of a task of its own, which so is filled
// where it stays: one that is returned is copied where much is done with it.
pub fn fill_lists(bytes: &[u8], at: usize, header: Header, lists: &mut Lists)
    requires { CheckedAt bytes.now at (Ok header) }
    ensures { ListsFilled bytes.now at header lists.old lists.new }
{
    let v = header.vehicles;
    let n = header.stops;
    let l = header.locations as usize;
    let d = header.draws;
    let second = at + 113 + v * 29;
    let third = second + n * 15;
    let fourth = third + l * (14 * l + 1) + 15;
    file_lines::fill_lines(bytes, at + 113, v, 2, &mut lists.vehicles);
    file_lines::fill_lines(bytes, second, n, 1, &mut lists.stops);
    file_lines::fill_lines(bytes, third, l, l, &mut lists.distances);
    file_lines::fill_lines(bytes, fourth, d, 1, &mut lists.draws);
}

// The task of a file that was checked, with its lists.
#[inline(always)]
fn load(bytes: &[u8], at: usize, header: Header) -> Task
    requires { CheckedAt bytes.now at (Ok header) }
    ensures { (result.header ≡ header) × AcceptedAt bytes.now at header.end (task_of result) × ZerosAfter result }
{
    let mut task = Task {
        header,
        lists: Lists {
            vehicles: [0u32; 32],
            stops: [0u32; 64],
            distances: [0u32; 6400],
            draws: [0u32; 1024],
        },
    };
    fill_lists(bytes, at, header, &mut task.lists);
    task
}

// The task whose file stands at a position, where others may follow it.
pub fn read_at(bytes: &[u8], at: usize) -> Result<Task, Refusal>
    ensures read { ReadAt bytes.now at result }
    ensures rest { Blank result }
{
    let header = check_at(bytes, at)?;
    Ok(load(bytes, at, header))
}

// The task whose file the bytes are, with nothing before or after it. As `load` does, it leaves the task where the caller keeps it.
#[inline(always)]
pub fn read_file(bytes: &[u8]) -> Result<Task, Refusal>
    ensures read { ReadWhole bytes.now result }
    ensures rest { Blank result }
{
    let header = check_at(bytes, 0)?;
    if header.end != bytes.len() {
        return Err(Refusal::File);
    }
    Ok(load(bytes, 0, header))
}
