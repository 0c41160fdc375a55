// What stands before the job file of a call sheet: the call's number, and its lines of given numbers and of a plan.
#![tactic(auto)]

mod head;
mod numbers;

ghost use Rattle.std.specs.Prelude.{◌≡◌};
ghost use Rattle.std.specs.Result.{result_ok};
ghost use Rattle.sheet_head.specs.Form.{has_given, least_given, most_given, has_plan, longest_plan};
ghost use Rattle.sheet_head.specs.Numbered.{number_of_call, call_number, Numbered};
ghost use Rattle.sheet_head.specs.Reading.{CountAt, ListAt, ListIf, Fits, Laid, CallAt, HeadAt};

pub use head::Head;

// The public calls, in the order of their numbers on a sheet, which go from 1 to 12.
#[derive(Clone, Copy, Debug, PartialEq, Eq)]
pub enum Call {
    Weigh,
    StartPlan,
    TwoOpt,
    Rebuild,
    Exhaustive,
    Pruned,
    Solve,
    Arrive,
    Cancel,
    View,
    MoveStop,
    Roadworks,
}

// The call of a number.
impl TryFrom<u32> for Call {
    type Error = ();

    ghost try_from_gives = { λ n r. Numbered n (result_ok r) };

    fn try_from(number: u32) -> Result<Call, ()> {
        match number {
            1 => Ok(Call::Weigh),
            2 => Ok(Call::StartPlan),
            3 => Ok(Call::TwoOpt),
            4 => Ok(Call::Rebuild),
            5 => Ok(Call::Exhaustive),
            6 => Ok(Call::Pruned),
            7 => Ok(Call::Solve),
            8 => Ok(Call::Arrive),
            9 => Ok(Call::Cancel),
            10 => Ok(Call::View),
            11 => Ok(Call::MoveStop),
            12 => Ok(Call::Roadworks),
            _ => Err(()),
        }
    }
}

// The number of a call.
impl From<Call> for u32 {
    ghost from_gives = { λ c n. n ≡ number_of_call c };

    fn from(call: Call) -> u32 {
        match call {
            Call::Weigh => 1,
            Call::StartPlan => 2,
            Call::TwoOpt => 3,
            Call::Rebuild => 4,
            Call::Exhaustive => 5,
            Call::Pruned => 6,
            Call::Solve => 7,
            Call::Arrive => 8,
            Call::Cancel => 9,
            Call::View => 10,
            Call::MoveStop => 11,
            Call::Roadworks => 12,
        }
    }
}

// How many numbers a call is given: at least and at most so many.
fn given_counts(call: Call) -> (usize, usize)
    ensures { (result.0 ≡ least_given (number_of_call call)) × (result.1 ≡ most_given (number_of_call call)) }
{
    match call {
        Call::Weigh | Call::StartPlan | Call::Exhaustive | Call::Pruned | Call::Solve => (0, 0),
        Call::TwoOpt => (2, 2),
        Call::Rebuild => (0, 8),
        Call::Arrive | Call::Cancel => (3, 3),
        Call::View => (1, 1),
        Call::MoveStop => (4, 4),
        Call::Roadworks => (3, 3),
    }
}

// A line of numbers that was read: how many there are, and the position after it.
#[derive(Clone, Copy)]
pub struct Listed {
    pub count: usize,
    pub end: usize,
}

// How many numbers stand in the line at a position, if one of at most so many stands there.
fn count_fields(bytes: &[u8], at: usize, most: usize) -> usize
    ensures { CountAt bytes.now at most result }
{
    let mut next = at;
    for i in 0..most {
        if file_columns::read_field(bytes, next).is_none() {
            return i;
        }
        next += 14;
    }
    most
}

// The line at a position, of at least and at most so many numbers, which are only checked.
fn check_list(bytes: &[u8], at: usize, least: usize, most: usize) -> Option<Listed>
    ensures { ListAt bytes.now at least most result }
{
    let count = count_fields(bytes, at, most);
    if count < least {
        return None;
    }
    if !file_lines::check_line(bytes, at, count) {
        return None;
    }
    Some(Listed {
        count,
        end: at + (14 * count + 1),
    })
}

// The given numbers of a call, where it has a line with them.
fn check_given(bytes: &[u8], at: usize, call: Call) -> Option<Listed>
    ensures { ListIf (has_given (number_of_call call)) bytes.now at
        (least_given (number_of_call call)) (most_given (number_of_call call)) result }
{
    let (least, most) = given_counts(call);
    if most == 0 {
        return Some(Listed { count: 0, end: at });
    }
    check_list(bytes, at, least, most)
}

impl Call {
    // Whether a call has a line with the plan's numbers.
    pub fn has_plan(self) -> bool
        ensures { result ≡ has_plan (number_of_call self) }
    {
        !matches!(
            self,
            Call::StartPlan | Call::Exhaustive | Call::Pruned | Call::Solve
        )
    }
}

// The same for the call of a number, which a caller may have that has no `Call`. A number of no call has none.
pub fn has_plan(call: u32) -> bool
    ensures { result ≡ has_plan call }
{
    match Call::try_from(call) {
        Ok(call) => call.has_plan(),
        Err(()) => false,
    }
}

// The numbers of a call's plan, where it has a line with them.
fn check_plan(bytes: &[u8], at: usize, call: Call) -> Option<Listed>
    ensures { ListIf (has_plan (number_of_call call)) bytes.now at 0 longest_plan result }
{
    if call.has_plan() {
        return check_list(bytes, at, 0, 96);
    }
    Some(Listed { count: 0, end: at })
}

// The numbers of a line that was checked, written to the front of a list. Where there are none there may be no line.
fn fill_list(bytes: &[u8], at: usize, count: usize, list: &mut [u32])
    requires { Fits bytes.now at count list.old }
    ensures { Laid bytes.now at count list.old list.new }
{
    if count == 0 {
        return;
    }
    file_lines::fill_lines(bytes, at, 1, count, list);
}

// The call whose number stands in the line at a position.
fn read_call(bytes: &[u8], at: usize) -> Option<Call>
    ensures { CallAt bytes.now at (call_number result) }
{
    if !file_lines::check_line(bytes, at, 1) {
        return None;
    }
    Call::try_from(file_columns::number_at(bytes, at)).ok()
}

// The lines of a sheet before its job file.
pub fn read_head(bytes: &[u8], at: usize) -> Option<Head>
    ensures { HeadAt bytes.now at result }
{
    let call = read_call(bytes, at)?;
    let first = at + 15;
    let g = check_given(bytes, first, call)?;
    let second = g.end;
    let p = check_plan(bytes, second, call)?;
    let mut given = [0u32; 8];
    let mut plan = [0u32; 96];
    fill_list(bytes, first, g.count, &mut given);
    fill_list(bytes, second, p.count, &mut plan);
    Some(Head {
        call,
        given_count: g.count,
        given,
        plan_count: p.count,
        plan,
        end: p.end,
    })
}
