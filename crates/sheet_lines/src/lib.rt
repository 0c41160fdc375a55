// What is printed for the answer of a single call.
#![tactic(auto)]

ghost use Rattle.std.specs.Prelude.{◌≤◌, length};
ghost use Rattle.model.specs.File.{printed_refusal};
ghost use Rattle.model.specs.Numbers.{number_of};
ghost use Rattle.file_printing.specs.Printing.{Prints};
ghost use Rattle.sheet_lines.specs.Printed.{printed_answer, printed_alone, Printable, Accepts};

use model::Refusal;
use sheet_printing::Printed;

// The line of a refusal.
pub fn print_refused(refusal: Refusal, out: &mut [u8]) -> usize
    requires { 21 ≤ length out.old }
    ensures { Prints out.old out.new result (printed_refusal (number_of refusal)) }
{
    file_printing::print_refusal(u32::from(refusal), out)
}

// What a call answers and the plan that it leaves, or its refusal: how many bytes it is.
pub fn print_answer<T: Printed>(answer: Result<T, Refusal>, plan: &[u32], out: &mut [u8]) -> usize
    requires printable { Printable plan.now out.old }
    requires exactly { Accepts T.Exact answer }
    ensures { Prints out.old out.new result (printed_answer T.text answer plan.now) }
{
    match answer {
        Ok(value) => sheet_printing::print_with_list(value, plan, out),
        Err(refusal) => print_refused(refusal, out),
    }
}

// What a call answers alone, or its refusal.
pub fn print_value<T: Printed>(answer: Result<T, Refusal>, out: &mut [u8]) -> usize
    requires in_bounds { T.bytes ≤ length out.old }
    requires refusal_in_bounds { 21 ≤ length out.old }
    requires exactly { Accepts T.Exact answer }
    ensures { Prints out.old out.new result (printed_alone T.text answer) }
{
    match answer {
        Ok(value) => value.print(out),
        Err(refusal) => print_refused(refusal, out),
    }
}
