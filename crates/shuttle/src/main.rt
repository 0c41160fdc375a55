// Reads a job file from standard input, plans it, and prints the vehicle of each stop and the numbers of the run.
#![tactic(auto)]

fn main(rt: HostRuntime) {
    shuttle_answers::print_answer(&mut rt.stdin(), b"standard input", &mut rt.stdout(), &rt);
}
