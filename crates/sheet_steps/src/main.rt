// Cases 5 to 11 and 13 of the bench sheet, and calls that pass through every stage, task and scheduler step: `stdin` has them.
#![tactic(auto)]

fn main() {
    try_calls::run();
}
