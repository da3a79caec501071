// Cases 1, 2 and 12 of the bench sheet, and each refusal of set-up and of the requests: `stdin` has the calls.
#![tactic(auto)]

fn main() {
    try_calls::run();
}
