// Prints the answer of the model on standard input.
#![tactic(auto)]

fn main(rt: HostRuntime) {
    console::run(&rt);
}
