// `listen` on no input.
#![tactic(auto)]

fn main(rt: HostRuntime) {
    let _ = listening::run(&rt);
}
