// `listen` on a stream whose first frequencies are 0.
#![tactic(auto)]

fn main(rt: HostRuntime) {
    let _ = listening::run(&rt);
}
