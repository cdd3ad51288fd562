// `listen` on a stream with frequencies of 0 in between.
#![tactic(auto)]

fn main(rt: HostRuntime) {
    let _ = listening::run(&rt);
}
