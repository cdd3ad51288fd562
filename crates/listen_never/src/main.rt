// `listen` on a stream whose frequencies are all 0.
#![tactic(auto)]

fn main(rt: HostRuntime) {
    let _ = listening::run(&rt);
}
