// `listen` on a stream with 65 tunings, which ends in a refusal.
#![tactic(auto)]

fn main(rt: HostRuntime) {
    let _ = listening::run(&rt);
}
