// 01's program: the tracker and the receiver on one stream from standard input.
#![tactic(auto)]

fn main(rt: HostRuntime) {
    let _ = listening::run(&rt);
}
