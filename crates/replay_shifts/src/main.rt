// The receiver, call by call, with shifts behind the arguments of each (docs/REPLAY.md, `shifts`).
#![tactic(auto)]

fn main(rt: HostRuntime) {
    replay_receiver::run(&rt, true);
}
