// The receiver, call by call (docs/REPLAY.md, `events`).
#![tactic(auto)]

fn main(rt: HostRuntime) {
    replay_receiver::run(&rt, false);
}
