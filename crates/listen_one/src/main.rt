// `listen` on 01's example: one record of eight 200s, CFO 0, 868130000 Hz.
#![tactic(auto)]

fn main(rt: HostRuntime) {
    let _ = listening::run(&rt);
}
