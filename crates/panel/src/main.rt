// The program of document 01, Bench cases; here run on its image Z and its five lines. Assumes nothing.
#![tactic(auto)]

fn main(rt: HostRuntime) {
    panel_body::run(&rt);
}
