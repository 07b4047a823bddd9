// `panel` on a table that the check refuses: the refusal alone, and no line answered. Assumes nothing.
#![tactic(auto)]

fn main(rt: HostRuntime) {
    panel_body::run(&rt);
}
