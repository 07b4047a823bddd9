// `panel` where there is no `table.img`: it writes nothing to standard output. Assumes nothing.
#![tactic(auto)]

fn main(rt: HostRuntime) {
    panel_body::run(&rt);
}
