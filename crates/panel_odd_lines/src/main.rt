// `panel` on odd lines: most cannot be read, are answered with `?` and change nothing. Assumes nothing.
#![tactic(auto)]

fn main(rt: HostRuntime) {
    panel_body::run(&rt);
}
