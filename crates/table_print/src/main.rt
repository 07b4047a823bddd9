// A table's image on standard input, its text on standard output: document 02, W-201. Here run on document 01's image Z.
// Assumes nothing.
#![tactic(auto)]

fn main(rt: HostRuntime) {
    table_body::print(rt.stdin(), rt.stdout());
}
