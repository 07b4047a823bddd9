// A table's text on standard input, its image on standard output: document 02, W-201. Here run on the text of document 01's
// image Z. Assumes nothing.
#![tactic(auto)]

fn main(rt: HostRuntime) {
    table_body::write(rt.stdin(), rt.stdout());
}
