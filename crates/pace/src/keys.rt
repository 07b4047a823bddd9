// A layout: the script is a table image and, behind it, three bytes a call. Assumes nothing.
use event::Event;
use image::in_use;
use layout::Layout;

// Two ticks. No script of oracle/speed asks for them: with a second caller the compiler keeps `tick` a function, which can
// be counted by its name.
fn twice(layout: Layout, image: &[u8], out: &mut [u8]) -> Layout {
    let once = layout.tick(image, out).layout;
    once.tick(image, out).layout
}

// One call: 0 and 1 are an event with its row and column, 2 is a tick, 3 the codes alone. `event` has two callers, so that it
// stays a function too.
fn step(layout: Layout, image: &[u8], call: [u8; 3], out: &mut [u8]) -> Layout {
    match call {
        [0, i, j] => layout.event(image, Event::Release(i, j), out).layout,
        [1, i, j] => layout.event(image, Event::Press(i, j), out).layout,
        [2, _, _] => layout.tick(image, out).layout,
        [3, _, _] => {
            let _ = layout.keycodes(image, out);
            layout
        }
        _ => twice(layout, image, out),
    }
}

fn run(image: &[u8], script: &[u8], out: &mut [u8]) {
    let mut layout = Layout::new();
    for call in script.chunks_exact(3) {
        layout = step(layout, image, [call[0], call[1], call[2]], out);
    }
}

pub fn drive(input: &[u8], out: &mut [u8]) {
    let image = in_use(input, input);
    if let Some(script) = input.get(image.len()..) {
        run(image, script, out);
    }
}
