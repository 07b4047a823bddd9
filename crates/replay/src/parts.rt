// The lines that set a part of the layout as it stands, legal or not: `default`, `counts`, `state`, `queue`, `wait`,
// `idle`. Assumes nothing.
use super::commands::Part;
use layout::Layout;

pub fn set(part: Part, layout: &mut Layout) {
    match part {
        Part::Default(n) => layout.active.default_layer = usize::from(n),
        Part::Counts(states, queued) => {
            layout.active.len = usize::from(states);
            layout.queue.queued = usize::from(queued);
        }
        Part::State(k, state) => {
            if k < Layout::STATES {
                layout.active.states[k] = state;
            }
        }
        Part::Queued(k, stacked) => {
            if k < Layout::QUEUE {
                layout.queue.stacked[k] = stacked;
            }
        }
        Part::Waiting(waiting) => layout.active.waiting = waiting,
    }
}
