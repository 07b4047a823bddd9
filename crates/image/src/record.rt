// The eight actions as records of a table image, and the lookups: keyberon's `Action`. Document 01, "The table image".
// Assumes nothing.
ghost use Rattle.std.specs.Prelude.{◌≡◌, ◌+◌, ◌*◌, ◌<◌};
ghost use Rattle.image.specs.Record.{action_of, action_at, cell_at, entry_at, action_words};

use super::words::word_or_zero;

// A record's words, by its kind: records are named by their numbers, entries by the first and their count.
#[derive(Clone, Copy, PartialEq, Eq, Debug)]
pub enum Action {
    NoOp,
    Trans,
    KeyCode(u16),
    MultipleKeyCodes(u16, u16),
    MultipleActions(u16, u16),
    Layer(u16),
    DefaultLayer(u16),
    HoldTap(u16, u16, u16),
}

// The action of a kind with the words a, b, c: here the image's word becomes an action, and any other kind is NoOp.
#[tactic(auto, unfolding(crate::specs::Record::action_of))]
pub(crate) fn action_of(kind: u16, a: u16, b: u16, c: u16) -> Action
    ensures { result ≡ action_of kind a b c }
{
    match kind {
        1 => Action::Trans,
        2 => Action::KeyCode(a),
        3 => Action::MultipleKeyCodes(a, b),
        4 => Action::MultipleActions(a, b),
        5 => Action::Layer(a),
        6 => Action::DefaultLayer(a),
        7 => Action::HoldTap(a, b, c),
        _ => Action::NoOp,
    }
}

// The record that a cell names, or nothing outside the table. Nothing is asked of the image or of the place, so the place of
// the cell in the image can pass 32 bits.
#[tactic(auto, unfolding(crate::specs::Record::cell_at, crate::specs::Words::cell_of))]
pub fn cell_at(image: &[u8], layer: usize, row: usize, column: usize) -> Option<u16>
    ensures { result ≡ cell_at image.now layer row column }
{
    let rows = word_or_zero(image, 4) as u64;
    let columns = word_or_zero(image, 6) as u64;
    let (layer, row, column) = (layer as u64, row as u64, column as u64);
    if layer < (word_or_zero(image, 2) as u64) && row < rows && column < columns {
        let place = (layer * rows + row) * columns + column;
        return Some(word_or_zero(image, 16 + 2 * place));
    }
    None
}

// The action of record n. A record past the last is NoOp.
#[tactic(auto, unfolding(crate::specs::Record::action_at, crate::specs::Words::field_of))]
pub fn action_at(image: &[u8], n: usize) -> Action
    ensures { action_words result ≡ action_words (action_at image.now n) }
{
    if (word_or_zero(image, 8) as usize) <= n {
        return Action::NoOp;
    }
    let at = (word_or_zero(image, 12) as u64) + 8 * (n as u64);
    let kind = word_or_zero(image, at);
    let a = word_or_zero(image, at + 2);
    let b = word_or_zero(image, at + 4);
    let c = word_or_zero(image, at + 6);
    action_of(kind, a, b, c)
}

// An entry of the list, or nothing past its end.
#[tactic(auto, unfolding(crate::specs::Record::entry_at, crate::specs::Words::entry_of))]
pub fn entry_at(image: &[u8], e: usize) -> Option<u16>
    ensures { result ≡ entry_at image.now e }
{
    if (word_or_zero(image, 10) as usize) <= e {
        return None;
    }
    let at = (word_or_zero(image, 14) as u64) + 2 * (e as u64);
    Some(word_or_zero(image, at))
}
