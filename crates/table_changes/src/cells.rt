// The cells of two tables, one after the other: document 02, W-203.
// Assumes nothing.
ghost use Rattle.std.specs.Prelude.{◌≡◌, ◌+◌, ◌*◌, ◌<◌, ◌≤◌, [], ◌∷◌, length};
ghost use Rattle.image.specs.Words.{rows_of, columns_of, cells_of};
ghost use Rattle.table_changes.specs.Changes.{differs, placed};
ghost use Rattle.table_changes.specs.Inside.{ListedTo};

use super::pair::Pair;
use image::word_or_zero;

impl Pair<'_> {
    // How many cells each has.
    #[tactic(auto, using(image::proofs::HeaderRules::small))]
    pub(crate) fn cells(&self) -> usize
        ensures { result ≡ cells_of self.now.first.now }
    {
        self.shape.layers * self.shape.rows * self.shape.columns
    }

    // Whether the action of cell i is another one.
    #[tactic(auto, unfolding(crate::specs::Changes::differs, image::specs::Words::cell_of))]
    fn differs(&self, i: usize) -> bool
        requires { i < 1024 }
        ensures { result ≡ differs self.now.first.now self.now.second.now i }
    {
        let at = 16 + 2 * (i as u64);
        !self.same(word_or_zero(self.first, at), word_or_zero(self.second, at))
    }

    // The layer, row and column of cell i.
    #[tactic(auto, unfolding(crate::specs::Changes::placed))]
    fn place(&self, i: usize) -> [u8; 3]
        requires { i < cells_of self.now.first.now }
        ensures { result ≡ placed (rows_of self.now.first.now) (columns_of self.now.first.now) (i ∷ []) }
    {
        let line = i / self.shape.columns;
        let layer = line / self.shape.rows;
        let row = line % self.shape.rows;
        let column = i % self.shape.columns;
        [layer as u8, row as u8, column as u8]
    }

    // The places of the cells that differ, from the start of the buffer on; and how many.
    pub(crate) fn list_changes(&self, out: &mut [u8]) -> usize
        requires { 3 * cells_of self.now.first.now ≤ length out.old }
        ensures { ListedTo self.now.first.now self.now.second.now out.old result out.new }
    {
        let mut count = 0;
        for i in 0..self.cells() {
            if self.differs(i) {
                let at = 3 * count;
                out[at..at + 3].copy_from_slice(&self.place(i));
                count += 1;
            }
        }
        count
    }
}
