// A text behind its index.

ghost use Rattle.index.specs.Lent.{slices_of};
ghost use Rattle.words.specs.Ready.{Ready};

use index::LentIndex;

// The text of an index that has passed the check, and the table of where its nodes start.
#[derive(Clone, Copy)]
pub struct IndexedText<'a> {
    pub index: LentIndex<'a>,
    pub starts: &'a [u32],
    pub ghost ready: { Ready index.s index.shape (slices_of index) starts.now },
}
