use super::memo::Memo;
use super::start::Start;
use std::alloc::Global;

/// Memory that tests use, one after the other, with the starts that the last ones left in it.
#[derive(Drop)]
pub struct Scratch {
    /// What takes it.
    pub alloc: Global,
    /// The starts of the last test in which no message was barred but the target.
    pub(crate) plain: Vec<Start>,
    /// Those of the last test in which each message was barred in turn.
    pub(crate) barred: Vec<Start>,
    pub(crate) memos: Vec<Memo>,
    pub(crate) nexts: Vec<u32>,
}

impl Scratch {
    /// Memory for tests, of which none is taken yet.
    pub fn new(alloc: Global) -> Scratch {
        Scratch {
            alloc,
            plain: Vec::new(alloc),
            barred: Vec::new(alloc),
            memos: Vec::new(alloc),
            nexts: Vec::new(alloc),
        }
    }

    /// The starts of the last test in which messages were barred so.
    pub(crate) fn starts(&self, barring: bool) -> &[Start] {
        if barring { &self.barred } else { &self.plain }
    }
}
