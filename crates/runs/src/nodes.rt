// The extent blocks of a file.
use spec::{DiskBlock, Limits};
use std::marker::Model;

// At most as many as a record has slots: the first `count` cells, the others are 0. No ArrayVec, which is not Copy.
#[derive(Clone, Copy)]
pub struct Nodes {
    cells: [u32; Limits::SLOTS_PER_INODE],
    count: usize,
}

impl Model for Nodes {
    ghost use Rattle.std.specs.Prelude.{ℕ, List, ◌++◌, ◌-◌, length, take, replicate};
    ghost use mathlib.Core.Path.{ap₂};
    ghost use Rattle.lists.specs.Padded.{Padded, padded-count, padded-cells};

    ghost Value = { List ℕ };

    ghost view = { λ n. take n.count n.cells };

    ghost invariant = { λ n. Padded 4 n.cells n.count };

    ghost inverse = { λ l. record { cells = l ++ replicate (4 - length l) 0; count = length l } };

    ghost inverse_ok = { λ n h. ap₂ (λ (cells : List ℕ) (count : ℕ). record { cells = cells; count = count })
        (padded-cells 4 n.cells n.count h) (padded-count 4 n.cells n.count h) };
}

impl Nodes {
    ghost use Rattle.std.specs.Prelude.{◌≡◌, ◌<◌, ◌≤◌, [], ◌∷◌, ◌++◌, length, take};

    // No nodes.
    pub fn empty() -> Nodes
        ensures { result ≡ [] }
    {
        Nodes {
            cells: [0; Limits::SLOTS_PER_INODE],
            count: 0,
        }
    }

    // Their blocks, in order.
    pub fn as_slice(&self) -> &[u32]
        ensures { (result.now ≡ self.now) × (length result.now ≤ 4) }
    {
        &self.cells[..self.count]
    }

    // How many there are.
    pub fn len(&self) -> usize
        ensures { (result ≡ length self.now) × (result ≤ 4) }
    {
        self.as_slice().len()
    }

    // The first n of them.
    pub fn prefix(&self, n: usize) -> Nodes
        ensures { result ≡ take n self.now }
    {
        let count = self.count.min(n);
        let mut cells = self.cells;
        cells[count..].fill(0);
        Nodes { cells, count }
    }

    // One more behind them.
    pub fn push(&mut self, b: DiskBlock)
        requires { length self.old < 4 }
        ensures { self.new ≡ self.old ++ (b.0 ∷ []) }
    {
        self.cells[self.count] = b.0;
        self.count += 1;
    }
}
