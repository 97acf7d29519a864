// Numbers that the table has cells for: who holds one needs no test of it, and its places are within the table.

ghost use Rattle.std.specs.Prelude.{◌≡◌, ◌≤◌, ◌<◌, false, MatchOption};
ghost use Rattle.rules.specs.Plan.{most_hubs, most_nodes};
ghost use Rattle.cells.specs.Layout.{mask_cell, pointer_cell, node_cell};

// A hub.
#[derive(Clone, Copy)]
pub struct Hub {
    pub number: u32,
    ghost in_table: { (1 ≤ number) × (number ≤ most_hubs) },
}

impl Hub {
    pub fn new(number: u32) -> Option<Hub>
        ensures { MatchOption result (¬ ((1 ≤ number) × (number ≤ most_hubs))) (λ hub. hub.number ≡ number) }
    {
        if (1..=crate::MOST_HUBS).contains(&number) {
            Some(Hub { number })
        } else {
            None
        }
    }

    // Where its mask of a class stands. The masks are the first of its cells.
    pub fn mask(self, high: bool) -> usize
        ensures value { result ≡ mask_cell high self.number }
        ensures upper_bound { result < pointer_cell false most_hubs }
    {
        crate::HUBS + (self.number as usize - 1) * crate::PER_HUB + high as usize
    }

    // Where its pointer of the class stands: as far behind the mask as the pointers begin behind the hub's first cell.
    pub fn pointer(self, high: bool) -> usize
        ensures value { result ≡ pointer_cell high self.number }
        ensures upper_bound { result < node_cell 1 0 }
    {
        self.mask(high) + crate::POINTER
    }
}

// A node. It is no Hub with another bound, so that neither number can stand for the other.
#[derive(Clone, Copy)]
pub struct Node {
    pub number: u32,
    ghost in_table: { (1 ≤ number) × (number ≤ most_nodes) },
}

impl Node {
    pub fn new(number: u32) -> Option<Node>
        ensures { MatchOption result (¬ ((1 ≤ number) × (number ≤ most_nodes))) (λ node. node.number ≡ number) }
    {
        if (1..=crate::MOST_NODES).contains(&number) {
            Some(Node { number })
        } else {
            None
        }
    }
}
