// A node of a tree.
ghost use Rattle.std.specs.Prelude.{◌≡◌};
ghost use Rattle.tree_nodes.specs.Nodes.{earlier, is_dirty, is_due, logged, marked, noted_as, without_mark};

use je_lsn::Lsn;

/// What is kept of a node besides its names. It begins without an image, or with the one that opening found;
/// a Commit of a change within it marks it, and an image of it clears the mark.
#[derive(Drop)]
pub struct Node {
    /// Its number. No other node of the environment has it.
    pub number: u64,
    /// The LSN of its last image; None before it was first logged. A node that was split off has that of the node that it
    /// was split from, until it is logged itself.
    pub last: Option<Lsn>,
    /// The LSN from which on the log has committed changes that its last image lacks, or an earlier one.
    /// None where that image lacks none.
    pub from: Option<Lsn>,
    /// How many slots it has: names with a cell, of a BIN; children, of an IN.
    pub slots: u32,
    /// Whether it has no image of its own.
    pub forced: bool,
    /// Whether the checkpoint that began last noted it, and so has to wait for an image of it. A node that was split off has this
    /// of the node that it was split from.
    pub noted: bool,
}

// The earlier of two LSNs, one of which there may be none of.
fn earlier(own: &Option<Lsn>, from: Lsn) -> Lsn
    ensures { result ≡ earlier own.now from }
{
    match own {
        Some(lsn) if *lsn < from => *lsn,
        _ => from,
    }
}

impl Node {
    /// The same node.
    pub fn copy(&self) -> Node
        ensures { result ≡ self.now }
    {
        Node {
            number: self.number,
            last: self.last,
            from: self.from,
            slots: self.slots,
            forced: self.forced,
            noted: self.noted,
        }
    }

    /// The node, where the log has a committed change at `from` that its last image lacks.
    pub fn marked(&self, from: Lsn) -> Node
        ensures { result ≡ marked from self.now }
    {
        Node {
            number: self.number,
            last: self.last,
            from: Some(earlier(&self.from, from)),
            slots: self.slots,
            forced: self.forced,
            noted: self.noted,
        }
    }

    /// The node, where its last image lacks nothing of what it has.
    pub fn unmarked(&self) -> Node
        ensures { result ≡ without_mark self.now }
    {
        Node {
            number: self.number,
            last: self.last,
            from: None,
            slots: self.slots,
            forced: self.forced,
            noted: self.noted,
        }
    }

    /// The node, where its image was logged at `at`.
    pub fn logged(&self, at: Lsn) -> Node
        ensures { result ≡ logged at self.now }
    {
        Node {
            number: self.number,
            last: Some(at),
            from: None,
            slots: self.slots,
            forced: false,
            noted: self.noted,
        }
    }

    /// Whether the node is dirty: it has no image, its last image lacks some of what it has, or it waits to be logged.
    pub fn is_dirty(&self) -> bool
        ensures { result ≡ is_dirty self.now }
    {
        self.forced || self.last.is_none() || self.from.is_some()
    }

    /// Whether the node is noted.
    pub fn is_noted(&self) -> bool
        ensures { result ≡ self.now.noted }
    {
        self.noted
    }

    /// Whether a checkpoint has to log the node: it is noted, and dirty.
    pub fn is_due(&self) -> bool
        ensures { result ≡ is_due self.now }
    {
        self.noted && self.is_dirty()
    }

    /// The node, noted or not.
    pub fn noted(&self, noted: bool) -> Node
        ensures { result ≡ noted_as noted self.now }
    {
        Node {
            number: self.number,
            last: self.last,
            from: self.from,
            slots: self.slots,
            forced: self.forced,
            noted,
        }
    }
}
