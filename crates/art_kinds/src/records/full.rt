//! A node with room for a child at each byte.
ghost use Rattle.std.specs.Prelude.{◌≡◌, None};

use crate::records::children::Children;
use crate::records::ids::Child;
use crate::records::indexed::Indexed;
use crate::records::link::OptionLink;
use std::marker::Model;

/// A child or nothing for each byte. A contract sees the edges in ascending order of their bytes.
#[derive(Drop)]
pub(crate) struct Full {
    /// The number of edges.
    pub(super) count: usize,
    /// The child of each byte, or nothing.
    pub(super) children: [OptionLink; 256],
}

impl Model for Full {
    ghost use Rattle.std.specs.Prelude.{List};
    ghost use Rattle.art_kinds.specs.declared.records.ids.Edge.{Edge};
    ghost use Rattle.art_kinds.specs.Codes.{edge_code};
    ghost use Rattle.std.specs.Coded.{coded_list};
    ghost use Rattle.art_kinds.specs.Edges.{edges_of, Filled};

    ghost Value = { List Edge };

    ghost coded = { coded_list edge_code };

    ghost view = { λ n. edges_of n.children };

    ghost invariant = { λ n. Filled n.count n.children };
}

impl Full {
    /// Returns the edges of a smaller node.
    pub(crate) fn of_indexed(indexed: &Indexed) -> Self
        ensures { result ≡ indexed.now }
    {
        let mut edges = Full {
            count: 0,
            children: [OptionLink::none(); 256],
        };
        // The count says that the bytes of the edges ascend and are less than 256.
        let _count = indexed.count();
        for next in 0..256usize {
            if let Some(to) = indexed.find(next as u8) {
                edges.insert(next as u8, to);
            }
        }
        edges
    }
}

impl Children for Full {
    ghost edges = { λ s. s };

    ghost places = { None };

    fn copy(&self) -> Self {
        Full {
            count: self.count,
            children: self.children,
        }
    }

    fn count(&self) -> usize {
        self.count
    }

    fn find(&self, byte: u8) -> Option<Child> {
        self.children[byte as usize].child()
    }

    fn insert(&mut self, byte: u8, to: Child) {
        self.children[byte as usize] = OptionLink::of(to);
        self.count += 1;
    }

    fn remove(&mut self, byte: u8) {
        self.children[byte as usize] = OptionLink::none();
        self.count -= 1;
    }

    fn redirect(&mut self, byte: u8, to: Child) {
        self.children[byte as usize] = OptionLink::of(to);
    }
}
