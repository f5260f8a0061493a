//! A node with an index of its children by byte.
ghost use Rattle.std.specs.Prelude.{ℕ, ◌≡◌, ◌<◌, ◌≤◌, length, Some, slice_index_or};
ghost use Rattle.art_kinds.specs.Edges.{moved};

use crate::records::children::Children;
use crate::records::few::Few;
use crate::records::full::Full;
use crate::records::ids::Child;
use crate::records::link::Link;
use std::marker::Model;

/// Up to 48 children, and for each byte the place of its child, or 48 if the byte has no child. A
/// contract sees the edges in ascending order of their bytes.
#[derive(Drop)]
pub(crate) struct Indexed {
    /// The number of edges.
    pub(super) count: usize,
    /// The place of the child of each byte, or 48.
    pub(super) index: [u8; 256],
    /// The children, in the first `count` places.
    pub(super) children: [Link; 48],
}

impl Model for Indexed {
    ghost use Rattle.std.specs.Prelude.{List};
    ghost use Rattle.art_kinds.specs.declared.records.ids.Edge.{Edge};
    ghost use Rattle.art_kinds.specs.Codes.{edge_code};
    ghost use Rattle.std.specs.Coded.{coded_list};
    ghost use Rattle.art_kinds.specs.Edges.{edges_of, table, IsIndex};

    ghost Value = { List Edge };

    ghost coded = { coded_list edge_code };

    ghost view = { λ n. edges_of (table n.index n.children) };

    ghost invariant = { λ n. IsIndex n.count n.index n.children };
}

impl Indexed {
    /// Returns the edges of a smaller node.
    pub(crate) fn of_sixteen(sixteen: &Few<16>) -> Self
        ensures { result ≡ sixteen.now }
    {
        let mut edges = Indexed {
            count: 0,
            index: [48; 256],
            children: [Link::none(); 48],
        };
        for i in 0..sixteen.count as usize {
            edges.insert(sixteen.bytes[i], sixteen.children[i].child());
        }
        edges
    }

    /// Returns the edges of a larger node that has at most 48 edges.
    pub(crate) fn of_full(full: &Full) -> Self
        requires { length full.now ≤ 48 }
        ensures { result ≡ full.now }
    {
        let mut edges = Indexed {
            count: 0,
            index: [48; 256],
            children: [Link::none(); 48],
        };
        // The count says that the bytes of the edges ascend and are less than 256.
        let _count = full.count();
        for next in 0..256usize {
            if let Some(to) = full.find(next as u8) {
                edges.insert(next as u8, to);
            }
        }
        edges
    }
}

impl Children for Indexed {
    ghost edges = { λ s. s };

    ghost places = { Some 48 };

    fn copy(&self) -> Self {
        Indexed {
            count: self.count,
            index: self.index,
            children: self.children,
        }
    }

    fn count(&self) -> usize {
        self.count
    }

    fn find(&self, byte: u8) -> Option<Child> {
        let place = self.index[byte as usize];
        if place < 48 {
            Some(self.children[place as usize].child())
        } else {
            None
        }
    }

    fn insert(&mut self, byte: u8, to: Child) {
        let place = self.count;
        self.children[place] = Link::of(to);
        self.index[byte as usize] = place as u8;
        self.count = place + 1;
    }

    /// The last child moves to the place that becomes free.
    fn remove(&mut self, byte: u8) {
        let last = self.count - 1;
        let place = self.index[byte as usize];
        self.index[byte as usize] = 48;
        self.children[place as usize] = self.children[last];
        rename_in(&mut self.index, last as u8, place);
        self.count = last;
    }

    fn redirect(&mut self, byte: u8, to: Child) {
        let place = self.index[byte as usize];
        self.children[place as usize] = Link::of(to);
    }
}

/// Replaces each entry `from` of an index with `to`.
fn rename_in(index: &mut [u8], from: u8, to: u8)
    requires { from < 48 }
    ensures { (b : ℕ) → slice_index_or index.new b 48
        ≡ moved from to (slice_index_or index.old b 48) }
{
    for place in index.iter_mut() {
        if *place == from {
            *place = to;
        }
    }
}
