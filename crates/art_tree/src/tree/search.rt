//! Look-ups by bytes.
ghost use Rattle.std.specs.Prelude.{◌≡◌, ◌+◌, ◌<◌, ◌≤◌, ℕ, [], length, option_map, Option, Some, IfSome};
ghost use Rattle.blart_keys.specs.Content.{at, front_of};
ghost use Rattle.art_tree.specs.Begins.{Bytes};
ghost use Rattle.art_tree.specs.Calls.Descents.{IsRoot, IsAloneAt, GoesTo, IsFrontAlone};
ghost use Rattle.art_tree.specs.Calls.Forks.{IsLeafPath};
ghost use Rattle.art_tree.specs.Leaves.{Has, bytes};
ghost use Rattle.art_kinds.specs.Nodes.{at as nodes_at};
ghost use Rattle.art_tree.specs.Invariant.Shape.{Shape};
ghost use Rattle.art_tree.specs.Invariant.Sound.{IsSound};

use crate::lists::begins;
use crate::tree::Tree;
use crate::tree::skeleton::LeafPath;
use art_kinds::{Child, Nodes};
use art_rows::Leaves;
use art_slots::{LeafId, Visits};
use blart_keys::AsBytes;

impl<K: AsBytes, V, const PREFIX_LEN: usize> Tree<K, V, PREFIX_LEN> {
    /// Returns the pair with these bytes, and its leaf, or `None` if there is no such pair.
    ///
    /// Cost: at most n + 1 visits on n bytes, and none on an empty tree. It makes at least one
    /// visit if it returns a pair.
    pub fn get(&self, query: &[u8], visits: &mut Visits) -> Option<(LeafId, &K, &V)>
        ensures found { option_map (λ f. (f.0, (f.1.now, f.2.now))) result
            ≡ at (bytes K.bytes) self.now.pairs query.now }
        ensures counted { visits.new.count ≤ visits.old.count + length query.now + 1 }
        ensures grows { visits.old.count ≤ visits.new.count }
        ensures some_counted { IfSome result (λ _. visits.old.count < visits.new.count) }
        ensures empty { self.now.pairs ≡ [] → visits.new.count ≡ visits.old.count }
    {
        self.law();
        let (nodes, root) = (&self.skeleton.nodes, &self.skeleton.root);
        let Some(found) = pair_below(&self.leaves, nodes, root, query, visits) else {
            return None;
        };
        if found.1.as_bytes() == query {
            Some(found)
        } else {
            None
        }
    }

    /// Returns the pair whose bytes are a prefix of these, and its leaf, or `None` if there is no
    /// such pair.
    ///
    /// Cost: at most n + 1 visits on n bytes, and none on an empty tree. It makes at least one
    /// visit if it returns a pair.
    pub fn get_front(&self, query: &[u8], visits: &mut Visits) -> Option<(LeafId, &K, &V)>
        ensures found { option_map (λ f. (f.0, (f.1.now, f.2.now))) result
            ≡ front_of (bytes K.bytes) self.now.pairs query.now }
        ensures counted { visits.new.count ≤ visits.old.count + length query.now + 1 }
        ensures grows { visits.old.count ≤ visits.new.count }
        ensures some_counted { IfSome result (λ _. visits.old.count < visits.new.count) }
        ensures empty { self.now.pairs ≡ [] → visits.new.count ≡ visits.old.count }
    {
        self.law();
        let (nodes, root) = (&self.skeleton.nodes, &self.skeleton.root);
        let Some(found) = pair_below(&self.leaves, nodes, root, query, visits) else {
            return None;
        };
        if begins(found.1.as_bytes(), query) {
            Some(found)
        } else {
            None
        }
    }

    /// Returns the leaf with these bytes, or `None` if there is no such leaf.
    ///
    /// Cost: at most n + 1 visits on n bytes, and none on an empty tree. It makes at least one
    /// visit if it returns a leaf.
    pub fn search(&self, query: &[u8], visits: &mut Visits) -> Option<LeafId>
        ensures found { result
            ≡ option_map (λ p. p.0) (at (bytes K.bytes) self.now.pairs query.now) }
        ensures there { IfSome result (Has self.now.pairs) }
        ensures counted { visits.new.count ≤ visits.old.count + length query.now + 1 }
        ensures grows { visits.old.count ≤ visits.new.count }
        ensures some_counted { IfSome result (λ _. visits.old.count < visits.new.count) }
        ensures empty { self.now.pairs ≡ [] → visits.new.count ≡ visits.old.count }
    {
        self.law();
        match self.get(query, visits) {
            Some(found) => Some(found.0),
            None => None,
        }
    }

    /// Returns the leaf whose bytes are a prefix of these, or `None` if there is no such leaf.
    ///
    /// Cost: at most n + 1 visits on n bytes, and none on an empty tree. It makes at least one
    /// visit if it returns a leaf.
    pub fn search_front(&self, query: &[u8], visits: &mut Visits) -> Option<LeafId>
        ensures found { result
            ≡ option_map (λ p. p.0) (front_of (bytes K.bytes) self.now.pairs query.now) }
        ensures there { IfSome result (Has self.now.pairs) }
        ensures counted { visits.new.count ≤ visits.old.count + length query.now + 1 }
        ensures grows { visits.old.count ≤ visits.new.count }
        ensures some_counted { IfSome result (λ _. visits.old.count < visits.new.count) }
        ensures empty { self.now.pairs ≡ [] → visits.new.count ≡ visits.old.count }
    {
        self.law();
        match self.get_front(query, visits) {
            Some(found) => Some(found.0),
            None => None,
        }
    }
}

/// Returns the only pair whose key may be a prefix of these bytes, and its leaf, or `None` if no
/// key is.
#[inline(always)]
fn pair_below<'a, K: AsBytes, V, const P: usize>(
    leaves: &'a Leaves<K, V>,
    nodes: &Nodes<P>,
    root: &Option<Child>,
    query: &[u8],
    visits: &mut Visits,
) -> Option<(LeafId, &'a K, &'a V)>
    requires { IsSound K.bytes P leaves.now nodes.now root.now }
    ensures found { IsFrontAlone K.bytes leaves.now.pairs query.now
        (option_map (λ f. (f.0, (f.1.now, f.2.now))) result) }
    ensures counted { visits.new.count ≤ visits.old.count + length query.now + 1 }
    ensures grows { visits.old.count ≤ visits.new.count }
    ensures some_counted { IfSome result (λ _. visits.old.count < visits.new.count) }
    ensures empty { leaves.now.pairs ≡ [] → visits.new.count ≡ visits.old.count }
{
    let Some(root) = root else {
        return None;
    };
    let leaf = leaf_below(nodes, root, query, visits)?;
    let (key, value) = leaves.read(leaf, visits);
    Some((leaf, key, value))
}

/// Returns the only leaf whose key may be a prefix of the query, or `None` if no key is.
#[inline(always)]
fn leaf_below<const P: usize>(
    nodes: &Nodes<P>,
    root: &Child,
    query: &[u8],
    visits: &mut Visits,
) -> Option<LeafId>
    requires { IsRoot P (nodes_at nodes.now) root.now }
    ensures goes { (keys : ℕ → Option Bytes) → Shape P keys (nodes_at nodes.now) (Some root.now)
        → GoesTo keys query.now visits.old.count visits.new.count result }
    ensures grows { visits.old.count ≤ visits.new.count }
{
    let mut below = *root;
    'down: loop {
        let id = match below {
            Child::Leaf(id) => return Some(id),
            Child::Inner(id) => id,
        };
        let node = nodes.read(id, visits);
        let depth = node.depth();
        if depth >= query.len() {
            return None;
        }
        below = node.find(query[depth])?;
    }
}

/// Returns the only pair whose key may be a prefix of these bytes, and the path of its leaf, or
/// `None` if no key is.
pub(crate) fn pair_toward<'a, K: AsBytes, V, const P: usize>(
    leaves: &'a Leaves<K, V>,
    nodes: &Nodes<P>,
    root: &Option<Child>,
    query: &[u8],
) -> Option<(LeafPath, &'a K, &'a V)>
    requires { IsSound K.bytes P leaves.now nodes.now root.now }
    ensures found { IsFrontAlone K.bytes leaves.now.pairs query.now
        (option_map (λ f. (f.0.id, (f.1.now, f.2.now))) result) }
    ensures path { IfSome result (λ f. IsLeafPath (nodes_at nodes.now) root.now f.0) }
{
    let Some(root) = root else {
        return None;
    };
    let path = leaf_toward(nodes, root, query)?;
    let (key, value) = leaves.read(path.id, &mut Visits::new());
    Some((path, key, value))
}

/// Returns the path of the only leaf whose key may be a prefix of the query, or `None` if no key
/// is.
fn leaf_toward<const P: usize>(nodes: &Nodes<P>, root: &Child, query: &[u8]) -> Option<LeafPath>
    requires { IsRoot P (nodes_at nodes.now) root.now }
    ensures goes { (keys : ℕ → Option Bytes) → Shape P keys (nodes_at nodes.now) (Some root.now)
        → IsAloneAt keys query.now (option_map (λ s. s.id) result) }
    ensures path { IfSome result (IsLeafPath (nodes_at nodes.now) (Some root.now)) }
{
    let mut at = *root;
    let mut edge = None;
    let mut above = None;
    'down: loop {
        let id = match at {
            Child::Leaf(id) => return Some(LeafPath { id, edge, above }),
            Child::Inner(id) => id,
        };
        let node = nodes.read(id, &mut Visits::new());
        let depth = node.depth();
        if depth >= query.len() {
            return None;
        }
        let byte = query[depth];
        at = node.find(byte)?;
        above = edge;
        edge = Some((id, byte));
    }
}
