//! A tree behind a pointer that C may keep.
ghost use Rattle.std.specs.Prelude.{◌≡◌};
ghost use Rattle.std.specs.Borrow.{sem};
ghost use Rattle.blart_c.specs.declared.tree.Tree.{Tree};
ghost use Rattle.blart_c.specs.Owned.{tree_coded, tree_owns};

use crate::box_parts::BoxParts;
use crate::tree::Tree;
use std::alloc::Global;
use std::marker::Model;

/// What C sees behind the pointer of a handle: nothing.
#[repr(C)]
pub struct Opaque {
    byte: u8,
}

/// A handle: a pointer to the tree, which it owns. To a contract the tree is its field `tree`.
#[repr(C)]
pub struct ArtMap {
    at: *mut Opaque,
    alloc: Global,
    pub ghost tree: { Tree } by { tree_coded },
}

impl Model for ArtMap {
    ghost also_owns = { λ m. tree_owns m.alloc m.at m.tree };
}

impl ArtMap {
    ghost use Rattle.blart_c.specs.Lent.{LendsTree};

    /// Makes a handle of a box.
    pub(crate) fn from_box(whole: Box<Tree>) -> ArtMap
        ensures { result.tree ≡ whole.value }
    {
        ArtMap::from_parts(BoxParts::from_box(whole))
    }

    /// Makes the box again.
    pub(crate) fn into_box(self) -> Box<Tree>
        ensures { result.value ≡ self.tree }
    {
        self.into_parts().into_box()
    }

    /// Makes a handle of a box's parts.
    fn from_parts(parts: BoxParts<Tree, Global>) -> ArtMap
        ensures { result.tree ≡ parts.value }
    {
        let BoxParts { ptr, alloc } = parts;
        ArtMap {
            at: ptr as *mut Opaque,
            alloc,
        }
    }

    /// Returns the parts of the box that the handle was made of.
    fn into_parts(self) -> BoxParts<Tree, Global>
        ensures { result.value ≡ self.tree }
    {
        let ArtMap { at, alloc } = self;
        BoxParts {
            ptr: at as *mut Tree,
            alloc,
        }
    }

    /// Returns the tree, by a mutable reference.
    pub(crate) fn tree(&mut self) -> &mut Tree
        ensures* writes_back { sem 𝓛 (LendsTree self.entry result) }
        ensures value { result.now ≡ self.old.tree }
    {
        unsafe { &mut *(self.at as *mut Tree) }
    }
}

impl Drop for ArtMap {
    fn drop(self) {
        drop(self.into_box());
    }
}
