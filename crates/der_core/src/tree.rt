//! Elements as trees.

ghost use Rattle.std.specs.Prelude.{◌≡◌, ◌++◌, ◌∷◌, [], IfOk, OnOk, OnErr};
ghost use Rattle.std.specs.Option.{option_copied};
ghost use Rattle.der_core.specs.DerElement.{Primitive, Constructed, row, tag_of, content_of, kids_of};

use crate::octets::Octets;
use std::alloc::{AllocError, AllocFailed, Global};
use std::marker::Model;

/// How many levels an element may have.
pub const MAX_NESTING: u8 = 64;

/// One element (X.690 8.1.1): a leaf with a tag and contents octets, or a branch with a tag and
/// kids.
#[cycle(tree)]
#[derive(Debug, Drop)]
pub struct Tree {
    pub(crate) form: Form,
}

#[cycle(tree)]
#[derive(Debug, Drop)]
pub(crate) enum Form {
    Primitive(u8, Octets),
    Constructed(u8, Vec<Tree>),
}

impl Model for Tree {
    ghost use Rattle.der_core.specs.DerElement.{DerElement, element_count};
    ghost use Rattle.der_core.specs.Facts.Codes.{coded_element};

    ghost Value = { DerElement };

    ghost coded = { coded_element };

    ghost use Rattle.der_core.specs.TreeView.{element_of};

    ghost view = { λ t. element_of t.form };

    ghost size = { element_count };

    ghost use Rattle.der_core.specs.Facts.TreeFalls.{kids_are_fewer};

    ghost size_decreases = { λ a h. kids_are_fewer a.form };
}

impl Tree {
    /// The primitive element with this tag and these contents octets.
    pub fn leaf(tag: u8, content: Octets) -> Tree
        ensures { result ≡ Primitive tag content }
    {
        Tree {
            form: Form::Primitive(tag, content),
        }
    }

    /// The constructed element with this tag and these elements in it.
    pub fn branch(tag: u8, kids: Trees) -> Tree
        ensures { result ≡ Constructed tag (row kids) }
    {
        Tree {
            form: Form::Constructed(tag, kids.items),
        }
    }

    /// The identifier octet.
    pub fn tag(&self) -> u8
        ensures { result ≡ tag_of self.now }
    {
        match &self.form {
            Form::Primitive(tag, _) | Form::Constructed(tag, _) => *tag,
        }
    }

    /// The contents octets, `None` exactly for a branch.
    pub fn content(&self) -> Option<&[u8]>
        ensures { option_copied result ≡ content_of self.now }
    {
        match &self.form {
            Form::Primitive(_, content) => Some(content.as_slice()),
            Form::Constructed(_, _) => None,
        }
    }

    /// The elements in a branch, in order, `None` exactly for a leaf.
    #[tactic(auto, using(crate::specs::Facts::Rows::kid_lists))]
    pub fn kids(&self) -> Option<&[Tree]>
        ensures { option_copied result ≡ kids_of self.now }
    {
        match &self.form {
            Form::Primitive(_, _) => None,
            Form::Constructed(_, kids) => Some(kids.as_slice()),
        }
    }

    /// A copy of the tree.
    pub fn try_clone(&self, alloc: Global) -> Result<Tree, AllocError>
        ensures { IfOk result (λ copy. copy ≡ self.now) }
    {
        copy_of(alloc, self)
    }
}

#[cycle(copying)]
fn copy_of(alloc: Global, tree: &Tree) -> Result<Tree, AllocError>
    ensures { IfOk result (λ copy. copy ≡ tree.now) }
{
    match &tree.form {
        Form::Primitive(tag, content) => Ok(Tree::leaf(*tag, content.try_clone(alloc)?)),
        Form::Constructed(tag, kids) => Ok(Tree::branch(*tag, copies_of(alloc, kids)?)),
    }
}

/// A copy of each tree.
#[cycle(copying)]
fn copies_of(alloc: Global, kids: &[Tree]) -> Result<Trees, AllocError>
    ensures { IfOk result (λ copies. copies ≡ kids.now) }
{
    let mut copies = Trees::new(alloc);
    for kid in kids {
        copies.push(copy_of(alloc, kid)?)?;
    }
    Ok(copies)
}

/// Trees in order. Contracts see the list of them.
#[derive(Debug, Drop)]
pub struct Trees {
    items: Vec<Tree>,
}

impl Model for Trees {
    ghost use Rattle.std.specs.Prelude.{List};
    ghost use Rattle.std.specs.Coded.{coded_list};
    ghost use Rattle.der_core.specs.DerElement.{DerElement};
    ghost use Rattle.der_core.specs.Facts.Codes.{coded_element};

    ghost Value = { List DerElement };

    ghost coded = { coded_list coded_element };

    ghost view = { λ t. t.items.items };
}

impl Trees {
    /// An empty list.
    pub fn new(alloc: Global) -> Trees
        ensures { result ≡ [] }
    {
        Trees {
            items: Vec::new(alloc),
        }
    }

    /// Appends a tree.
    pub fn push(&mut self, item: Tree) -> Result<(), AllocError>
        ensures ok { OnOk result (self.new ≡ self.old ++ item ∷ []) }
        ensures err { OnErr result (self.new ≡ self.old) }
    {
        self.items.push(item)?;
        Ok(())
    }

    /// The trees in order.
    pub fn as_slice(&self) -> &[Tree]
        ensures { result.now ≡ self.now }
    {
        &self.items
    }

    /// A copy of the list.
    pub fn try_clone(&self, alloc: Global) -> Result<Trees, AllocError>
        ensures { IfOk result (λ copy. copy ≡ self.now) }
    {
        copies_of(alloc, self.as_slice())
    }
}
