//! A tree whose names are rightly bound.

ghost use Rattle.std.specs.Prelude.{◌≡◌, None};
ghost use Rattle.ev_reader.specs.Scopes.{first_fault};

use def_kernel::Kernel;
use ev_base::{Seq, Str};

/// A tree in which each noun is bound once in its scope or given, and only a name of a `var` pattern is assigned. It keeps
/// the given names under which it was checked. `check` alone makes one.
#[derive(Drop)]
pub struct Scoped {
    tree: Kernel,
    given: Seq<Str>,
    pub ghost is_scoped: { first_fault tree given ≡ None },
}

impl Scoped {
    /// The tree, once it was found to have no fault.
    pub(crate) fn of(tree: Kernel, given: Seq<Str>) -> Scoped
        requires { first_fault tree given ≡ None }
        ensures tree { result.tree ≡ tree }
        ensures given { result.given ≡ given }
    {
        Scoped { tree, given }
    }

    /// The tree.
    pub fn tree(&self) -> &Kernel
        ensures { result.now ≡ self.now.tree }
    {
        &self.tree
    }

    /// The tree, given back.
    pub fn into_tree(self) -> Kernel
        ensures { result ≡ self.tree }
    {
        let Scoped { tree, given: _ } = self;
        tree
    }

    /// The names under which it was checked.
    pub fn given(&self) -> &Seq<Str>
        ensures { result.now ≡ self.now.given }
    {
        &self.given
    }
}
