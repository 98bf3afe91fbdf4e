//! One scope.

ghost use Rattle.std.specs.Prelude.{◌≡◌, [], None, OnOk};
ghost use Rattle.ev_reader.specs.Scopes.{bound_in, with_name};
ghost use Rattle.ev_reader.specs.Bindings.{bindings};

use ev_base::{Memory, Str};
use indexmap::IndexMap;
use std::alloc::Global;
use std::marker::Model;

/// A name that is bound, and whether a `var` pattern bound it.
#[derive(Drop)]
pub struct Binding {
    pub name: Str,
    pub is_var: bool,
}

/// The names of a scope, each with whether a `var` pattern bound it, in the order in which they were bound. Contracts see
/// them as bindings.
#[derive(Drop)]
pub struct Scope {
    names: IndexMap<String, bool>,
}

impl Model for Scope {
    ghost use Rattle.std.specs.Prelude.{List};
    ghost use Rattle.ev_reader.specs.declared.scope.Binding.{Binding};
    ghost use Rattle.ev_reader.specs.Bindings.{bindings};

    ghost Value = { List Binding };

    ghost view = { λ s. bindings s.names.entries };
}

/// Whether a name is bound, and then whether it may be assigned.
fn find_in(names: &IndexMap<String, bool>, name: &str) -> Option<bool>
    ensures { result ≡ bound_in name.now (bindings names.now.entries) }
{
    names.get(name).copied()
}

/// Binds a name that is not bound.
fn insert_in(
    names: &mut IndexMap<String, bool>,
    alloc: Global,
    name: &str,
    is_var: bool,
) -> Result<(), Memory>
    requires { bound_in name.now (bindings names.old.entries) ≡ None }
    ensures { OnOk result (bindings names.new.entries ≡ with_name name.now is_var (bindings names.old.entries)) }
{
    let key = String::from_str(alloc, name)?;
    let _old = names.insert(key, is_var)?;
    Ok(())
}

impl Scope {
    /// No name.
    pub fn new(alloc: Global) -> Scope
        ensures { result ≡ [] }
    {
        Scope {
            names: IndexMap::new(alloc),
        }
    }

    /// Whether a name is bound here, and then whether it may be assigned.
    pub fn find(&self, name: &str) -> Option<bool>
        ensures { result ≡ bound_in name.now self.now }
    {
        find_in(&self.names, name)
    }

    /// Binds a name, unless it is bound.
    pub fn bind(&mut self, alloc: Global, name: &str, is_var: bool) -> Result<(), Memory>
        ensures { OnOk result (self.new ≡ with_name name.now is_var self.old) }
    {
        match find_in(&self.names, name) {
            Some(_) => Ok(()),
            None => insert_in(&mut self.names, alloc, name, is_var),
        }
    }
}
