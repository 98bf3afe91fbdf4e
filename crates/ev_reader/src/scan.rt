//! The scopes round a node, and what was found.

ghost use Rattle.std.specs.Prelude.{◌≡◌, [], ◌∷◌, drop, reverse, MatchOption, OnOk};
ghost use Rattle.ev_reader.specs.Scopes.{bound, is_bound_here, with_name_here, faulty, uses, assigns, is_clean, binds, enter, leave};

use crate::scope::Scope;
use crate::scope_fault::ScopeFault;
use ev_base::{Memory, NodeId};
use std::alloc::{AllocError, Global};
use std::marker::Model;

/// The scopes round a node. Contracts see the innermost one first.
#[derive(Drop)]
pub struct Scopes {
    scopes: Vec<Scope>,
}

impl Model for Scopes {
    ghost use Rattle.std.specs.Prelude.{List, reverse};
    ghost use Rattle.ev_reader.specs.declared.scope.Binding.{Binding};

    ghost Value = { List (List Binding) };

    ghost view = { λ s. reverse s.scopes.items };
}

/// Whether a name is bound in these scopes, the innermost of which is last, and then whether it may be assigned.
fn find_in(scopes: &[Scope], name: &str) -> Option<bool>
    ensures { result ≡ bound name.now (reverse scopes.now) }
{
    let mut count = scopes.len();
    while count > 0 {
        count -= 1;
        if let Some(is_var) = scopes[count].find(name) {
            return Some(is_var);
        }
    }
    None
}

impl Scopes {
    /// No scope.
    pub fn new(alloc: Global) -> Scopes
        ensures { result ≡ [] }
    {
        Scopes {
            scopes: Vec::new(alloc),
        }
    }

    /// A scope begins inside the others.
    pub fn push(&mut self, scope: Scope) -> Result<(), AllocError>
        ensures { OnOk result (self.new ≡ scope ∷ self.old) }
    {
        self.scopes.push(scope)?;
        Ok(())
    }

    /// The innermost scope ends.
    pub fn pop(&mut self) -> Option<Scope>
        ensures { MatchOption result ((self.old ≡ []) × (self.new ≡ [])) (λ scope. self.old ≡ scope ∷ self.new) }
    {
        self.scopes.pop()
    }

    /// Whether a name is bound, and then whether it may be assigned where it was bound last.
    pub fn find(&self, name: &str) -> Option<bool>
        ensures { result ≡ bound name.now self.now }
    {
        find_in(self.scopes.as_slice(), name)
    }

    /// Whether the innermost scope binds a name.
    pub fn is_bound_here(&self, name: &str) -> bool
        ensures { result ≡ is_bound_here name.now self.now }
    {
        match self.scopes.last() {
            None => false,
            Some(scope) => scope.find(name).is_some(),
        }
    }

    /// Binds a name in the innermost scope, unless it is bound there.
    pub fn bind(&mut self, alloc: Global, name: &str, is_var: bool) -> Result<(), Memory>
        ensures { OnOk result (self.new ≡ with_name_here name.now is_var self.old) }
    {
        match self.pop() {
            None => Ok(()),
            Some(mut scope) => {
                scope.bind(alloc, name, is_var)?;
                self.push(scope)?;
                Ok(())
            }
        }
    }

    /// The innermost scope ends, where there is one.
    pub fn leave(&mut self)
        ensures { self.new ≡ drop 1 self.old }
    {
        let _ended = self.pop();
    }
}

/// The scopes round a node, and the first fault so far.
#[derive(Drop)]
pub struct Scan {
    pub scopes: Scopes,
    pub fault: Option<ScopeFault>,
}

/// Whether no fault was found.
pub(crate) fn is_clean(scan: &Scan) -> bool
    ensures { result ≡ is_clean scan.now }
{
    scan.fault.is_none()
}

/// Notes a fault, unless there was one.
fn note(scan: &mut Scan, fault: ScopeFault)
    ensures { scan.new ≡ faulty fault scan.old }
{
    if scan.fault.is_none() {
        scan.fault = Some(fault);
    }
}

/// A noun is used.
pub(crate) fn use_noun(scan: &mut Scan, id: NodeId, name: &str)
    ensures { scan.new ≡ uses id name.now scan.old }
{
    match scan.scopes.find(name) {
        None => note(scan, ScopeFault::Unbound(id)),
        Some(_) => {}
    }
}

/// A noun is assigned.
pub(crate) fn assign_noun(scan: &mut Scan, id: NodeId, name: &str)
    ensures { scan.new ≡ assigns id name.now scan.old }
{
    match scan.scopes.find(name) {
        None => note(scan, ScopeFault::Unbound(id)),
        Some(true) => {}
        Some(false) => note(scan, ScopeFault::AssignToFinal(id)),
    }
}

/// A pattern ends that binds a name, before which no fault was found or one.
pub(crate) fn bind_noun(
    scan: &mut Scan,
    alloc: Global,
    id: NodeId,
    clean: bool,
    name: &str,
    is_var: bool,
) -> Result<(), Memory>
    ensures { OnOk result (scan.new ≡ binds id clean name.now is_var scan.old) }
{
    if clean && scan.scopes.is_bound_here(name) {
        scan.fault = Some(ScopeFault::BoundTwice(id));
    }
    scan.scopes.bind(alloc, name, is_var)?;
    Ok(())
}

/// A scope begins.
pub(crate) fn enter(scan: &mut Scan, alloc: Global) -> Result<(), Memory>
    ensures { OnOk result (scan.new ≡ enter scan.old) }
{
    scan.scopes.push(Scope::new(alloc))?;
    Ok(())
}

/// The innermost scope ends.
pub(crate) fn leave(scan: &mut Scan)
    ensures { scan.new ≡ leave scan.old }
{
    scan.scopes.leave();
}
