//! Trees are checked.

ghost use Rattle.std.specs.Prelude.{◌≡◌, ◌∷◌, [], IfOk, OnOk};
ghost use Rattle.ev_reader.specs.Scopes.{first_fault, started, with_given};
ghost use Rattle.ev_reader.specs.Answers.{Answers};

use crate::accepted::Scoped;
use crate::scan::{Scan, Scopes};
use crate::scope::Scope;
use crate::scope_fault::ScopeFault;
use crate::task::{Task, Tasks};
use crate::visits::act;
use def_kernel::{Kernel, Node};
use ev_base::{Memory, NodeId, Seq, Str};
use std::alloc::Global;

/// The scope of the given names.
fn given_scope(alloc: Global, given: &[Str]) -> Result<Scope, Memory>
    ensures { IfOk result (λ scope. scope ≡ with_given given.now []) }
{
    let mut scope = Scope::new(alloc);
    for name in given {
        scope.bind(alloc, name.as_str(), false)?;
    }
    Ok(scope)
}

/// The scopes round the root of a program.
fn start(alloc: Global, given: &[Str]) -> Result<Scan, Memory>
    ensures { IfOk result (λ scan. scan ≡ started given.now) }
{
    let mut scopes = Scopes::new(alloc);
    scopes.push(given_scope(alloc, given)?)?;
    scopes.push(Scope::new(alloc))?;
    Ok(Scan {
        scopes,
        fault: None,
    })
}

/// A copy of names.
fn copy_names(alloc: Global, names: &[Str]) -> Result<Seq<Str>, Memory>
    ensures { IfOk result (λ copy. copy ≡ names.now) }
{
    let mut copy = Seq::new(alloc);
    for name in names {
        copy.push(Str::copy_of(alloc, name.as_str())?)?;
    }
    Ok(copy)
}

/// The first fault of a tree, or none.
#[tactic(auto, using(crate::proofs::TaskLemmas::ends_here))]
fn first_fault(alloc: Global, nodes: &[Node], given: &[Str]) -> Result<Option<ScopeFault>, Memory>
    ensures { IfOk result (λ fault. fault ≡ first_fault nodes.now given.now) }
{
    let mut scan = start(alloc, given)?;
    let mut tasks = Tasks::new(alloc);
    tasks.push(Task::Visit(NodeId(0), nodes.len()))?;
    while let Some(task) = tasks.pop() {
        act(nodes, alloc, task, &mut tasks, &mut scan)?;
    }
    Ok(scan.fault)
}

/// Checks that each noun of a tree is bound once in its scope or given, and that only names of `var` patterns are
/// assigned. The fault of the node that begins first is answered.
pub fn check(alloc: Global, tree: Kernel, given: &Seq<Str>) -> Result<Scoped, ScopeFault>
    ensures { Answers result tree given.now }
{
    let names = copy_names(alloc, given.as_slice())?;
    match first_fault(alloc, tree.nodes(), given.as_slice())? {
        Some(fault) => Err(fault),
        None => Ok(Scoped::of(tree, names)),
    }
}
