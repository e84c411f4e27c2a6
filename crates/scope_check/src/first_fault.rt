ghost use Rattle.std.specs.Prelude.{◌≡◌, None, IfErr, OnOk};
ghost use Rattle.model_syntax.specs.Scopes.{scope_fault};
ghost use Rattle.scope_check.specs.Refusal.{IsRefused};

use crate::scopes::Scopes;
use model_syntax::{ScriptRefusal, Tree};
use std::alloc::Global;

/// Looks for the first scope fault of a script. `Ok` says that it has none.
///
/// A name is declared once in a scope, by `def`, as a parameter, in a `for` head or by a catch. Scopes are the script, a
/// block, a `for` head, a function and a closure, each with its parameters and its statements, and the block of a catch
/// with its name. An inner scope may declare a name anew: this is the product's own rule, where Groovy refuses it.
/// A function is declared once, whatever its parameters, and `break` and `continue` stand in a loop of their own function
/// or closure.
///
/// # Errors
///
/// `Fault` with the first scope fault in the order of the script, exactly where it has one: `name already declared` or
/// `function already declared` at the second name, `break outside a loop` or `continue outside a loop` at the word.
/// `Memory` where the memory was refused. `TooLong` never.
pub fn check(alloc: Global, tree: &Tree) -> Result<(), ScriptRefusal>
    ensures no_fault { OnOk result (scope_fault tree.now ≡ None) }
    ensures first_fault { IfErr result (IsRefused (scope_fault tree.now)) }
{
    let mut scopes = Scopes::new(alloc);
    scopes.tops(tree.tops.as_slice())?;
    match scopes.fault {
        None => Ok(()),
        Some(fault) => Err(ScriptRefusal::Fault(fault)),
    }
}
