ghost use Rattle.std.specs.Prelude.{◌≡◌, true, false, OnOk};
ghost use Rattle.scope_check.specs.Walk.{start, open_scope, close_scope, declare_name, declare_it, declare_function, need_loop, note_fault};
ghost use Rattle.model_syntax.specs.Scopes.{fault_at};

use crate::names::Names;
use crate::stack::Stack;
use model_syntax::{Declared, FaultKind, Place, ScriptFault};
use model_text::Text;
use std::alloc::{AllocError, Global};
use std::mem;

/// A scope: the names that are declared in it so far, and whether it lies in a loop of its function or closure.
#[derive(Drop)]
pub struct Scope {
    pub names: Names,
    pub in_loop: bool,
}

/// Where a walk through a script stands: the functions so far, the innermost scope, those around it from within, and
/// the first fault, if one was met.
#[derive(Drop)]
pub struct Scopes {
    pub alloc: Global,
    pub functions: Names,
    pub inner: Scope,
    pub outer: Stack<Scope>,
    pub fault: Option<ScriptFault>,
}

impl Scopes {
    /// The begin of a script: no functions, and one scope without names, in no loop.
    pub fn new(alloc: Global) -> Scopes
        ensures { result ≡ start alloc }
    {
        Scopes {
            alloc,
            functions: Names::new(alloc),
            inner: Scope {
                names: Names::new(alloc),
                in_loop: false,
            },
            outer: Stack::new(alloc),
            fault: None,
        }
    }

    /// A scope begins, in a loop or not. `AllocError` where the memory was refused.
    pub fn open(&mut self, in_loop: bool) -> Result<(), AllocError>
        ensures { OnOk result (self.new ≡ open_scope in_loop self.old) }
    {
        let inner = Scope {
            names: Names::new(self.alloc),
            in_loop,
        };
        let around = mem::replace(&mut self.inner, inner);
        self.outer.push(around)
    }

    /// The innermost scope ends.
    pub fn close(&mut self)
        ensures { self.new ≡ close_scope self.old }
    {
        if let Some(around) = self.outer.pop() {
            self.inner = around;
        }
    }

    /// A name is declared. `AllocError` where the memory was refused.
    pub fn declare(&mut self, name: &Declared) -> Result<(), AllocError>
        ensures { OnOk result (self.new ≡ declare_name name.now self.old) }
    {
        let is_new = self.inner.names.add(&name.name)?;
        if !is_new {
            self.note(name.place, FaultKind::NameAlreadyDeclared);
        }
        Ok(())
    }

    /// The parameter `it` of a closure without heads, whose scope has just begun. `AllocError` where the memory was refused.
    pub fn declare_it(&mut self) -> Result<(), AllocError>
        ensures { OnOk result (self.new ≡ declare_it self.old) }
    {
        let name = Text::from_str(self.alloc, "it")?;
        self.inner.names.add(&name)?;
        Ok(())
    }

    /// A function is declared. `AllocError` where the memory was refused.
    pub fn declare_function(&mut self, name: &Declared) -> Result<(), AllocError>
        ensures { OnOk result (self.new ≡ declare_function name.now self.old) }
    {
        let is_new = self.functions.add(&name.name)?;
        if !is_new {
            self.note(name.place, FaultKind::FunctionAlreadyDeclared);
        }
        Ok(())
    }

    /// A word stands here that needs a loop around it.
    pub fn need_loop(&mut self, kind: FaultKind, place: Place)
        ensures { self.new ≡ need_loop kind place self.old }
    {
        if !self.inner.in_loop {
            self.note(place, kind);
        }
    }

    /// A fault is met: it is kept where it is the first.
    fn note(&mut self, place: Place, kind: FaultKind)
        ensures { self.new ≡ note_fault (fault_at place kind) self.old }
    {
        if self.fault.is_none() {
            self.fault = Some(ScriptFault {
                line: place.line,
                column: place.column,
                kind,
            });
        }
    }
}
