//! What each node is given.

ghost use Rattle.std.specs.Prelude.{◌≡◌, ◌<◌, ◌++◌, [], length, true, get_or, reverse, IfOk, OnOk};
ghost use Rattle.std.specs.Option.{option_copied};
ghost use Rattle.model_run.specs.FrameTable.{is_block};
ghost use Rattle.model_run.specs.Nesting.{shape_at};
ghost use Rattle.model_run.specs.Scoping.{Names, names_after, names_around, names_at, names_behind, names_of, names_within};
ghost use Rattle.model_run.specs.Terms.{nodes_of, term_at};
ghost use Rattle.cps_code.specs.Rows.{part_count};
ghost use Rattle.cps_code.specs.Script.{IsScript, script_of};
ghost use Rattle.script_names.specs.Given.{are_named, declared, given_of, with_name};

use chain::Chain;
use cps_code::Code;
use model_syntax::NodeForm;
use model_text::Text;
use model_values::Env;
use std::alloc::{AllocError, Global};
use std::marker::Model;

/// Names, the innermost first.
type Names = Chain<Text>;

/// The names that each node of a script is given by what stands around it: those that it sees, but for functions, which see
/// nothing of what was declared around them.
///
/// A contract sees the list of the names, in the order of the nodes.
#[derive(Drop)]
pub struct GivenNames {
    given: Vec<Names>,
}

impl Model for GivenNames {
    ghost use Rattle.std.specs.Prelude.{List};
    ghost use Rattle.model_run.specs.Scoping.{Names};

    ghost Value = { List Names };

    ghost view = { λ names. names.given.items };
}

/// The names that each node of a script is given. It goes over the script once, and as deep as its nodes stand inside one
/// another.
///
/// # Errors
///
/// `AllocError` comes only where the memory was refused.
pub fn given_names(alloc: Global, code: &Code) -> Result<GivenNames, AllocError>
    ensures given { IfOk result (λ names. names ≡ given_of [] (script_of code.now)) }
    ensures script { IfOk result (λ _. IsScript (script_of code.now)) }
{
    let mut given = Vec::with_capacity(alloc, code.len() as usize)?;
    give(code, 0, Names::new(alloc), &mut given)?;
    Ok(GivenNames { given })
}

/// What a node and all nodes within it are given, where it is given these names.
fn give(code: &Code, node: u32, names: Names, given: &mut Vec<Names>) -> Result<(), AllocError>
    requires { node < length (nodes_of (script_of code.now)) }
    ensures { OnOk result (given.new.items ≡ given.old.items ++ given_of names (term_at (script_of code.now) node)) }
{
    given.push(names.clone()?)?;
    let alloc = *given.allocator();
    let mut seen = around(alloc, code.kind(node), names);
    for at in 0..code.parts(node) {
        if let Some(part) = code.part(node, at) {
            let inner = within(alloc, code.kind(node), at, &seen)?;
            give(code, part, inner, given)?;
            seen = behind(code.kind(part), seen)?;
        }
    }
    Ok(())
}

/// What a node of this form sees of the names that it is given.
fn around(alloc: Global, form: &NodeForm, names: Names) -> Names
    ensures { result ≡ names_around form.now names }
{
    match form {
        NodeForm::Function(_, _) => Names::new(alloc),
        _ => names,
    }
}

/// What a node of this form that sees these names gives its part at this place.
fn within(alloc: Global, form: &NodeForm, at: u32, seen: &Names) -> Result<Names, AllocError>
    ensures { IfOk result (λ names. names ≡ names_within form.now at seen.now) }
{
    let seen = seen.clone()?;
    match form {
        NodeForm::Closure(None) => seen.with(Text::from_str(alloc, "it")?),
        NodeForm::Closure(Some(names)) => with_all(seen, names.as_slice()),
        NodeForm::Function(_, names) => with_all(seen, names.as_slice()),
        NodeForm::ForEach(name) if at > 0 => seen.with(name.clone()?),
        NodeForm::Catch(_, name) => seen.with(name.clone()?),
        _ => Ok(seen),
    }
}

/// These names in front of others, the last of them innermost.
fn with_all(mut names: Names, more: &[Text]) -> Result<Names, AllocError>
    ensures { IfOk result (λ all. all ≡ reverse more.now ++ names) }
{
    for name in more {
        names = names.with(name.clone()?)?;
    }
    Ok(names)
}

/// What is seen behind a node of this form.
fn behind(form: &NodeForm, names: Names) -> Result<Names, AllocError>
    ensures { IfOk result (λ behind. behind ≡ names_behind form.now names) }
{
    match form {
        NodeForm::Declare(name) => names.with(name.clone()?),
        _ => Ok(names),
    }
}

impl GivenNames {
    /// Whether these variables have just the names that a node sees, in their order. It takes no memory.
    pub fn are_seen(&self, code: &Code, node: u32, env: &Env) -> bool
        requires script { IsScript (script_of code.now) }
        requires given { self.now ≡ given_of [] (script_of code.now) }
        requires node { node < length (nodes_of (script_of code.now)) }
        ensures { result ≡ are_named (names_at (script_of code.now) node) env.now }
    {
        match code.kind(node) {
            NodeForm::Function(_, _) => {
                let nothing = Names::new(*self.given.allocator());
                are_named(&nothing, env)
            }
            _ => self.are_given(node, env),
        }
    }

    /// Whether these variables have just the names that are seen behind so many parts of statements in a row, of which some
    /// follow. It takes no memory.
    pub fn are_seen_at(&self, code: &Code, node: u32, at: u32, env: &Env) -> bool
        requires script { IsScript (script_of code.now) }
        requires given { self.now ≡ given_of [] (script_of code.now) }
        requires node { node < length (nodes_of (script_of code.now)) }
        requires block { is_block (shape_at (script_of code.now) node).form ≡ true }
        requires part { at < part_count (script_of code.now) node }
        ensures { result ≡ are_named (names_after (shape_at (script_of code.now) node).parts at (names_at (script_of code.now) node)) env.now }
    {
        match code.part(node, at) {
            Some(part) => self.are_given(part, env),
            None => false,
        }
    }

    /// Whether these variables have just the names that are seen behind the first part of a node. It takes no memory.
    pub fn are_seen_behind_first(&self, code: &Code, node: u32, env: &Env) -> bool
        requires script { IsScript (script_of code.now) }
        requires given { self.now ≡ given_of [] (script_of code.now) }
        requires node { node < length (nodes_of (script_of code.now)) }
        ensures { result ≡ are_named (names_after (shape_at (script_of code.now) node).parts 1 (names_at (script_of code.now) node)) env.now }
    {
        let Some(name) = first_declared(code, node) else {
            return self.are_seen(code, node, env);
        };
        match env.split() {
            Some((binding, behind)) => binding.name == *name && self.are_seen(code, node, behind),
            None => false,
        }
    }

    /// Whether these variables have just the names that a node is given.
    fn are_given(&self, node: u32, env: &Env) -> bool
        requires { node < length self.now }
        ensures { result ≡ are_named (get_or self.now node []) env.now }
    {
        are_named(&self.given[node as usize], env)
    }
}

/// The name that the first part of a node declares.
fn first_declared<'a>(code: &'a Code, node: u32) -> Option<&'a Text>
    requires { node < length (nodes_of (script_of code.now)) }
    ensures { (names : Names) → names_after (shape_at (script_of code.now) node).parts 1 names ≡ with_name (option_copied result) names }
{
    match code.part(node, 0) {
        Some(part) => declared(code.kind(part)),
        None => None,
    }
}

/// The name that a node of this form declares.
fn declared(form: &NodeForm) -> Option<&Text>
    ensures { option_copied result ≡ declared form.now }
{
    match form {
        NodeForm::Declare(name) => Some(name),
        _ => None,
    }
}

/// Whether variables have just these names, in their order.
fn are_named(names: &Names, env: &Env) -> bool
    ensures { result ≡ are_named names.now env.now }
{
    let mut left = names;
    let mut right = env;
    while let (Some((name, more)), Some((binding, behind))) = (left.split(), right.split()) {
        if *name != binding.name {
            return false;
        }
        left = more;
        right = behind;
    }
    left.is_empty() && right.is_empty()
}
