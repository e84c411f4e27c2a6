//! The numbered nodes of a script.

ghost use Rattle.std.specs.Prelude.{◌≡◌, ◌<◌, length, IfOk, IfSome};
ghost use Rattle.std.specs.Option.{option_map};
ghost use Rattle.model_syntax.specs.TreeNodes.{tree_node};
ghost use Rattle.model_run.specs.Callables.{function_in};
ghost use Rattle.model_run.specs.Terms.{Found, term, nodes_of, term_at, form_of, part_of, parts_of};
ghost use Rattle.cps_code.specs.Functions.{function_at};
ghost use Rattle.cps_code.specs.Rows.{part_count, part_number, rows_of};
ghost use Rattle.cps_code.specs.Script.{IsScript, script_of};

use crate::functions::functions_of;
use crate::row::Row;
use crate::walk::rows_of_tree;
use model_syntax::{NodeForm, Tree};
use model_text::Text;
use std::alloc::{AllocError, Global};
use std::collections::BTreeMap;
use std::marker::Model;

/// The syntax of a script: its nodes by their numbers. A contract sees the rows of the nodes, which are those of one
/// script (`script_of`), and that script is the term of some tree (`IsScript`), also where the tree is long gone.
#[derive(Drop)]
pub struct Code {
    rows: Vec<Row>,
    /// The nodes of the functions, by their names. Of functions of one name it is the first.
    functions: BTreeMap<Text, u32>,
}

impl Model for Code {
    ghost use Rattle.std.specs.Prelude.{List};
    ghost use Rattle.cps_code.specs.declared.row.Row.{Row};

    ghost Value = { List Row };

    ghost use Rattle.cps_code.specs.CodeKept.{IsKept};

    ghost view = { λ code. code.rows.items };

    ghost invariant = { IsKept };
}

impl Code {
    /// How many nodes there are. Their numbers are those below it.
    pub fn len(&self) -> u32
        ensures len { result ≡ length (nodes_of (script_of self.now)) }
        ensures found { Found (script_of self.now) (script_of self.now) }
        ensures script { IsScript (script_of self.now) }
    {
        self.rows.len() as u32
    }

    /// The rule or operator of the node with this number, with its name, text or number.
    pub fn kind(&self, node: u32) -> &NodeForm
        requires { node < length (nodes_of (script_of self.now)) }
        ensures { result.now ≡ form_of (term_at (script_of self.now) node) }
    {
        &self.rows[node as usize].form
    }

    /// How many parts this node has, in constant time.
    pub fn parts(&self, node: u32) -> u32
        requires { node < length (nodes_of (script_of self.now)) }
        ensures { result ≡ part_count (script_of self.now) node }
    {
        self.rows[node as usize].parts.len() as u32
    }

    /// The number of a part of this node, counted from 0 in the order of the script, and `None` exactly where the node
    /// has no such part.
    pub fn part(&self, node: u32, at: u32) -> Option<u32>
        requires { node < length (nodes_of (script_of self.now)) }
        ensures number { result ≡ part_number (script_of self.now) node at }
        ensures found { IfSome result (λ number. term_at (script_of self.now) number ≡ part_of (script_of self.now) (term_at (script_of self.now) node) at) }
        ensures behind { IfSome result (λ number. (node < number) × (number < length (nodes_of (script_of self.now)))) }
    {
        self.rows[node as usize].parts.get(at as usize).copied()
    }

    /// The number of the node of the function of this name, and `None` exactly where there is none: functions stand at the top of a
    /// script. It takes time logarithmic in the number of functions.
    pub fn function(&self, name: &Text) -> Option<u32>
        ensures { option_map function_at result ≡ function_in name.now (parts_of (script_of self.now)) }
    {
        self.functions.get(name).copied()
    }
}

/// Numbers the nodes of a tree, in time and memory linear in the tree, but for its functions: to find them by their names takes
/// a time logarithmic in their number for each. A script of 1,048,576 bytes has functions of at most 87,668 names, since
/// `def f(){}` is the shortest and a byte parts two; a name is put into their search tree by at most 90 comparisons, 15 on
/// each of at most 6 levels, and so for such a script this is a constant times its bytes, too. A tree of any size will do that
/// `parse` gives; it may be as deep as the stack allows, and brackets of a script nest at most 128 deep.
///
/// Each node is found by its number (`found`), and so the numbers of its parts find its parts.
///
/// # Errors
///
/// `AllocError` where the memory was refused, and where the tree has more than 4,294,967,295 nodes, which no script of
/// 1,048,576 bytes has.
pub fn number(alloc: Global, tree: Tree) -> Result<Code, AllocError>
    ensures rows { IfOk result (λ code. code ≡ rows_of (term 0 (tree_node tree))) }
    ensures script { IfOk result (λ code. script_of code ≡ term 0 (tree_node tree)) }
    ensures found { IfOk result (λ code. Found (script_of code) (script_of code)) }
{
    let rows = rows_of_tree(alloc, &tree)?;
    let functions = functions_of(alloc, rows.as_slice())?;
    Ok(Code { rows, functions })
}
