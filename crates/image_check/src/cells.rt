//! The cells.

ghost use Rattle.std.specs.Prelude.{◌≡◌, [], true};
ghost use Rattle.model_values.specs.Cells.{cell_size};
ghost use Rattle.cps_code.specs.Script.{IsScript, script_of};
ghost use Rattle.script_names.specs.Given.{given_of};
ghost use Rattle.image_check.specs.Cells.{are_there, cell_fault, cells_fault, entries_there, has_closure, is_closure_at, is_short, is_there, names_there, sees_names};

use crate::scan::{Check, first_in, need, outside};
use crate::sizes::are_small;
use crate::{CheckKind, Finding};
use cps_code::Code;
use model_syntax::NodeForm;
use model_values::{Cell, Entries, Value};
use script_names::{GivenNames, are_variables};

/// A script, the names that its nodes are given, and the cells.
#[derive(Drop)]
pub(crate) struct CellsAround<'a> {
    pub(crate) code: &'a Code,
    pub(crate) names: &'a GivenNames,
    pub(crate) cells: &'a [Cell],
}

/// The first fault of the cells.
pub(crate) fn cells_fault(around: &CellsAround<'_>) -> Option<Finding>
    requires script { IsScript (script_of around.now.code.now) }
    requires given { around.now.names.now ≡ given_of [] (script_of around.now.code.now) }
    ensures { result ≡ cells_fault (script_of around.now.code.now) around.now.cells.now }
{
    let few = need(
        around.cells.len() < 4294967296,
        outside(CheckKind::MissingCell),
    );
    if few.is_some() {
        return few;
    }
    let found = first_in::<CellsAround<'_>, Cell, CellCheck>(around, around.cells);
    if found.is_some() {
        return found;
    }
    need(are_small(around.cells), outside(CheckKind::Values))
}

struct CellCheck;

impl<'a> Check<CellsAround<'a>, Cell> for CellCheck {
    ghost known = { λ a. IsScript (script_of a.code.now) × (a.names.now ≡ given_of [] (script_of a.code.now)) };

    ghost fault = { λ a. cell_fault (script_of a.code.now) a.cells.now };

    fn fault_of(
        around: &CellsAround<'a>,
        _place: usize,
        _before: Option<&Cell>,
        item: &Cell,
    ) -> Option<Finding> {
        if !has_closure(around.code, item) {
            return Some(outside(CheckKind::Node));
        }
        if !is_short(item) {
            return Some(outside(CheckKind::Values));
        }
        if !names_there(around.cells, item) {
            return Some(outside(CheckKind::MissingCell));
        }
        need(
            sees_names(around.code, around.names, item),
            outside(CheckKind::Name),
        )
    }
}

/// Whether the node of a closure is a closure of the script.
fn has_closure(code: &Code, cell: &Cell) -> bool
    ensures { result ≡ has_closure (script_of code.now) cell.now }
{
    match cell {
        Cell::Closure { node, .. } => is_closure_at(code, *node),
        _ => true,
    }
}

/// Whether this is the number of a closure of the script.
fn is_closure_at(code: &Code, node: u32) -> bool
    ensures { result ≡ is_closure_at (script_of code.now) node }
{
    node < code.len() && matches!(code.kind(node), NodeForm::Closure(_))
}

/// Whether a cell holds fewer than 2,147,483,648 bytes of text or entries.
fn is_short(cell: &Cell) -> bool
    ensures { result ≡ is_short cell.now }
{
    size_of(cell) < 2147483648
}

/// How many bytes of text or entries a cell holds.
fn size_of(cell: &Cell) -> usize
    ensures { result ≡ cell_size cell.now }
{
    match cell {
        Cell::Variable(_) => 0,
        Cell::Text(text) => text.len(),
        Cell::List(values) => values.len(),
        Cell::Map(entries) => entries.len(),
        Cell::Closure { .. } => 0,
        Cell::Thrown { message, .. } => match message {
            None => 0,
            Some(text) => text.len(),
        },
    }
}

/// Whether the cells that a cell names are there, and those of a closure's names are variables.
fn names_there(cells: &[Cell], cell: &Cell) -> bool
    ensures { result ≡ names_there cells.now cell.now }
{
    match cell {
        Cell::Variable(value) => is_there(cells, value),
        Cell::List(values) => are_there(cells, values.as_slice()),
        Cell::Map(entries) => entries_there(cells, entries),
        Cell::Closure { env, .. } => are_variables(cells, env),
        Cell::Text(_) => true,
        Cell::Thrown { .. } => true,
    }
}

/// Whether the cell that a value names is there.
pub(crate) fn is_there(cells: &[Cell], value: &Value) -> bool
    ensures { result ≡ is_there cells.now value.now }
{
    match value {
        Value::Cell(cell) => (*cell as usize) < cells.len(),
        _ => true,
    }
}

fn are_there(cells: &[Cell], values: &[Value]) -> bool
    ensures { result ≡ are_there cells.now values.now }
{
    for value in values {
        if !is_there(cells, value) {
            return false;
        }
    }
    true
}

fn entries_there(cells: &[Cell], entries: &Entries) -> bool
    ensures { result ≡ entries_there cells.now entries.now }
{
    for at in 0..entries.len() {
        if let Some((_, value)) = entries.entry_at(at) {
            if !is_there(cells, value) {
                return false;
            }
        }
    }
    true
}

/// Whether a closure has the names that its node sees.
fn sees_names(code: &Code, names: &GivenNames, cell: &Cell) -> bool
    requires script { IsScript (script_of code.now) }
    requires given { names.now ≡ given_of [] (script_of code.now) }
    requires closure { has_closure (script_of code.now) cell.now ≡ true }
    ensures { result ≡ sees_names (script_of code.now) cell.now }
{
    match cell {
        Cell::Closure { node, env } => names.are_seen(code, *node, env),
        _ => true,
    }
}
