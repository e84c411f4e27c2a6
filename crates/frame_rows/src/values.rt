//! The values that a frame keeps, against its row.

ghost use Rattle.std.specs.Prelude.{◌≡◌, ◌+◌, ◌++◌, map, drop, length, slice_get};
ghost use Rattle.std.specs.Option.{option_copied};
ghost use Rattle.frame_rows.specs.Rows.{further_seen, row_seen, sort_seen};
ghost use Rattle.frame_rows.specs.Values.{all_there, further_fit, at_most, cell_in, is_node, is_there, natural_in, value_fits, values_fit};

use crate::{Further, Row, Sort};
use model_values::{Cell, Value};

/// Whether the values are those that a row lists, among these cells and so many flow nodes: a value of each sort in turn,
/// and then as many as may follow. It takes no memory, and time linear in the number of the values.
pub fn values_fit(cells: &[Cell], nodes: usize, row: &Row, values: &[Value]) -> bool
    ensures { result ≡ values_fit cells.now nodes (row_seen row.now).further (row_seen row.now).values values.now }
{
    if values.len() < row.any {
        return false;
    }
    let (first, others) = values.split_at(row.any);
    all_there(cells, first) && sorted_fit(cells, nodes, row.further, row.sorts, others)
}

/// Whether the cells that these values name are there.
fn all_there(cells: &[Cell], values: &[Value]) -> bool
    ensures { result ≡ all_there cells.now values.now }
{
    for value in values {
        if !is_there(cells, value) {
            return false;
        }
    }
    true
}

/// Whether there is a value of each of these sorts in turn, and as many behind them as may follow.
fn sorted_fit(
    cells: &[Cell],
    nodes: usize,
    further: Further,
    sorts: &[Sort],
    values: &[Value],
) -> bool
    ensures { result ≡ values_fit cells.now nodes (further_seen further) (map sort_seen sorts.now) values.now }
{
    match sorts {
        [] => further_fit(cells, further, values),
        [sort, sorts @ ..] => match values {
            [] => false,
            [value, values @ ..] => {
                value_fits(cells, nodes, *sort, value)
                    && sorted_fit(cells, nodes, further, sorts, values)
            }
        },
    }
}

/// Whether these further values may follow.
fn further_fit(cells: &[Cell], further: Further, values: &[Value]) -> bool
    ensures { result ≡ further_fit cells.now (further_seen further) values.now }
{
    match further {
        Further::None => values.is_empty(),
        Further::One => match values {
            [] => true,
            [value] => is_there(cells, value),
            _ => false,
        },
        Further::Many => all_there(cells, values),
    }
}

/// Whether a value is of a sort, among these cells and so many flow nodes.
pub fn value_fits(cells: &[Cell], nodes: usize, sort: Sort, value: &Value) -> bool
    ensures { result ≡ value_fits cells.now nodes (sort_seen sort) value.now }
{
    match sort {
        Sort::Any => is_there(cells, value),
        Sort::UpTo(most) => at_most(most, natural_in(value)),
        Sort::Count => natural_in(value).is_some(),
        Sort::Flag => matches!(value, Value::Bool(_)),
        Sort::FlowNode => is_node(nodes, natural_in(value)),
        Sort::Closure => matches!(cell_in(cells, value), Some(Cell::Closure { .. })),
        Sort::Throwable => matches!(cell_in(cells, value), Some(Cell::Thrown { .. })),
        Sort::TextOrNull => {
            matches!(value, Value::Null) || matches!(cell_in(cells, value), Some(Cell::Text(_)))
        }
    }
}

/// Whether the cell that a value names is there.
fn is_there(cells: &[Cell], value: &Value) -> bool
    ensures { result ≡ is_there cells.now value.now }
{
    match value {
        Value::Cell(cell) => (*cell as usize) < cells.len(),
        _ => true,
    }
}

/// The cell that a value names, where it names one that is there.
fn cell_in<'a>(cells: &'a [Cell], value: &Value) -> Option<&'a Cell>
    ensures { option_copied result ≡ cell_in cells.now value.now }
{
    match value {
        Value::Cell(cell) => cells.get(*cell as usize),
        _ => None,
    }
}

/// The whole number from 0 on that a value is.
fn natural_in(value: &Value) -> Option<u32>
    ensures { result ≡ natural_in value.now }
{
    match value {
        Value::Int(number) if *number >= 0 => Some(*number as u32),
        _ => None,
    }
}

/// Whether there is a number, of at most this.
fn at_most(most: u32, number: Option<u32>) -> bool
    ensures { result ≡ at_most most number }
{
    match number {
        None => false,
        Some(number) => !(most < number),
    }
}

/// Whether there is a number, and it is that of a flow node: they are numbered from 2.
fn is_node(nodes: usize, number: Option<u32>) -> bool
    ensures { result ≡ is_node nodes number }
{
    match number {
        None => false,
        Some(number) => 1 < number && (number as usize - 2) < nodes,
    }
}
