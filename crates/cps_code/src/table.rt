//! The rows of a table that is being made.

ghost use Rattle.std.specs.Prelude.{◌≡◌, ◌<◌, ◌^◌, [], ◌∷◌, length, vec_len, IfOk, OnOk};
ghost use Rattle.cps_code.specs.Walk.{new_row, opened};

use crate::row::Row;
use model_syntax::NodeForm;
use model_text::Ids;
use std::alloc::{AllocError, Global};
use std::marker::Model;

/// The rows so far, a row for each node. A contract sees the list of them.
#[derive(Drop)]
pub(crate) struct Table {
    rows: Vec<Row>,
}

impl Model for Table {
    ghost use Rattle.std.specs.Prelude.{◌<◌, ◌^◌, List, vec_len};
    ghost use Rattle.cps_code.specs.declared.row.Row.{Row};

    ghost Value = { List Row };

    ghost view = { λ table. table.rows.items };

    ghost invariant = { λ table. vec_len table.rows < 2 ^ 32 };
}

impl Table {
    /// The row of a script alone. `AllocError` where the memory was refused.
    pub(crate) fn new(alloc: Global, form: NodeForm) -> Result<Table, AllocError>
        ensures { IfOk result (λ table. table ≡ new_row form ∷ []) }
    {
        let mut rows = Vec::new(alloc);
        rows.push(Row {
            form,
            parts: Ids::new(alloc),
        })?;
        Ok(Table { rows })
    }

    /// The allocator of the rows.
    pub(crate) fn alloc(&self) -> Global {
        *self.rows.allocator()
    }

    /// One more row, of a node that is the next part of the node `of`, and its number. `AllocError` where the memory was
    /// refused, and where there are 4,294,967,295 rows.
    pub(crate) fn part(&mut self, of: u32, form: NodeForm) -> Result<u32, AllocError>
        ensures number { IfOk result (λ number. number ≡ length self.old) }
        ensures opened { OnOk result (self.new ≡ opened of form self.old) }
    {
        let alloc = self.alloc();
        if self.rows.len() >= u32::MAX as usize {
            return Err(AllocError);
        }
        let number = self.rows.len() as u32;
        if let Some(row) = self.rows.get_mut(of as usize) {
            row.parts.push(number)?;
        }
        self.rows.push(Row {
            form,
            parts: Ids::new(alloc),
        })?;
        Ok(number)
    }

    /// The rows. It takes no memory.
    pub(crate) fn into_rows(self) -> Vec<Row>
        ensures rows { result.items ≡ self }
        ensures few { vec_len result < 2 ^ 32 }
    {
        let Table { rows } = self;
        rows
    }
}
