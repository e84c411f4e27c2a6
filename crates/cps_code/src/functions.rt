//! The functions of a script by their names.

ghost use Rattle.std.specs.Prelude.{IfOk};
ghost use Rattle.model_run.specs.Terms.{parts_of};
ghost use Rattle.cps_code.specs.Functions.{HasFunctions};
ghost use Rattle.cps_code.specs.Script.{IsTable, script_of};

use crate::row::Row;
use model_syntax::NodeForm;
use model_text::Text;
use std::alloc::{AllocError, Global};
use std::collections::BTreeMap;

/// The nodes of the functions that stand at the top of a script, by their names. It goes over the parts of the script from the last
/// to the first, so of functions of one name the first stays. `AllocError` where the memory was refused.
pub(crate) fn functions_of(alloc: Global, rows: &[Row]) -> Result<BTreeMap<Text, u32>, AllocError>
    requires { IsTable rows.now }
    ensures { IfOk result (HasFunctions (parts_of (script_of rows.now))) }
{
    let mut functions = BTreeMap::new(alloc);
    let tops = rows[0].parts.as_slice();
    for at in (0..tops.len()).rev() {
        let node = tops[at];
        if let NodeForm::Function(name, _) = &rows[node as usize].form {
            functions.insert(name.clone()?, node)?;
        }
    }
    Ok(functions)
}
