//! Names and the variables that have them: in an environment, and among binding variables, which stand by rising names.

ghost use Rattle.std.specs.Prelude.{◌≡◌, OnOk};
ghost use Rattle.model_run.specs.Names.{look, with_binding};
ghost use Rattle.model_run.specs.Fitting.{NamesRise};
ghost use Rattle.cps_variables.specs.Places.{IsPlace, is_up_to};

use model_text::Text;
use model_values::{Binding, Env};
use std::alloc::AllocError;

/// The cell of the nearest variable of this name, and `None` exactly where none of this name is declared. It goes over the names in
/// front of it.
pub fn look(name: &[u8], env: &Env) -> Option<u32>
    ensures { result ≡ look name.now env.now }
{
    for binding in env.iter() {
        if binding.name.as_slice() == name {
            return Some(binding.cell);
        }
    }
    None
}

/// How many binding variables have this name or one before it.
fn place(name: &[u8], binding: &[Binding]) -> usize
    requires { NamesRise binding.now }
    ensures { IsPlace name.now binding.now result }
{
    binding.partition_point(
        |variable: &Binding| -> bool
            ensures { result ≡ is_up_to name.entry.now variable.now }
        { !name.cmp(variable.name.as_slice()).is_lt() },
    )
}

/// The cell of the binding variable of this name, and `None` exactly where there is none. It takes time logarithmic in their number.
pub fn look_binding(name: &[u8], binding: &[Binding]) -> Option<u32>
    requires { NamesRise binding.now }
    ensures { result ≡ look name.now binding.now }
{
    let at = place(name, binding);
    if at == 0 {
        return None;
    }
    let last = &binding[at - 1];
    if last.name.as_slice() == name {
        Some(last.cell)
    } else {
        None
    }
}

/// Makes a binding variable of a name that none has. `AllocError` where the memory was refused.
pub(crate) fn insert(binding: &mut Vec<Binding>, name: Text, cell: u32) -> Result<(), AllocError>
    requires { NamesRise binding.old.items }
    ensures { OnOk result (binding.new.items ≡ with_binding name cell binding.old.items) }
{
    let at = place(name.as_slice(), binding.as_slice());
    binding.insert(at, Binding { name, cell })?;
    Ok(())
}
