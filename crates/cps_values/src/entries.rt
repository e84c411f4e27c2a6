//! The entries of a map.

ghost use Rattle.std.specs.Prelude.{◌≡◌, ◌∷◌, ◌<◌, ◌≤◌, ◌+◌, ◌^◌, [], List, All, drop, length, true, IfOk};
ghost use Rattle.std.specs.Option.{ForSome};
ghost use Rattle.cell_heap.specs.Soundness.{ValueBelow};
ghost use Rattle.model_syntax.specs.declared.node.NodeForm.{NodeForm as Form};
ghost use Rattle.model_values.specs.declared.key.Key.{Key as MapKey};
ghost use Rattle.model_values.specs.declared.value.Value.{Value as Held};
ghost use Rattle.model_run.specs.FrameTable.{count_with};
ghost use Rattle.model_run.specs.Gathering.{entries_of};
ghost use Rattle.model_run.specs.Nesting.{shape_at};
ghost use Rattle.model_run.specs.Terms.{nodes_of};
ghost use Rattle.script_laws.specs.NodeParts.{is_entry};
ghost use Rattle.cps_code.specs.Script.{script_of};
ghost use Rattle.cps_values.specs.Entries.{entries_by};
ghost use Rattle.cps_values.specs.Values.{AreEntries, values_given};

use cell_heap::Heap;
use cps_frames::Shared;
use cps_operators::{arity, part_form};
use cps_variables::kept_value;
use model_syntax::NodeForm;
use model_values::{Entries, Key, Value, Values};
use std::alloc::AllocError;
use value_ops::key_of;
use value_view::kind_of;

/// An entry as its values tell it.
#[derive(Drop)]
pub(crate) struct Entry {
    /// Nothing where the value that stands for it is no text and no number.
    pub(crate) key: Option<Key>,
    pub(crate) value: Value,
    /// How many values it took.
    pub(crate) taken: usize,
}

/// The entries of a map of these values, where a computed key stands before its value. `None` where a key is no text and
/// no number. `AllocError` where the memory was refused.
pub(crate) fn entries_of(
    shared: &Shared,
    node: u32,
    values: &Values,
) -> Result<Option<Entries>, AllocError>
    requires node { node < length (nodes_of (script_of shared.now.code)) }
    requires below { All (ValueBelow (length shared.now.heap.cells)) values.now }
    requires entries { AreEntries (shape_at (script_of shared.now.code) node) }
    requires count { values_given (shape_at (script_of shared.now.code) node).parts ≤ length values.now }
    ensures entries { IfOk result (λ entries. entries ≡ entries_of shared.now.heap.cells (shape_at (script_of shared.now.code) node).parts values.now []) }
    ensures below { IfOk result (λ entries. ForSome entries (λ es. All (λ e. ValueBelow (length shared.now.heap.cells) e.1) es)) }
{
    let mut entries = Entries::new(shared.alloc());
    let mut used = 0;
    for at in 0..arity(&shared.code, node) {
        let form = part_form(&shared.code, node, at);
        let Entry { key, value, taken } = entry_from(&shared.heap, form, values, used)?;
        let Some(key) = key else {
            return Ok(None);
        };
        entries.put(key, value)?;
        used += taken;
    }
    Ok(Some(entries))
}

/// The entry of this form, of the values behind the first `used`. `AllocError` where the memory was refused.
fn entry_from(
    heap: &Heap,
    form: &NodeForm,
    values: &Values,
    used: usize,
) -> Result<Entry, AllocError>
    requires below { All (ValueBelow (length heap.now.cells)) values.now }
    requires form { is_entry form.now ≡ true }
    requires enough { used + count_with form.now 0 ≤ length values.now }
    requires few { used < 2 ^ 40 }
    ensures entry { IfOk result (λ entry. (fs : List Form) (es : List (MapKey × Held)) → entries_of heap.now.cells (form.now ∷ fs) (drop used values.now) es ≡ entries_by heap.now.cells fs (drop used values.now) es entry) }
    ensures below { IfOk result (λ entry. ValueBelow (length heap.now.cells) entry.value) }
    ensures taken { IfOk result (λ entry. entry.taken ≡ count_with form.now 0) }
{
    match form {
        NodeForm::NamedEntry(name) => {
            let key = Some(Key::Text(name.clone()?));
            let value = kept_value(values, used);
            Ok(Entry {
                key,
                value,
                taken: 1,
            })
        }
        NodeForm::NumberedEntry(number) => {
            let key = Some(Key::Int(*number));
            let value = kept_value(values, used);
            Ok(Entry {
                key,
                value,
                taken: 1,
            })
        }
        NodeForm::ComputedEntry => {
            let named = kept_value(values, used);
            let key = key_of(&kind_of(heap, &named))?;
            let value = kept_value(values, used + 1);
            Ok(Entry {
                key,
                value,
                taken: 2,
            })
        }
        _ => unreachable!(),
    }
}
