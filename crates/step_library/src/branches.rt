//! The branches of `parallel`: what they are, how they begin, and how each of them ends.

ghost use Rattle.std.specs.Prelude.{◌≡◌, ◌-◌, ◌++◌, ◌∷◌, ◌^◌, ◌<◌, [], ℕ, All, IfOk, Some, codes, drop, length, slice_get, true};
ghost use Rattle.cell_heap.specs.Soundness.{ValueBelow};
ghost use Rattle.flow_graph.specs.Numbers.{AreNumbered};
ghost use Rattle.model_values.specs.Fitting.{HasClosure, IsIn};
ghost use Rattle.model_values.specs.Kinds.{kind as kind_in};
ghost use Rattle.model_values.specs.TextOf.{key_text};
ghost use Rattle.model_run.specs.Around.{frame, whole};
ghost use Rattle.model_run.specs.FlowNodes.{branch_name, logging};
ghost use Rattle.model_run.specs.Fitting.{IsFlowNode};
ghost use Rattle.model_run.specs.Forms.{after};
ghost use Rattle.model_run.specs.State.{Ended, Env as Scope, World, put_cells};
ghost use Rattle.model_run.specs.Steps.{after_branch, branch_failed, branches_given, branches_of};
ghost use Rattle.model_run.specs.declared.ending.Ending.TheVariants.{Thrown};
ghost use Rattle.model_run.specs.declared.frame.FrameKind.TheVariants as kind;
ghost use Rattle.cps_frames.specs.Moves.{ComesTo};
ghost use Rattle.cps_frames.specs.Order.{rank};
ghost use Rattle.cps_frames.specs.Places.{MayGoOn};
ghost use Rattle.cps_frames.specs.Standing.{standing, world_of};
ghost use Rattle.cps_frames.specs.Ways.{is_block_ending};
ghost use Rattle.cps_frames.specs.declared.thread.ThreadState.{ThreadState as Thread};
ghost use Rattle.step_arguments.specs.Binding.{AreBranches};
ghost use Rattle.step_library.specs.Branches.{Begins};

use crate::bodies::{callee_of, number_at, whole};
use crate::lines::joined;
use cell_heap::Heap;
use cps_frames::{Halt, Move, Shared, ThreadState, end_body, note_branch, say, thrown_of};
use itoa::Buffer;
use model_run::{Branch, Branches, Callee, Ending, FlowNode, Frame, FrameKind};
use model_text::Text;
use model_values::{Entries, Env, Key, Value, Values};
use std::alloc::{AllocError, Global};
use value_view::{Kind, kind_of};

/// The branches that a map of closures gives, by their names. `AllocError` where the memory was refused.
pub(crate) fn branches_given(
    shared: &Shared,
    map: &Value,
) -> Result<Vec<(Text, Callee)>, AllocError>
    requires below { ValueBelow (length shared.now.heap.cells) map.now }
    requires closures { AreBranches shared.now.heap.cells (kind_in shared.now.heap.cells map.now) }
    ensures { (t : Thread) → IfOk result (λ named. named.items ≡ branches_given (world_of shared.now t) (Some map.now)) }
{
    match kind_of(&shared.heap, map) {
        Kind::Map(_, entries) => branches_of(shared.alloc(), &shared.heap, entries),
        _ => unreachable!(),
    }
}

/// The closures of these entries, by the texts of their keys. `AllocError` where the memory was refused.
fn branches_of(
    alloc: Global,
    heap: &Heap,
    entries: &Entries,
) -> Result<Vec<(Text, Callee)>, AllocError>
    requires { All (λ entry. IsIn HasClosure heap.now.cells entry.1) entries.now }
    ensures { (w : World) → IfOk result (λ named. named.items ≡ branches_of (put_cells heap.now.cells w) entries.now) }
{
    let mut named = Vec::new(alloc);
    for at in 0..entries.len() {
        let Some((key, value)) = entries.entry_at(at) else {
            unreachable!()
        };
        named.push((key_text(alloc, key)?, callee_of(heap, value)?))?;
    }
    Ok(named)
}

/// The text of a key. `AllocError` where the memory was refused.
fn key_text(alloc: Global, key: &Key) -> Result<Text, AllocError>
    ensures { IfOk result (λ text. text ≡ key_text key.now) }
{
    match key {
        Key::Text(text) => text.clone(),
        Key::Int(number) => Text::from_slice(alloc, Buffer::new().format(*number).as_bytes()),
    }
}

/// The first flow nodes of branches, in their order. `Halt::Limit` where the graph has 65,536 nodes or the log would have
/// more than 16,777,216 bytes, and `Halt::Memory` where the memory was refused.
pub(crate) fn begin_branches(
    state: &ThreadState,
    shared: &mut Shared,
    named: &[(Text, Callee)],
) -> Result<Branches, Halt>
    ensures { (k : ℕ) (env : Scope) (start : ℕ) → Begins k env start named.now (standing shared.old state.now) result (standing shared.new state.now) }
{
    let mut branches = Branches::new(shared.alloc());
    for (name, callee) in named {
        let head = note_branch(state, shared, name.as_slice())?;
        branches.push(branch(name, callee, head)?)?;
    }
    Ok(branches)
}

/// A branch that is to be begun behind this flow node. `AllocError` where the memory was refused.
fn branch(name: &Text, callee: &Callee, head: u32) -> Result<Branch, AllocError>
    ensures { IfOk result (λ branch. branch ≡ record { name = name.now; closure = callee.now.node; env = callee.now.env; head = head }) }
{
    Ok(Branch {
        name: name.clone()?,
        closure: callee.node,
        env: callee.env.clone()?,
        head,
    })
}

/// The frame inside which the closure of a branch runs. `AllocError` where the memory was refused.
pub fn branch_frame(alloc: Global, node: u32, env: Env, start: u32) -> Result<Frame, AllocError>
    requires { start < 2 ^ 31 }
    ensures { IfOk result (λ f. f ≡ frame kind.BranchBody node 0 env (whole start ∷ [])) }
{
    let mut values = Values::new(alloc);
    values.push(whole(start))?;
    Ok(Frame {
        kind: FrameKind::BranchBody,
        node,
        left: 0,
        env,
        values,
    })
}

/// The closure of a branch has ended.
pub(crate) fn branch_body(
    state: &mut ThreadState,
    shared: &mut Shared,
    frame: Frame,
    ending: Ending,
) -> Result<Move, Halt>
    requires may { MayGoOn (standing shared.old state.old) frame ending }
    requires kind { frame.kind ≡ kind.BranchBody }
    ensures { ComesTo frame.node (rank frame) (λ sh a. after frame sh a ending) (standing shared.old state.old) result (standing shared.new state.new) }
{
    let start = number_at(&frame.values, 0);
    end_branch(state, shared, start, ending)
}

/// The closure of the branch that began at the flow node `start` has ended so: its last flow node, and the line of a branch
/// that has failed.
///
/// # Errors
///
/// As every function of the machine: `Halt::Limit` where the build meets a limit, which ends it, and `Halt::Memory` where
/// the memory was refused.
pub fn end_branch(
    state: &mut ThreadState,
    shared: &mut Shared,
    start: u32,
    ending: Ending,
) -> Result<Move, Halt>
    requires start { IsFlowNode shared.old.graph start }
    requires ending { is_block_ending ending ≡ true }
    ensures { (k r : ℕ) → 0 < r → ComesTo k r (λ sh a. after_branch start ending) (standing shared.old state.old) result (standing shared.new state.new) }
{
    end_body(state, shared, start)?;
    branch_failed(shared, start, ending)
}

/// What a branch throws is logged.
fn branch_failed(shared: &mut Shared, start: u32, ending: Ending) -> Result<Move, Halt>
    requires start { IsFlowNode shared.old.graph start }
    requires ending { is_block_ending ending ≡ true }
    ensures { (t : Thread) (k r : ℕ) → 0 < r → ComesTo k r (λ sh a. branch_failed start ending) (standing shared.old t) result (standing shared.new t) }
{
    match thrown_of(ending) {
        Ok(cell) => log_failure(shared, start, cell),
        Err(ending) => Ok(Move::Ends(ending)),
    }
}

/// The line of a branch that has failed, behind which its throwable is thrown on.
fn log_failure(shared: &mut Shared, start: u32, cell: u32) -> Result<Move, Halt>
    requires { IsFlowNode shared.old.graph start }
    ensures { (t : Thread) (k r : ℕ) → 0 < r → ComesTo k r (λ sh a. logging (codes "Failed in branch " ++ branch_name start shared.old.graph) (Ended (Thrown cell))) (standing shared.old t) result (standing shared.new t) }
{
    let name = branch_name(shared.alloc(), shared.graph.nodes(), start)?;
    let line = joined(shared.alloc(), "Failed in branch ", name.as_slice())?;
    say(shared, line.as_slice())?;
    Ok(Move::Ends(Ending::Thrown(cell)))
}

/// The name of the branch that began at this flow node, in constant time but for its copy. `AllocError` where the memory
/// was refused.
fn branch_name(alloc: Global, nodes: &[FlowNode], start: u32) -> Result<Text, AllocError>
    requires numbered { AreNumbered nodes.now }
    requires there { IsFlowNode nodes.now start }
    ensures { IfOk result (λ name. name ≡ branch_name start nodes.now) }
{
    let node = node_at(nodes, start);
    Text::from_slice(alloc, behind_prefix(node.name.as_slice()))
}

/// The flow node of this number: they are numbered from 2 on.
fn node_at(nodes: &[FlowNode], number: u32) -> &FlowNode
    requires { IsFlowNode nodes.now number }
    ensures { Some result.now ≡ slice_get nodes.now (number - 2) }
{
    &nodes[(number - 2) as usize]
}

/// What stands behind `Branch: ` in a label.
fn behind_prefix(label: &[u8]) -> &[u8]
    ensures { result.now ≡ drop 8 label.now }
{
    if label.len() < 8 {
        return &[];
    }
    &label[8..]
}
