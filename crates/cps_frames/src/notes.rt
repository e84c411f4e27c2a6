//! What a build counts, logs and draws as it goes on. Whatever meets a limit here changes nothing.

ghost use Rattle.std.specs.Prelude.{◌≡◌, ◌+◌, ◌∷◌, ◌++◌, [], codes, length, IfOk, MatchResult};
ghost use Rattle.model_run.specs.FlowNodes.{body_limit, body_line, branch_label, line_limit, noted, noted_body, noted_branch, noted_limit, pipeline, with_line, with_node};
ghost use Rattle.model_run.specs.State.{counted, may_count};
ghost use Rattle.model_run.specs.declared.flow.NodeKind.TheVariants.{Atom as AtomNode, Block as BlockNode, EndBlock as EndBlockNode, EndBody as EndBodyNode};
ghost use Rattle.cps_frames.specs.Changes.{HasRoom, Met, Passed, Passes, done};
ghost use Rattle.cps_frames.specs.Standing.{standing};
ghost use Rattle.cps_frames.specs.declared.thread.ThreadState.{ThreadState as Thread};

use crate::{Halt, Shared, ThreadState};
use model_run::NodeKind;
use model_text::{Ids, Text};
use model_values::LimitKind;
use std::alloc::{AllocError, Global};

/// The most nodes that are evaluated for one event.
const MAX_NODES: u32 = 1000000;

/// One more node is evaluated for this event. `Err` is the limit, which is met at 1,000,000.
pub fn tick(shared: &mut Shared) -> Result<(), LimitKind>
    ensures { (t : Thread) → MatchResult result (λ _. Passed may_count counted (standing shared.old t) (standing shared.new t)) (λ limit. Met may_count limit (standing shared.old t) (standing shared.new t)) }
{
    if shared.count >= MAX_NODES {
        return Err(LimitKind::NodesEvaluated);
    }
    shared.count += 1;
    Ok(())
}

/// A line of the log. `Halt::Limit` where the log would have more than 16,777,216 bytes, and `Halt::Memory` where the
/// memory was refused.
pub fn say(shared: &mut Shared, text: &[u8]) -> Result<(), Halt>
    ensures { (t : Thread) → Passes (line_limit text.now) (with_line text.now) (standing shared.old t) result (standing shared.new t) }
{
    shared.log.line(text)?;
    Ok(())
}

/// Whether a flow node and this line can be made. `Err` is the limit, that of nodes first.
fn check_room(shared: &Shared, line: &[u8]) -> Result<(), LimitKind>
    ensures { (t : Thread) → MatchResult result (λ _. HasRoom line.now (standing shared.now t)) (λ limit. Met (noted_limit line.now) limit (standing shared.now t) (standing shared.now t)) }
{
    if shared.graph.is_full() {
        return Err(LimitKind::FlowNodes);
    }
    if !shared.log.has_room_for_line(line) {
        return Err(LimitKind::LogSize);
    }
    Ok(())
}

/// A flow node behind these parents, and its line: both or none. It is the number of the node.
fn add(
    shared: &mut Shared,
    kind: NodeKind,
    name: Text,
    start: u32,
    parents: Ids,
    line: &[u8],
) -> Result<u32, Halt>
    ensures number { IfOk result (λ number. number ≡ length shared.old.graph + 2) }
    ensures added { (t : Thread) → Passes (noted_limit line.now) (λ w. with_line line.now (with_node kind name start parents w)) (standing shared.old t) (done result) (standing shared.new t) }
{
    check_room(shared, line)?;
    let number = shared.graph.add(kind, name, start, parents)?;
    shared.log.line(line)?;
    Ok(number)
}

/// The same where the node becomes the thread's last one.
fn note(
    state: &mut ThreadState,
    shared: &mut Shared,
    kind: NodeKind,
    name: Text,
    start: u32,
    parents: Ids,
    line: &[u8],
) -> Result<(), Halt>
    ensures { Passes (noted_limit line.now) (noted kind name start parents line.now) (standing shared.old state.old) result (standing shared.new state.new) }
{
    let number = add(shared, kind, name, start, parents, line)?;
    state.head = number;
    Ok(())
}

/// The same behind the thread's last node.
fn note_behind(
    state: &mut ThreadState,
    shared: &mut Shared,
    kind: NodeKind,
    name: &[u8],
    start: u32,
    line: &[u8],
) -> Result<(), Halt>
    ensures { Passes (noted_limit line.now) (λ w. noted kind name.now start (w.own.head ∷ []) line.now w) (standing shared.old state.old) result (standing shared.new state.new) }
{
    let alloc = shared.alloc();
    let name = Text::from_vec(Vec::from_slice(alloc, name)?);
    let parents = Ids::from_slice(alloc, &[state.head])?;
    note(state, shared, kind, name, start, parents, line)
}

/// The flow node of a step without a body, behind the thread's last one, and its line. `Halt::Limit` where the graph has
/// 65,536 nodes, and else where the log would have more than 16,777,216 bytes; `Halt::Memory` where the memory was
/// refused. So it is for the others here.
pub fn note_atom(state: &mut ThreadState, shared: &mut Shared, name: &[u8]) -> Result<(), Halt>
    ensures { Passes (noted_limit (pipeline name.now)) (λ w. noted AtomNode name.now 0 (w.own.head ∷ []) (pipeline name.now) w) (standing shared.old state.old) result (standing shared.new state.new) }
{
    let line = pipeline(shared.alloc(), name)?;
    note_behind(state, shared, NodeKind::Atom, name, 0, line.as_slice())
}

/// The first flow node of a step with a body.
pub fn note_block(state: &mut ThreadState, shared: &mut Shared, name: &[u8]) -> Result<(), Halt>
    ensures { Passes (noted_limit (pipeline name.now)) (λ w. noted BlockNode name.now 0 (w.own.head ∷ []) (pipeline name.now) w) (standing shared.old state.old) result (standing shared.new state.new) }
{
    let line = pipeline(shared.alloc(), name)?;
    note_behind(state, shared, NodeKind::Block, name, 0, line.as_slice())
}

/// The first flow node of a body with this label, which may be empty.
pub fn note_body(state: &mut ThreadState, shared: &mut Shared, label: &[u8]) -> Result<(), Halt>
    ensures { Passes (body_limit label.now) (noted_body label.now) (standing shared.old state.old) result (standing shared.new state.new) }
{
    let line = body_line(shared.alloc(), label)?;
    note_behind(state, shared, NodeKind::Body, label, 0, line.as_slice())
}

/// The last flow node of the body that began at the node `start`.
pub fn end_body(state: &mut ThreadState, shared: &mut Shared, start: u32) -> Result<(), Halt>
    ensures { Passes (noted_limit (pipeline (codes "}"))) (λ w. noted EndBodyNode [] start (w.own.head ∷ []) (pipeline (codes "}")) w) (standing shared.old state.old) result (standing shared.new state.new) }
{
    note_behind(
        state,
        shared,
        NodeKind::EndBody,
        b"",
        start,
        b"[Pipeline] }",
    )
}

/// The last flow node of the step of this name that began at the node `start`.
pub fn end_block(
    state: &mut ThreadState,
    shared: &mut Shared,
    name: &[u8],
    start: u32,
) -> Result<(), Halt>
    ensures { Passes (noted_limit (pipeline (codes "// " ++ name.now))) (λ w. noted EndBlockNode [] start (w.own.head ∷ []) (pipeline (codes "// " ++ name.now)) w) (standing shared.old state.old) result (standing shared.new state.new) }
{
    let line = end_line(shared.alloc(), name)?;
    note_behind(
        state,
        shared,
        NodeKind::EndBlock,
        b"",
        start,
        line.as_slice(),
    )
}

/// The last flow node of a step behind its branches, whose last nodes are these.
pub fn end_branches(
    state: &mut ThreadState,
    shared: &mut Shared,
    name: &[u8],
    start: u32,
    heads: Ids,
) -> Result<(), Halt>
    ensures { Passes (noted_limit (pipeline (codes "// " ++ name.now))) (noted EndBlockNode [] start heads (pipeline (codes "// " ++ name.now))) (standing shared.old state.old) result (standing shared.new state.new) }
{
    let line = end_line(shared.alloc(), name)?;
    let no_name = Text::new(shared.alloc());
    note(
        state,
        shared,
        NodeKind::EndBlock,
        no_name,
        start,
        heads,
        line.as_slice(),
    )
}

/// The first flow node of a branch of this name, and its line, behind the last node of the thread that makes it, which
/// stays its last one. It is the number of the new node.
pub fn note_branch(state: &ThreadState, shared: &mut Shared, name: &[u8]) -> Result<u32, Halt>
    ensures number { IfOk result (λ number. number ≡ length shared.old.graph + 2) }
    ensures noted { Passes (noted_limit (body_line (branch_label name.now))) (noted_branch name.now) (standing shared.old state.now) (done result) (standing shared.new state.now) }
{
    let alloc = shared.alloc();
    let mut label = Text::from_str(alloc, "Branch: ")?;
    label.append(name)?;
    let line = body_line(alloc, label.as_slice())?;
    let parents = Ids::from_slice(alloc, &[state.head])?;
    add(shared, NodeKind::Body, label, 0, parents, line.as_slice())
}

/// The line of a flow node. `AllocError` where the memory was refused.
fn pipeline(alloc: Global, text: &[u8]) -> Result<Text, AllocError>
    ensures { IfOk result (λ line. line ≡ pipeline text.now) }
{
    let mut line = Text::from_str(alloc, "[Pipeline] ")?;
    line.append(text)?;
    Ok(line)
}

/// The line of a body.
fn body_line(alloc: Global, label: &[u8]) -> Result<Text, AllocError>
    ensures { IfOk result (λ line. line ≡ body_line label.now) }
{
    if label.is_empty() {
        return pipeline(alloc, b"{");
    }
    let mut line = pipeline(alloc, b"{ (")?;
    line.append(label)?;
    line.append(b")")?;
    Ok(line)
}

/// The line of the end of a step.
fn end_line(alloc: Global, name: &[u8]) -> Result<Text, AllocError>
    ensures { IfOk result (λ line. line ≡ pipeline (codes "// " ++ name.now)) }
{
    let mut line = pipeline(alloc, b"// ")?;
    line.append(name)?;
    Ok(line)
}
