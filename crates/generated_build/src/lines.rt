//! The lines that tell what became of a generated build.
ghost use Rattle.std.specs.Prelude.{◌≡◌, string_bytes, IfOk};
ghost use Rattle.std.specs.List.{count_by};
ghost use Rattle.generated_build.specs.Summary.{is_task, summary_text};

use model_run::{BuildResult, FlowNode, NodeKind};
use std::alloc::{AllocError, Global};

/// The six lines that tell of a build: how many stages it was made of, how many flow nodes, tasks and events it has, how many bytes
/// its log has, and its result.
///
/// # Errors
///
/// `AllocError` where the memory was refused.
pub fn summary(
    alloc: Global,
    stages: u32,
    nodes: &[FlowNode],
    records: u64,
    log: usize,
    result_of: BuildResult,
) -> Result<String, AllocError>
    ensures { IfOk result (λ text. string_bytes text ≡ summary_text stages nodes.now records log result_of) }
{
    let count = nodes.len();
    let tasks = task_count(nodes);
    let name = result_of.name();
    format!(in alloc;
        "stages {stages}\nnodes {count}\ntasks {tasks}\nrecords {records}\nlog {log}\nresult {name}\n"
    )
}

/// How many of the nodes are steps `sh`.
fn task_count(nodes: &[FlowNode]) -> usize
    ensures { result ≡ count_by is_task nodes.now }
{
    nodes.iter().filter(|node| is_task(node)).count()
}

/// Whether the node is that of a step `sh`.
fn is_task(node: &FlowNode) -> bool
    ensures { result ≡ is_task node.now }
{
    node.kind == NodeKind::Atom && node.name.as_slice() == b"sh".as_slice()
}
