//! `parallel`.

ghost use Rattle.std.specs.Prelude.{◌≡◌, ◌∷◌, ◌^◌, ◌<◌, [], ℕ, All, Some, true, false, codes, length, map, option_copied, IfOk, OnOk};
ghost use Rattle.cell_heap.specs.Soundness.{ValueBelow};
ghost use Rattle.indexmap.specs.IndexMap.{insert_all, insert_entry};
ghost use Rattle.model_values.specs.Cells.{new_map};
ghost use Rattle.model_values.specs.Kinds.{kind as kind_in};
ghost use Rattle.model_values.specs.Keys.{same_key};
ghost use Rattle.model_values.specs.declared.key.Key.TheVariants.{Text as TextKey};
ghost use Rattle.model_run.specs.Around.{cells, ended, limits, whole};
ghost use Rattle.model_run.specs.FlowNodes.{block};
ghost use Rattle.model_run.specs.Forms.{after};
ghost use Rattle.model_run.specs.State.{operating, seeing};
ghost use Rattle.model_run.specs.Steps.{begin_branches, branches_given, first_failure, joined_as, no_branches, outcome_value, thrown_by, earlier, is_thrown, values_of};
ghost use Rattle.model_run.specs.declared.ending.Ending.TheVariants.{Answered};
ghost use Rattle.model_run.specs.declared.frame.FrameKind.TheVariants as kind;
ghost use Rattle.model_run.specs.declared.wait.Answer.TheVariants.{Joined};
ghost use Rattle.cps_frames.specs.Moves.{ComesTo};
ghost use Rattle.cps_frames.specs.Order.{rank};
ghost use Rattle.cps_frames.specs.Places.{MayGoOn};
ghost use Rattle.cps_frames.specs.Standing.{standing};
ghost use Rattle.cps_frames.specs.declared.thread.ThreadState.{ThreadState as Thread};
ghost use Rattle.step_arguments.specs.Binding.{AreBranches};
ghost use Rattle.step_library.specs.Branches.{OutcomeBelow};
ghost use Rattle.step_library.specs.Numbers.{Countable};
ghost use Rattle.step_library.specs.Waits.{IsJoined};

use crate::bodies::{number_at, whole};
use crate::branches::{begin_branches, branches_given};
use cps_frames::{Halt, Move, Shared, ThreadState, end_block, end_branches, note_block, say};
use model_run::{Answer, Asked, BranchEnd, Ending, Frame, FrameKind, Outcome, Outcomes};
use model_text::Ids;
use model_values::{Entries, Env, Key, Value, Values};
use std::alloc::{AllocError, Global};
use value_ops::{Effect, perform};

/// `parallel`: a thread for each branch, whose ends are waited for.
pub(crate) fn parallel(
    state: &mut ThreadState,
    shared: &mut Shared,
    node: u32,
    env: Env,
    branches: &Value,
) -> Result<Move, Halt>
    requires below { ValueBelow (length shared.old.heap.cells) branches.now }
    requires closures { AreBranches shared.old.heap.cells (kind_in shared.old.heap.cells branches.now) }
    ensures { ComesTo node (2 ^ 66) (λ sh a. block (codes "parallel") (seeing (λ w. begin_branches node env w.own.head [] (branches_given w (Some branches.now))))) (standing shared.old state.old) result (standing shared.new state.new) }
{
    note_block(state, shared, b"parallel")?;
    let named = branches_given(shared, branches)?;
    let values = start_value(state, shared)?;
    let begun = begin_branches(state, shared, named.as_slice())?;
    if begun.is_empty() {
        return no_branches(state, shared);
    }
    state.push(Frame {
        kind: FrameKind::ParallelWait,
        node,
        left: 0,
        env,
        values,
    })?;
    Ok(Move::Asks(Asked::ForBranches(begun)))
}

/// The number of the thread's last flow node, as a frame keeps it. `AllocError` where the memory was refused.
fn start_value(state: &ThreadState, shared: &Shared) -> Result<Values, AllocError>
    requires { Countable (standing shared.now state.now) }
    ensures { IfOk result (λ values. values ≡ whole state.now.head ∷ []) }
{
    let mut values = Values::new(shared.alloc());
    values.push(whole(state.head))?;
    Ok(values)
}

/// A `parallel` without branches, which began at the thread's last flow node, gives an empty map.
fn no_branches(state: &mut ThreadState, shared: &mut Shared) -> Result<Move, Halt>
    ensures { (k r : ℕ) → 0 < r → ComesTo k r (λ sh a. no_branches state.old.head) (standing shared.old state.old) result (standing shared.new state.new) }
{
    say(shared, b"No branches to run")?;
    let start = state.head;
    end_block(state, shared, b"parallel", start)?;
    let none = Entries::new(shared.alloc());
    give_map(shared, none)
}

/// A new map.
fn give_map(shared: &mut Shared, entries: Entries) -> Result<Move, Halt>
    requires { All (λ e. ValueBelow (length shared.old.heap.cells) e.1) entries }
    ensures { (t : Thread) (k r : ℕ) → 0 < r → ComesTo k r (λ sh a. operating (λ w. new_map (limits w) (cells w) entries) ended) (standing shared.old t) result (standing shared.new t) }
{
    let value = perform(&mut shared.heap, Effect::NewMap(entries))?;
    Ok(Move::Ends(Ending::Normal(value)))
}

/// All branches have ended.
pub(crate) fn parallel_wait(
    state: &mut ThreadState,
    shared: &mut Shared,
    frame: Frame,
    ending: Ending,
) -> Result<Move, Halt>
    requires may { MayGoOn (standing shared.old state.old) frame ending }
    requires kind { frame.kind ≡ kind.ParallelWait }
    ensures { ComesTo frame.node (rank frame) (λ sh a. after frame sh a ending) (standing shared.old state.old) result (standing shared.new state.new) }
{
    let ends = ends_of(ending);
    let heads = last_nodes(shared.alloc(), ends.as_slice())?;
    let start = number_at(&frame.values, 0);
    end_branches(state, shared, b"parallel", start, heads)?;
    joined(shared, ends.as_slice())
}

/// The ends of branches.
fn ends_of(ending: Ending) -> Outcomes
    requires { IsJoined ending }
    ensures { ending ≡ Answered (Joined result) }
{
    let Ending::Answered(answer) = ending else {
        unreachable!()
    };
    match answer {
        Answer::Joined(ends) => ends,
        _ => unreachable!(),
    }
}

/// The last flow nodes of branches. `AllocError` where the memory was refused.
fn last_nodes(alloc: Global, ends: &[BranchEnd]) -> Result<Ids, AllocError>
    ensures { IfOk result (λ nodes. nodes ≡ map (λ b. b.end.node) ends.now) }
{
    let mut nodes = Ids::new(alloc);
    for branch in ends {
        nodes.push(branch.end.node)?;
    }
    Ok(nodes)
}

/// What `parallel` comes to behind the ends of its branches: what the branch threw that failed first, or the map of their
/// values.
fn joined(shared: &mut Shared, ends: &[BranchEnd]) -> Result<Move, Halt>
    requires { All (λ b. OutcomeBelow (length shared.old.heap.cells) b.end.outcome) ends.now }
    ensures { (t : Thread) (k r : ℕ) → 0 < r → ComesTo k r (λ sh a. joined_as ends.now (first_failure ends.now)) (standing shared.old t) result (standing shared.new t) }
{
    match first_failure(ends) {
        Some(branch) => Ok(Move::Ends(thrown_by(&branch.end.outcome))),
        None => joined_values(shared, ends),
    }
}

/// How a branch that has failed has ended.
fn thrown_by(outcome: &Outcome) -> Ending
    requires { is_thrown outcome.now ≡ true }
    ensures { result ≡ thrown_by outcome.now }
{
    match outcome {
        Outcome::Thrown(cell) => Ending::Thrown(*cell),
        Outcome::Value(_) => unreachable!(),
    }
}

/// The branch that failed first, where one has failed. It goes over the branches from the last to the first.
fn first_failure(ends: &[BranchEnd]) -> Option<&BranchEnd>
    ensures { option_copied result ≡ first_failure ends.now }
{
    let mut first = None;
    for at in (0..ends.len()).rev() {
        let branch = &ends[at];
        if is_thrown(&branch.end.outcome) {
            first = Some(earlier(branch, first));
        }
    }
    first
}

/// The branch of the two that ended first.
fn earlier<'a>(branch: &'a BranchEnd, other: Option<&'a BranchEnd>) -> &'a BranchEnd
    ensures { Some result.now ≡ earlier branch.now (option_copied other.entry) }
{
    match other {
        None => branch,
        Some(other) => {
            if branch.end.place < other.end.place {
                branch
            } else {
                other
            }
        }
    }
}

/// Whether a branch has failed.
fn is_thrown(outcome: &Outcome) -> bool
    ensures { result ≡ is_thrown outcome.now }
{
    match outcome {
        Outcome::Thrown(_) => true,
        Outcome::Value(_) => false,
    }
}

/// The map of the branches' values.
fn joined_values(shared: &mut Shared, ends: &[BranchEnd]) -> Result<Move, Halt>
    requires below { All (λ b. OutcomeBelow (length shared.old.heap.cells) b.end.outcome) ends.now }
    requires values { All (λ b. is_thrown b.end.outcome ≡ false) ends.now }
    ensures { (t : Thread) (k r : ℕ) → 0 < r → ComesTo k r (λ sh a. operating (λ w. new_map (limits w) (cells w) (insert_all same_key [] (values_of ends.now))) ended) (standing shared.old t) result (standing shared.new t) }
{
    let entries = entries_of(shared.alloc(), ends)?;
    give_map(shared, entries)
}

/// The values of branches by their names. `AllocError` where the memory was refused.
fn entries_of(alloc: Global, ends: &[BranchEnd]) -> Result<Entries, AllocError>
    requires { All (λ b. is_thrown b.end.outcome ≡ false) ends.now }
    ensures entries { IfOk result (λ entries. entries ≡ insert_all same_key [] (values_of ends.now)) }
    ensures below { (n : ℕ) → All (λ b. OutcomeBelow n b.end.outcome) ends.now → IfOk result (λ entries. All (λ e. ValueBelow n e.1) entries) }
{
    let mut entries = Entries::new(alloc);
    for branch in ends {
        put_value(&mut entries, branch)?;
    }
    Ok(entries)
}

/// Puts the value of a branch under its name. `AllocError` where the memory was refused.
fn put_value(entries: &mut Entries, branch: &BranchEnd) -> Result<(), AllocError>
    requires { is_thrown branch.now.end.outcome ≡ false }
    ensures { OnOk result (entries.new ≡ insert_entry same_key entries.old (TextKey branch.now.name) (outcome_value branch.now.end.outcome)) }
{
    let name = branch.name.clone()?;
    entries.put(Key::Text(name), outcome_value(&branch.end.outcome))?;
    Ok(())
}

/// The value of a branch that has not failed.
fn outcome_value(outcome: &Outcome) -> Value
    requires { is_thrown outcome.now ≡ false }
    ensures { result ≡ outcome_value outcome.now }
{
    match outcome {
        Outcome::Value(value) => *value,
        Outcome::Thrown(_) => unreachable!(),
    }
}
