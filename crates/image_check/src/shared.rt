//! The numbers, the binding and the flow nodes of an image.

ghost use Rattle.std.specs.Prelude.{◌≡◌, ◌+◌};
ghost use Rattle.std.specs.Option.{option_copied};
ghost use Rattle.model_run.specs.Fitting.{most_nodes};
ghost use Rattle.image_check.specs.Shared.{all_before, all_below, binding_fault, count_fits, is_above, is_before, head_fault, is_low, next_request_fits, next_thread_fits, node_fault, node_fits, nodes_fault, number_fault, starts_at};

use crate::scan::{Check, first_in, need, outside};
use crate::{CheckKind, Finding};
use image_form::{Image, ImageThread};
use model_run::{FlowNode, Held, NodeKind, OpenRequest};
use model_values::Binding;
use script_names::is_variable;

/// The first fault of the parts in front of the cells: of the next numbers and of the binding.
pub(crate) fn head_fault(image: &Image) -> Option<Finding>
    ensures { result ≡ head_fault image.now }
{
    let numbers = number_fault(image);
    if numbers.is_some() {
        return numbers;
    }
    first_in::<Image, Binding, BindingCheck>(image, image.bindings.as_slice())
}

/// The first fault of the flow nodes.
pub(crate) fn nodes_fault(image: &Image) -> Option<Finding>
    ensures { result ≡ nodes_fault image.now }
{
    let count = need(count_fits(image), outside(CheckKind::Node));
    if count.is_some() {
        return count;
    }
    first_in::<(), FlowNode, NodeCheck>(&(), image.nodes.as_slice())
}

/// The first fault of the next numbers.
fn number_fault(image: &Image) -> Option<Finding>
    ensures { result ≡ number_fault image.now }
{
    let request = need(next_request_fits(image), outside(CheckKind::Request));
    if request.is_some() {
        return request;
    }
    need(next_thread_fits(image), outside(CheckKind::Parent))
}

/// Whether a next number is at most 100,000,000 above the number of nodes.
fn is_low(image: &Image, next: u32) -> bool
    ensures { result ≡ is_low image.now next }
{
    !(image.nodes.len() < (next as usize).saturating_sub(100000000))
}

fn next_request_fits(image: &Image) -> bool
    ensures { result ≡ next_request_fits image.now }
{
    is_low(image, image.next_request)
        && requests_below(image.next_request, image.requests.as_slice())
        && held_below(image.next_request, image.held.as_slice())
}

fn next_thread_fits(image: &Image) -> bool
    ensures { result ≡ next_thread_fits image.now }
{
    is_low(image, image.next_thread) && threads_below(image.next_thread, image.threads.as_slice())
}

fn requests_below(next: u32, requests: &[OpenRequest]) -> bool
    ensures { result ≡ all_below (λ r. r.number) next requests.now }
{
    for request in requests {
        if !(request.number < next) {
            return false;
        }
    }
    true
}

fn held_below(next: u32, held: &[Held]) -> bool
    ensures { result ≡ all_below (λ x. x.request) next held.now }
{
    for one in held {
        if !(one.request < next) {
            return false;
        }
    }
    true
}

fn threads_below(next: u32, threads: &[ImageThread]) -> bool
    ensures { result ≡ all_below (λ t. t.number) next threads.now }
{
    for thread in threads {
        if !(thread.number < next) {
            return false;
        }
    }
    true
}

struct BindingCheck;

impl Check<Image, Binding> for BindingCheck {
    ghost known = { λ around. Unit {0} };

    ghost fault = { binding_fault };

    fn fault_of(
        around: &Image,
        _place: usize,
        before: Option<&Binding>,
        item: &Binding,
    ) -> Option<Finding> {
        let order = need(is_above(before, item), outside(CheckKind::Values));
        if order.is_some() {
            return order;
        }
        need(
            is_variable(around.cells.as_slice(), item.cell),
            outside(CheckKind::MissingCell),
        )
    }
}

/// Whether the name before is lower, byte by byte.
fn is_above(before: Option<&Binding>, binding: &Binding) -> bool
    ensures { result ≡ is_above (option_copied before.entry) binding.now }
{
    match before {
        None => true,
        Some(before) => before.name.as_slice().cmp(binding.name.as_slice()).is_lt(),
    }
}

/// Whether there is a node, and no more than a build has.
fn count_fits(image: &Image) -> bool
    ensures { result ≡ count_fits image.now }
{
    let count = image.nodes.len();
    0 < count && !(most_nodes(image.ended) < count)
}

fn most_nodes(ended: bool) -> usize
    ensures { result ≡ most_nodes ended }
{
    if ended { 100000001 } else { 100000000 }
}

struct NodeCheck;

impl Check<(), FlowNode> for NodeCheck {
    ghost known = { λ around. Unit {0} };

    ghost fault = { λ around. node_fault };

    fn fault_of(
        _around: &(),
        place: usize,
        _before: Option<&FlowNode>,
        item: &FlowNode,
    ) -> Option<Finding> {
        need(node_fits(place, item), outside(CheckKind::Node))
    }
}

/// Whether a node has the number of its place, and names only nodes before it.
fn node_fits(place: usize, node: &FlowNode) -> bool
    ensures { result ≡ node_fits (place + 2) node.now }
{
    2 <= node.id
        && node.id as usize - 2 == place
        && starts_at(node.kind, node.id, node.start)
        && all_before(node.id, node.parents.as_slice())
}

fn starts_at(kind: NodeKind, id: u32, start: u32) -> bool
    ensures { result ≡ starts_at kind id start }
{
    match kind {
        NodeKind::EndBody | NodeKind::EndBlock => is_before(id, start),
        _ => start == 0,
    }
}

fn is_before(id: u32, node: u32) -> bool
    ensures { result ≡ is_before id node }
{
    1 < node && node < id
}

fn all_before(id: u32, nodes: &[u32]) -> bool
    ensures { result ≡ all_before id nodes.now }
{
    for node in nodes {
        if !is_before(id, *node) {
            return false;
        }
    }
    true
}
