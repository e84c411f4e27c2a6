ghost use Rattle.std.specs.Prelude.{◌≡◌, ◌↔◌, IsTrue, IfOk};

use model_run::{
    AgentsKind, Answer, BranchEnd, BuildResult, Callee, Context, Event, Executor, Executors,
    FlowNode, Frame, FrameKind, JoinEnd, NodeKind, OpenRequest, Outcome, Outcomes, Request, Site,
    Step, Stream, Wait, Why,
};
use model_text::{Bytes, Ids, Pairs, Text, Texts};
use model_values::{Binding, Env, Value, Values};
use std::alloc::AllocError;
use std::test::Fail;

fn copied_event(event: &Event) -> Result<Event, AllocError>
    ensures { IfOk result (λ copy. copy ≡ event.now) }
{
    event.clone()
}

fn copied_request(request: &OpenRequest) -> Result<OpenRequest, AllocError>
    ensures { IfOk result (λ copy. copy ≡ request.now) }
{
    request.clone()
}

fn copied_site(site: &Site) -> Result<Site, AllocError>
    ensures { IfOk result (λ copy. copy ≡ site.now) }
{
    site.clone()
}

fn copied_wait(wait: &Wait) -> Result<Wait, AllocError>
    ensures { IfOk result (λ copy. copy ≡ wait.now) }
{
    wait.clone()
}

fn copied_context(context: &Context) -> Result<Context, AllocError>
    ensures { IfOk result (λ copy. copy ≡ context.now) }
{
    context.clone()
}

fn copied_node(node: &FlowNode) -> Result<FlowNode, AllocError>
    ensures { IfOk result (λ copy. copy ≡ node.now) }
{
    node.clone()
}

fn copied_frame(frame: &Frame) -> Result<Frame, AllocError>
    ensures { IfOk result (λ copy. copy ≡ frame.now) }
{
    frame.clone()
}

fn copied_callee(callee: &Callee) -> Result<Callee, AllocError>
    ensures { IfOk result (λ copy. copy ≡ callee.now) }
{
    callee.clone()
}

fn is_same_event(a: &Event, b: &Event) -> bool
    ensures { IsTrue result ↔ (a.now ≡ b.now) }
{
    a == b
}

fn is_same_node(a: &FlowNode, b: &FlowNode) -> bool
    ensures { IsTrue result ↔ (a.now ≡ b.now) }
{
    a == b
}

fn text(rt: &HostRuntime, content: &str) -> Result<Text, AllocError> {
    Text::from_str(rt.alloc(), content)
}

#[test]
fn events_copy_and_compare(rt: HostRuntime) -> Result<(), Fail> {
    let output = Event::Output {
        task: 2,
        stream: Stream::Log,
        from: 5,
        bytes: Bytes::from_slice(rt.alloc(), b"ok\n")?,
    };
    let copy = copied_event(&output)?;
    assert!(rt; is_same_event(&copy, &output));
    let lost = Event::Lost {
        task: 2,
        why: Why::Gone,
    };
    assert!(rt; !is_same_event(&lost, &output));
    Ok(())
}

#[test]
fn requests_copy(rt: HostRuntime) -> Result<(), Fail> {
    let request = OpenRequest {
        number: 3,
        thread: 0,
        request: Request::Node {
            label: Some(text(&rt, "linux && !win")?),
        },
    };
    let copy = copied_request(&request)?;
    assert!(rt; copy == request);
    Ok(())
}

#[test]
fn flow_nodes_copy_and_compare(rt: HostRuntime) -> Result<(), Fail> {
    let node = FlowNode {
        id: 3,
        kind: NodeKind::Atom,
        name: text(&rt, "echo")?,
        start: 0,
        parents: Ids::from_slice(rt.alloc(), &[2])?,
    };
    let copy = copied_node(&node)?;
    assert!(rt; is_same_node(&copy, &node));
    Ok(())
}

#[test]
fn sites_copy(rt: HostRuntime) -> Result<(), Fail> {
    let mut executors = Executors::new(rt.alloc());
    executors.push(Executor {
        number: 0,
        agent: text(&rt, "m")?,
        root: text(&rt, "/w")?,
        labels: Texts::new(rt.alloc()),
        slot: 0,
    })?;
    let site = Site {
        job: text(&rt, "demo")?,
        looks: 100_000,
        executors,
    };
    let copy = copied_site(&site)?;
    assert!(rt; copy == site);
    Ok(())
}

#[test]
fn waits_and_contexts_copy(rt: HostRuntime) -> Result<(), Fail> {
    let mut ends = Outcomes::new(rt.alloc());
    ends.push(BranchEnd {
        name: text(&rt, "unit")?,
        end: JoinEnd {
            node: 7,
            outcome: Outcome::Value(Value::Null),
            place: 1,
        },
    })?;
    let wait = Wait::Ready(Answer::Joined(ends));
    assert!(rt; copied_wait(&wait)? == wait);
    let context = Context {
        held: Ids::from_slice(rt.alloc(), &[1])?,
        folders: Texts::new(rt.alloc()),
        env: Pairs::new(rt.alloc()),
    };
    assert!(rt; copied_context(&context)? == context);
    Ok(())
}

#[test]
fn results_have_jenkins_names_and_only_get_worse(rt: HostRuntime) -> Result<(), Fail> {
    assert_eq!(rt; BuildResult::NotBuilt.name(), "NOT_BUILT");
    assert_eq!(rt;
        BuildResult::Unstable.worse(BuildResult::Success),
        BuildResult::Unstable
    );
    assert_eq!(rt;
        BuildResult::Failure.worse(BuildResult::Aborted),
        BuildResult::Aborted
    );
    Ok(())
}

#[test]
fn kinds_of_agents_faults_have_texts(rt: HostRuntime) -> Result<(), Fail> {
    let text = format!(in rt.alloc(); "{}: {}", AgentsKind::NotJson, AgentsKind::TooManyExecutors)?;
    assert_eq!(rt; text.as_str(), "not JSON: too many executors");
    Ok(())
}

#[test]
fn frames_and_callees_copy_with_their_variables(rt: HostRuntime) -> Result<(), Fail> {
    let binding = Binding {
        name: text(&rt, "it")?,
        cell: 1,
    };
    let env = Env::new(rt.alloc()).with(binding)?;
    let callee = Callee { node: 3, env };
    let frame = Frame {
        kind: FrameKind::IndexValue,
        node: 4,
        left: 0,
        env: copied_callee(&callee)?.env,
        values: Values::from_slice(rt.alloc(), &[Value::Int(7)])?,
    };
    assert!(rt; copied_frame(&frame)? == frame);
    assert!(rt; frame.env == callee.env);
    assert_eq!(rt; Step::WithEnv.name(), "withEnv");
    Ok(())
}
