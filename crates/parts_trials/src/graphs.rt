use flow_graph::{Graph, NodeRefusal};
use model_run::NodeKind;
use model_text::{Ids, Text};
use std::alloc::{AllocError, Global};
use std::test::Fail;

/// Adds a node with this name behind these parents.
fn add(
    graph: &mut Graph,
    alloc: Global,
    kind: NodeKind,
    name: &str,
    start: u32,
    parents: &[u32],
) -> Result<u32, NodeRefusal> {
    let name = Text::from_str(alloc, name)?;
    graph.add(kind, name, start, Ids::from_slice(alloc, parents)?)
}

/// Adds a node behind the last one.
fn next(
    graph: &mut Graph,
    alloc: Global,
    kind: NodeKind,
    name: &str,
    start: u32,
) -> Result<u32, NodeRefusal> {
    let last = match graph.nodes().last() {
        Some(node) => node.id,
        None => 0,
    };
    add(graph, alloc, kind, name, start, &[last])
}

/// `echo` steps until the graph has so many nodes.
fn long_graph(alloc: Global, count: usize) -> Result<Graph, NodeRefusal> {
    let mut graph = Graph::start(alloc)?;
    for _ in 1..count {
        next(&mut graph, alloc, NodeKind::Atom, "echo", 0)?;
    }
    Ok(graph)
}

/// A step with a body: the step's own node and its body's.
fn begin(graph: &mut Graph, alloc: Global, step: &str, label: &str) -> Result<(), NodeRefusal> {
    next(graph, alloc, NodeKind::Block, step, 0)?;
    next(graph, alloc, NodeKind::Body, label, 0)?;
    Ok(())
}

/// The ends of a body and of its step, which began at these nodes.
fn finish(graph: &mut Graph, alloc: Global, body: u32, step: u32) -> Result<(), NodeRefusal> {
    next(graph, alloc, NodeKind::EndBody, "", body)?;
    next(graph, alloc, NodeKind::EndBlock, "", step)?;
    Ok(())
}

/// `node('linux') { stage('Prepare') { sh ..; echo .. } }`
fn prepare(graph: &mut Graph, alloc: Global) -> Result<(), NodeRefusal> {
    begin(graph, alloc, "node", "")?;
    begin(graph, alloc, "stage", "Prepare")?;
    next(graph, alloc, NodeKind::Atom, "sh", 0)?;
    next(graph, alloc, NodeKind::Atom, "echo", 0)?;
    finish(graph, alloc, 6, 5)?;
    finish(graph, alloc, 4, 3)
}

/// `stage('Test') { parallel .. }`, where each branch is `node('linux') { sh .. }`
fn test_stage(graph: &mut Graph, alloc: Global) -> Result<(), NodeRefusal> {
    begin(graph, alloc, "stage", "Test")?;
    next(graph, alloc, NodeKind::Block, "parallel", 0)?;
    add(graph, alloc, NodeKind::Body, "Branch: unit", 0, &[15])?;
    add(graph, alloc, NodeKind::Body, "Branch: web", 0, &[15])?;
    add(graph, alloc, NodeKind::Block, "node", 0, &[16])?;
    add(graph, alloc, NodeKind::Block, "node", 0, &[17])?;
    add(graph, alloc, NodeKind::Body, "", 0, &[18])?;
    next(graph, alloc, NodeKind::Atom, "sh", 0)?;
    add(graph, alloc, NodeKind::Body, "", 0, &[19])?;
    next(graph, alloc, NodeKind::Atom, "sh", 0)?;
    add(graph, alloc, NodeKind::EndBody, "", 20, &[21])?;
    next(graph, alloc, NodeKind::EndBlock, "", 18)?;
    next(graph, alloc, NodeKind::EndBody, "", 16)?;
    add(graph, alloc, NodeKind::EndBody, "", 22, &[23])?;
    next(graph, alloc, NodeKind::EndBlock, "", 19)?;
    next(graph, alloc, NodeKind::EndBody, "", 17)?;
    add(graph, alloc, NodeKind::EndBlock, "", 15, &[26, 29])?;
    finish(graph, alloc, 14, 13)
}

/// `stage('Ship') { node('linux-1') { withEnv(['MODE=prod']) { sh .. } } }`
fn ship(graph: &mut Graph, alloc: Global) -> Result<(), NodeRefusal> {
    begin(graph, alloc, "stage", "Ship")?;
    begin(graph, alloc, "node", "")?;
    begin(graph, alloc, "withEnv", "")?;
    next(graph, alloc, NodeKind::Atom, "sh", 0)?;
    finish(graph, alloc, 38, 37)?;
    finish(graph, alloc, 36, 35)?;
    finish(graph, alloc, 34, 33)
}

/// The text of the graph of a Jenkinsfile with a node, three stages and two branches.
const USUAL: &str = "\
2 start\n3 block node <- 2\n4 body <- 3\n5 block stage <- 4\n6 body Prepare <- 5\n7 atom sh <- 6\n\
8 atom echo <- 7\n9 end-body of 6 <- 8\n10 end-block of 5 <- 9\n11 end-body of 4 <- 10\n\
12 end-block of 3 <- 11\n13 block stage <- 12\n14 body Test <- 13\n15 block parallel <- 14\n\
16 body Branch: unit <- 15\n17 body Branch: web <- 15\n18 block node <- 16\n19 block node <- 17\n\
20 body <- 18\n21 atom sh <- 20\n22 body <- 19\n23 atom sh <- 22\n24 end-body of 20 <- 21\n\
25 end-block of 18 <- 24\n26 end-body of 16 <- 25\n27 end-body of 22 <- 23\n\
28 end-block of 19 <- 27\n29 end-body of 17 <- 28\n30 end-block of 15 <- 26 29\n\
31 end-body of 14 <- 30\n32 end-block of 13 <- 31\n33 block stage <- 32\n34 body Ship <- 33\n\
35 block node <- 34\n36 body <- 35\n37 block withEnv <- 36\n38 body <- 37\n39 atom sh <- 38\n\
40 end-body of 38 <- 39\n41 end-block of 37 <- 40\n42 end-body of 36 <- 41\n\
43 end-block of 35 <- 42\n44 end-body of 34 <- 43\n45 end-block of 33 <- 44\n46 end <- 45\n";

#[test]
fn a_usual_jenkinsfile_has_45_nodes(rt: HostRuntime) -> Result<(), Fail> {
    let mut graph = Graph::start(rt.alloc())?;
    prepare(&mut graph, rt.alloc())?;
    test_stage(&mut graph, rt.alloc())?;
    ship(&mut graph, rt.alloc())?;
    assert_eq!(rt; graph.nodes().len(), 44);
    assert_eq!(rt; graph.end(Ids::from_slice(rt.alloc(), &[45])?)?, 46);
    assert_eq!(rt; graph.nodes().len(), 45);
    assert_eq!(rt; graph.text()?.as_slice(), USUAL.as_bytes());
    Ok(())
}

#[test]
fn one_echo_is_three_lines(rt: HostRuntime) -> Result<(), Fail> {
    let mut graph = long_graph(rt.alloc(), 2)?;
    assert_eq!(rt; graph.nodes().len(), 2);
    assert_eq!(rt; graph.end(Ids::from_slice(rt.alloc(), &[3])?)?, 4);
    let text: &[u8] = b"2 start\n3 atom echo <- 2\n4 end <- 3\n";
    assert_eq!(rt; graph.text()?.as_slice(), text);
    Ok(())
}

#[test]
fn a_label_stays_on_its_line(rt: HostRuntime) -> Result<(), Fail> {
    let mut graph = Graph::start(rt.alloc())?;
    begin(&mut graph, rt.alloc(), "stage", "a\\b\nc\rd")?;
    let text: &[u8] = b"2 start\n3 block stage <- 2\n4 body a\\\\b\\nc\\rd <- 3\n";
    assert_eq!(rt; graph.text()?.as_slice(), text);
    Ok(())
}

#[test]
fn a_graph_of_65536_nodes_takes_the_end_alone(rt: HostRuntime) -> Result<(), Fail> {
    let mut graph = long_graph(rt.alloc(), 65535)?;
    assert_eq!(rt;
        next(&mut graph, rt.alloc(), NodeKind::Atom, "echo", 0),
        Ok(65537)
    );
    assert_eq!(rt;
        next(&mut graph, rt.alloc(), NodeKind::Atom, "echo", 0),
        Err(NodeRefusal::NodeLimit)
    );
    assert_eq!(rt; graph.nodes().len(), 65536);
    assert_eq!(rt; graph.end(Ids::from_slice(rt.alloc(), &[65537])?)?, 65538);
    assert_eq!(rt; graph.nodes().len(), 65537);
    Ok(())
}
