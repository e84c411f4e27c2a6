use generated_build::{generated_files, summary};
use model_run::{BuildResult, FlowNode, NodeKind};
use model_text::{Ids, Text};
use std::test::Fail;

const SCRIPT: &[u8] = b"total = 0
seen = []
stage('S1') {
  total = total + 1
  seen.add(total)
  echo \"stage 1 total ${total}\"
  node { sh 'run 1' }
}
echo \"sum ${total} of ${seen.size()}\"
";

const AGENTS: &[u8] = br#"{"job":"gen","agents":[{"name":"gen","root":"/gen","executors":1}]}"#;

#[test]
fn a_stage_is_made_of_its_lines_and_its_numbers_are_told(rt: HostRuntime) -> Result<(), Fail> {
    let alloc = rt.alloc();
    let files = generated_files(alloc, 1)?;
    assert_eq!(rt; files.script.as_slice(), SCRIPT);
    assert_eq!(rt; files.agents.as_slice(), AGENTS);
    let task = FlowNode {
        id: 2,
        kind: NodeKind::Atom,
        name: Text::from_str(alloc, "sh")?,
        start: 0,
        parents: Ids::new(alloc),
    };
    let lines = summary(alloc, 1, &[task], 4, 319, BuildResult::Success)?;
    assert_eq!(rt;
        lines.as_str(),
        "stages 1\nnodes 1\ntasks 1\nrecords 4\nlog 319\nresult SUCCESS\n"
    );
    Ok(())
}
