//! The parts of a trial.

use std::alloc::{AllocError, Global};

/// The agents file of a trial that has none of its own: the job `demo`, and one agent with one executor.
const ONE_EXECUTOR: &str = r#"{"job":"demo","agents":[{"name":"m","root":"/w","executors":1}]}"#;

/// A script, and what happens to it, in order.
#[derive(Drop)]
pub struct Trial<'a> {
    /// The bytes of the script.
    pub script: Vec<u8>,
    /// A line for each thing that happens, without its `> `.
    pub orders: Vec<&'a str>,
}

impl<'a> Trial<'a> {
    /// The agents file of a trial: that of its order `agents`, or else one with one executor.
    pub fn agents(&self) -> &'a str {
        for line in self.orders.iter() {
            if let Some(agents) = line.strip_prefix("agents ") {
                return agents;
            }
        }
        ONE_EXECUTOR
    }
}

/// Reads the text of a trial: the line of its name, and then lines of the script, and of orders behind `> `.
/// `AllocError` where the memory was refused.
pub fn read_trial(alloc: Global, text: &str) -> Result<Trial<'_>, AllocError> {
    let mut script = Vec::new(alloc);
    let mut orders = Vec::new(alloc);
    for line in text.lines().skip(1) {
        match line.strip_prefix("> ") {
            Some(order) => orders.push(order)?,
            None => {
                script.extend_from_slice(line.as_bytes())?;
                script.push(b'\n')?;
            }
        }
    }
    Ok(Trial { script, orders })
}

/// The first word of a line, and what stands behind the blank after it; nothing where there is no blank.
pub fn split_word(line: &str) -> (&str, &str) {
    line.split_once(" ").unwrap_or((line, ""))
}

/// A number of decimal digits below 4294967296; 0 where it is none.
pub fn number_of(digits: &str) -> u32 {
    digits.parse::<u32>().unwrap_or(0)
}
