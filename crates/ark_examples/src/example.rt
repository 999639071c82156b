use std::alloc::Global;

/// What stands between a line and its reply.
const BESIDE: &str = "=>";

/// A script with the replies that stand beside its lines.
#[derive(Drop)]
pub struct Example {
    /// The lines, each with its newline.
    pub script: String,
    /// The replies, each with its newline.
    pub replies: String,
    /// How many lines there are.
    pub lines: u64,
}

impl Example {
    /// Reads lines of the form `LINE => REPLY`. What else stands there is a remark.
    pub fn read(alloc: Global, text: &str) -> anyhow::Result<Example> {
        let mut example = Example {
            script: String::new(alloc),
            replies: String::new(alloc),
            lines: 0,
        };
        for line in text.lines() {
            if let Some((line, reply)) = line.split_once(BESIDE) {
                example.add(line.trim(), reply.trim())?;
            }
        }
        Ok(example)
    }

    fn add(&mut self, line: &str, reply: &str) -> anyhow::Result<()> {
        self.script.push_str(line)?;
        self.script.push('\n')?;
        self.replies.push_str(reply)?;
        self.replies.push('\n')?;
        self.lines = self.lines.saturating_add(1);
        Ok(())
    }
}
