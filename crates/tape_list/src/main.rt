// Lists the tape on standard input: its heading in words, a line for each item, and how it ends.
#![tactic(auto)]

use listing::list_bytes;
use std::io::Read;
use tape::refusal::MOST_BYTES;

// One byte past the limit shows that a tape is too long, so no more is ever read.
const MOST_INPUT: u64 = MOST_BYTES as u64 + 1;

fn main(rt: HostRuntime) -> anyhow::Result<()> {
    let mut bytes = Vec::new(rt.alloc());
    rt.stdin().take(MOST_INPUT).read_to_end(&mut bytes)?;
    let text = list_bytes(rt.alloc(), &bytes)?;
    print!(rt; "{text}")?;
    Ok(())
}
