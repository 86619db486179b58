// Numbers 2, 3 and 4: the header, and the length of the file.
#![tactic(auto)]

ghost use Rattle.base.specs.First.{First};
ghost use Rattle.base.specs.Refusals.{answered};
ghost use Rattle.base.specs.Says.{Says};
ghost use Rattle.header.specs.Header.{BadHeader, BadCounts, BadLength, header_rows};

use base::Refusal;

// How much of each a file may have (document 01, number 3), each a limit of its own; names have theirs in nodefile.
const MOST_NODES: u64 = 2048;

const MOST_ENTRIES: u64 = 256;

const MOST_GLOBALS: u64 = 256;

const MOST_POOL_BYTES: u64 = 16384;

// Number 2: fewer than 12 bytes, version not 1, or zero bits set.
fn bad_header(file: &[u8]) -> bool
    ensures { Says result (BadHeader file.now) }
{
    file.len() < 12 || nodefile::version(file) != 1 || nodefile::head_zero(file) != 0
}

// Number 3: a count out of range.
fn bad_counts(file: &[u8]) -> bool
    ensures { Says result (BadCounts file.now) }
{
    nodefile::node_count(file) == 0
        || nodefile::node_count(file) > MOST_NODES
        || nodefile::name_count(file) > nodefile::MOST_NAMES as u64
        || nodefile::entry_count(file) > MOST_ENTRIES
        || nodefile::global_count(file) > MOST_GLOBALS
        || nodefile::pool_bytes(file) > MOST_POOL_BYTES
}

// Number 4: the length is not what the header says.
fn bad_length(file: &[u8]) -> bool
    ensures { Says result (BadLength file.now) }
{
    let nodes = nodefile::node_count(file);
    let names = nodefile::name_count(file);
    let entries = nodefile::entry_count(file);
    let globals = nodefile::global_count(file);
    let pool = nodefile::pool_bytes(file);
    file.len() as u64 != 12 + 8 * nodes + 3 * names + 4 * entries + 2 * globals + pool
}

// Numbers 2 to 4.
pub fn judge_header(file: &[u8]) -> Result<(), Refusal>
    ensures { First (header_rows file.now) (answered result) }
{
    if bad_header(file) {
        return Err(Refusal::Header);
    }
    if bad_counts(file) {
        return Err(Refusal::Counts);
    }
    if bad_length(file) {
        return Err(Refusal::Length);
    }
    Ok(())
}
