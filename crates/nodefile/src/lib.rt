// The node file: reading its fields and its parts. Every function takes any bytes.
#![tactic(auto)]

pub mod kinds;
pub mod node;

// How many names a file may have (document 01, number 3; specs/Limits, many_names).
pub const MOST_NAMES: usize = 1024;

ghost use Rattle.std.specs.Prelude.{◌≡◌, ◌+◌, ◌*◌, ◌^◌, ◌≤◌, ◌<◌};
ghost use Rattle.bits.specs.Field.{field_of};
ghost use Rattle.nodefile.specs.Node.{Is, kind_of, node_zero, size_of, value_of, source_of};
ghost use Rattle.nodefile.specs.Layout.{version, reexport, head_zero, node_count, name_count, entry_count, global_count, pool_bytes};
ghost use Rattle.nodefile.specs.Layout.{names_at, entries_at, globals_at, pool_at, nodes_of, names_of, entries_of, globals_of, pool_of};
ghost use Rattle.nodefile.specs.Lists.{name_off, name_len, spelled, hidden, entry_name, entry_public, entry_slot, global_name};

// ---- the node that t starts with

pub fn kind(t: &[u8]) -> u64
    ensures { Is (kind_of t.now) 32 result }
{
    bits::field(t, 0, 5)
}

pub fn node_zero(t: &[u8]) -> u64
    ensures { Is (node_zero t.now) 8 result }
{
    bits::field(t, 5, 3)
}

pub fn size(t: &[u8]) -> u64
    ensures { Is (size_of t.now) (2 ^ 16) result }
{
    bits::field(t, 8, 16)
}

pub fn value(t: &[u8]) -> u64
    ensures { Is (value_of t.now) (2 ^ 16) result }
{
    bits::field(t, 24, 16)
}

pub fn source(t: &[u8]) -> u64
    ensures { Is (source_of t.now) (2 ^ 24) result }
{
    bits::field(t, 40, 24)
}

// ---- the header of a file

pub fn version(file: &[u8]) -> u64
    ensures { Is (version file.now) 16 result }
{
    bits::field(file, 0, 4)
}

// As a number, as of `entry_public`: each clause is of the field's number.
pub fn reexport(file: &[u8]) -> u64
    ensures { Is (reexport file.now) 2 result }
{
    bits::field(file, 4, 1)
}

pub fn head_zero(file: &[u8]) -> u64
    ensures { Is (head_zero file.now) 8 result }
{
    bits::field(file, 5, 3)
}

pub fn node_count(file: &[u8]) -> u64
    ensures { Is (node_count file.now) (2 ^ 16) result }
{
    bits::field(file, 8, 16)
}

pub fn name_count(file: &[u8]) -> u64
    ensures { Is (name_count file.now) (2 ^ 16) result }
{
    bits::field(file, 24, 16)
}

pub fn entry_count(file: &[u8]) -> u64
    ensures { Is (entry_count file.now) (2 ^ 16) result }
{
    bits::field(file, 40, 16)
}

pub fn global_count(file: &[u8]) -> u64
    ensures { Is (global_count file.now) (2 ^ 16) result }
{
    bits::field(file, 56, 16)
}

pub fn pool_bytes(file: &[u8]) -> u64
    ensures { Is (pool_bytes file.now) (2 ^ 24) result }
{
    bits::field(file, 72, 24)
}

// ---- the parts of a file, as far as it has them

fn names_at(file: &[u8]) -> usize
    ensures { Is (names_at file.now) (2 ^ 20) result }
{
    12 + 8 * node_count(file) as usize
}

fn entries_at(file: &[u8]) -> usize
    ensures { Is (entries_at file.now) (2 ^ 21) result }
{
    names_at(file) + 3 * name_count(file) as usize
}

fn globals_at(file: &[u8]) -> usize
    ensures { Is (globals_at file.now) (2 ^ 22) result }
{
    entries_at(file) + 4 * entry_count(file) as usize
}

fn pool_at(file: &[u8]) -> usize
    ensures { Is (pool_at file.now) (2 ^ 23) result }
{
    globals_at(file) + 2 * global_count(file) as usize
}

pub fn nodes(file: &[u8]) -> &[u8]
    ensures { result.now ≡ nodes_of file.now }
{
    base::part(file, 12, 8 * node_count(file) as usize)
}

pub fn names(file: &[u8]) -> &[u8]
    ensures { result.now ≡ names_of file.now }
{
    base::part(file, names_at(file), 3 * name_count(file) as usize)
}

pub fn entries(file: &[u8]) -> &[u8]
    ensures { result.now ≡ entries_of file.now }
{
    base::part(file, entries_at(file), 4 * entry_count(file) as usize)
}

pub fn globals(file: &[u8]) -> &[u8]
    ensures { result.now ≡ globals_of file.now }
{
    base::part(file, globals_at(file), 2 * global_count(file) as usize)
}

pub fn pool(file: &[u8]) -> &[u8]
    ensures { result.now ≡ pool_of file.now }
{
    base::part(file, pool_at(file), pool_bytes(file) as usize)
}

// ---- names, module entries and globals, in their own parts

// The field of width bits at bit at of record k, in a list of records of so many bytes.
fn record_field(list: &[u8], bytes: usize, k: usize, at: usize, width: usize) -> u64
    requires { (0 < bytes) × (width ≤ 32) }
    ensures { Is (field_of list.now (8 * bytes * k + at) width) (2 ^ width) result }
{
    if k > list.len() / bytes {
        return 0;
    }
    let start = bytes * k;
    bits::field(&list[start..], at, width)
}

pub fn name_offset(nm: &[u8], k: usize) -> u64
    ensures { Is (name_off nm.now k) (2 ^ 16) result }
{
    record_field(nm, 3, k, 0, 16)
}

pub fn name_length(nm: &[u8], k: usize) -> u64
    ensures { Is (name_len nm.now k) 256 result }
{
    record_field(nm, 3, k, 16, 8)
}

// The spelling of name k. (Names and pool are two parts of the file, and the clauses speak of each.)
pub fn spelled<'a>(nm: &[u8], pool: &'a [u8], k: usize) -> &'a [u8]
    ensures { result.now ≡ spelled nm.now pool.now k }
{
    base::part(
        pool,
        name_offset(nm, k) as usize,
        name_length(nm, k) as usize,
    )
}

// Whether name k begins with `_`.
pub fn hidden(nm: &[u8], pool: &[u8], k: usize) -> bool
    ensures { result ≡ hidden nm.now pool.now k }
{
    spelled(nm, pool, k).first() == Some(&95)
}

pub fn entry_name(es: &[u8], k: usize) -> u64
    ensures { Is (entry_name es.now k) (2 ^ 16) result }
{
    record_field(es, 4, k, 0, 16)
}

pub fn entry_public(es: &[u8], k: usize) -> u64
    ensures { Is (entry_public es.now k) 2 result }
{
    record_field(es, 4, k, 16, 1)
}

pub fn entry_slot(es: &[u8], k: usize) -> u64
    ensures { Is (entry_slot es.now k) (2 ^ 15) result }
{
    record_field(es, 4, k, 17, 15)
}

pub fn global_name(gs: &[u8], k: usize) -> u64
    ensures { Is (global_name gs.now k) (2 ^ 16) result }
{
    record_field(gs, 2, k, 0, 16)
}
