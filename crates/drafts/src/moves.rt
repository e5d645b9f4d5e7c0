// Bytes put and moved in lent memory. The memory is the caller's and the count of used bytes the
// draft's, so no type holds both.
ghost use Rattle.std.specs.Prelude.{◌≡◌, ◌+◌, ◌≤◌, ◌++◌, length, take, drop};
ghost use Rattle.changes.specs.Edits.{ended};

// Puts bytes behind the used ones, and answers how many are used then.
pub(crate) fn append(memory: &mut [u8], used: usize, bytes: &[u8]) -> usize
    requires { used + length bytes.now ≤ length memory.old }
    ensures used { result ≡ used + length bytes.now }
    ensures holds { take result memory.new ≡ take used memory.old ++ bytes.now }
{
    let end = used + bytes.len();
    memory[used..end].copy_from_slice(bytes);
    end
}

// Puts bytes in place of `gone` used ones at `at`, moves along what is behind them, and answers how
// many are used then.
pub(crate) fn splice(memory: &mut [u8], used: usize, at: usize, gone: usize, bytes: &[u8]) -> usize
    requires inside { at + gone ≤ used }
    requires used { used ≤ length memory.old }
    requires room { used + length bytes.now ≤ length memory.old + gone }
    ensures used { result + gone ≡ used + length bytes.now }
    ensures holds { take result memory.new ≡ take at (take used memory.old) ++ (bytes.now ++ drop (at + gone) (take used memory.old)) }
{
    let end = at + bytes.len();
    memory.copy_within(at + gone..used, end);
    memory[at..end].copy_from_slice(bytes);
    end + (used - (at + gone))
}

// Puts a line with its line end in between the used bytes at `at`, moves what is behind along once,
// and answers how many are used then.
pub(crate) fn insert_line(memory: &mut [u8], used: usize, at: usize, line: &[u8]) -> usize
    requires inside { at ≤ used }
    requires room { used + (length line.now + 2) ≤ length memory.old }
    ensures used { result ≡ used + (length line.now + 2) }
    ensures holds { take result memory.new ≡ take at (take used memory.old) ++ (ended line.now ++ drop at (take used memory.old)) }
{
    let end = at + line.len();
    memory.copy_within(at..used, end + 2);
    memory[at..end].copy_from_slice(line);
    memory[end..end + 2].copy_from_slice(b"\r\n");
    used + line.len() + 2
}
