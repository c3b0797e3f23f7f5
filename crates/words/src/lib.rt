// What the files' bytes say: words of two and four bytes, the mark and ranges.
#![tactic(auto)]

ghost use Rattle.std.specs.Prelude.{◌≡◌, ◌+◌, ◌≤◌, length};
ghost use Rattle.words.specs.Words.{byte_at, word_at, long_at, marked, outside};

// The byte at a place, and 0 past the end.
pub fn byte_at(s: &[u8], at: usize) -> u8
    ensures { result ≡ byte_at s.now at }
{
    s.get(at).copied().unwrap_or(0)
}

// The two bytes at a place, low byte first; bytes past the end are 0.
pub fn word_at(s: &[u8], at: usize) -> u16
    ensures { result ≡ word_at s.now at }
{
    if at < s.len() {
        u16::from_le_bytes([byte_at(s, at), byte_at(s, at + 1)])
    } else {
        0
    }
}

// The four bytes at a place, low byte first; bytes past the end are 0.
pub fn long_at(s: &[u8], at: usize) -> u32
    ensures { result ≡ long_at s.now at }
{
    if at < s.len() {
        u32::from_le_bytes([
            byte_at(s, at),
            byte_at(s, at + 1),
            byte_at(s, at + 2),
            byte_at(s, at + 3),
        ])
    } else {
        0
    }
}

// A word inside the bytes.
pub fn word_in(s: &[u8], at: usize) -> u16
    requires { at + 2 ≤ length s.now }
    ensures { result ≡ word_at s.now at }
{
    u16::from_le_bytes([s[at], s[at + 1]])
}

// Whether the bytes begin with the three of a mark. Not by `starts_with`: where fewer stand there, the others count as 0.
pub fn is_marked(s: &[u8], mark: &[u8; 3]) -> bool
    ensures { result ≡ marked s.now (byte_at mark.now 0) (byte_at mark.now 1) (byte_at mark.now 2) }
{
    [byte_at(s, 0), byte_at(s, 1), byte_at(s, 2)] == *mark
}

// Whether a number is out of its range.
pub fn is_outside(least: usize, most: usize, n: usize) -> bool
    ensures { result ≡ outside least most n }
{
    n < least || most < n
}
