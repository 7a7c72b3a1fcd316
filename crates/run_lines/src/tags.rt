//! The tag that a line may end with.
ghost use Rattle.std.specs.Prelude.{◌≡◌, ◌==◌, ◌&&◌, ◌+◌, ◌<◌, get_or, length};
ghost use Rattle.run_lines.specs.Tags.{before_tag};

/// The byte that begins a tag, after a space.
const HASH: u8 = 35;

/// The byte before it.
const SPACE: u8 = 32;

/// What a line says before its tag: what stands before the first ` #`.
pub fn without_tag(line: &[u8]) -> &[u8]
    ensures { result.now ≡ before_tag line.now }
{
    for i in 1..line.len() {
        if is_tag_at(line, i - 1) {
            return &line[..i - 1];
        }
    }
    line
}

/// Whether a space and a `#` stand at an index.
fn is_tag_at(line: &[u8], i: usize) -> bool
    requires { i + 1 < length line.now }
    ensures { result ≡ ((get_or line.now i 0 == 32) && (get_or line.now (i + 1) 0 == 35)) }
{
    line[i] == SPACE && line[i + 1] == HASH
}
