// An input of a table, a line `--`, then lines: its parts, as its bytes arrive.
#![tactic(auto)]

ghost use Rattle.std.specs.Prelude.{◌≡◌, ◌≤◌, length};
ghost use Rattle.splitter.specs.Split.{is_dashes};
ghost use Rattle.splitter.specs.Parts.{LineOf, TableOf, part_in, unclosed_part};

// This number of bytes with no line `--` in them is too many for a table: the longest text, the two dashes, and one more.
pub const TOO_MANY: usize = text::BYTES + 3;

// Where a part at the front of the bytes ends, and where what comes after it begins.
#[derive(Clone, Copy)]
pub struct Part {
    pub end: usize,
    pub next: usize,
}

// Whether a line is `--`.
pub fn is_dashes(line: &[u8]) -> bool
    ensures { result ≡ is_dashes line.now }
{
    line == b"--".as_slice()
}

// The line at the front, once it has ended or the input has; one of `most` bytes is handed on before it has ended.
// The bytes and whether the input has ended are no struct: the public feeds of a session and of a check take both.
pub fn line(bytes: &[u8], most: usize, ended: bool) -> Option<Part>
    ensures { LineOf bytes.now most ended (part_in bytes.now result) }
{
    let end = text::line::end_from(bytes, 0, b'\n');
    if end < bytes.len() {
        return Some(Part { end, next: end + 1 });
    }
    if (ended & (0 < end)) | (most <= end) {
        return Some(Part { end, next: end });
    }
    None
}

// The table that no line `--` has ended, whose last line begins at `from`: all bytes where the input has ended, but for a last line `--`; or too many bytes.
fn unclosed(bytes: &[u8], from: usize, ended: bool) -> Option<Part>
    requires { from ≤ length bytes.now }
    ensures { part_in bytes.now result ≡ unclosed_part bytes.now from ended }
{
    let count = bytes.len();
    if ended & is_dashes(&bytes[from..]) {
        return Some(Part {
            end: from,
            next: count,
        });
    }
    if ended | (TOO_MANY <= count) {
        return Some(Part {
            end: count,
            next: count,
        });
    }
    None
}

// The table's text at the front, once a line `--` has ended after it or the input has; too many bytes for a table are handed on as they are.
// The bytes and the end, as in `line`.
pub fn table(bytes: &[u8], ended: bool) -> Option<Part>
    ensures { TableOf bytes.now ended (part_in bytes.now result) }
{
    let mut at: usize = 0;
    // no plainer as a chain: where a part ends and the next begins is a place in the bytes, which `split` does not hand on
    while at < bytes.len() {
        let end = text::line::end_from(bytes, at, b'\n');
        if end == bytes.len() {
            return unclosed(bytes, at, ended);
        }
        if is_dashes(&bytes[at..end]) {
            return Some(Part {
                end: at,
                next: end + 1,
            });
        }
        at = end + 1;
    }
    unclosed(bytes, at, ended)
}
