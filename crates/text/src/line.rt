// One line of the input: where it or a word of it ends, and the number that it represents.
ghost use Rattle.std.specs.Prelude.{◌≡◌, ◌+◌, drop};
ghost use Rattle.text.specs.Input.{length_to, parse_number};

// Where a line or a word that starts at `from` ends: before its mark, a newline or a space, or at the end of the bytes.
pub fn end_from(bytes: &[u8], from: usize, mark: u8) -> usize
    ensures { result ≡ from + length_to mark (drop from bytes.now) }
{
    if bytes.len() < from {
        return from;
    }
    let rest = &bytes[from..];
    from + rest
        .iter()
        .position(|byte| *byte == mark)
        .unwrap_or(rest.len())
}

// The number of a line of one to ten digits, up to 4,294,967,295.
// By hand: `parse` takes a plus sign, and more than ten digits. A sentence's numbers have other limits: no zero in front, below 2^64.
pub fn number(line: &[u8]) -> Option<u32>
    ensures { result ≡ parse_number line.now }
{
    if line.is_empty() || crate::DIGITS < line.len() {
        return None;
    }
    let mut value: u64 = 0;
    for byte in line {
        if !byte.is_ascii_digit() {
            return None;
        }
        value = value * 10 + (*byte - b'0') as u64;
    }
    u32::try_from(value).ok()
}
