//! The first line of a script.
ghost use Rattle.std.specs.Prelude.{◌≡◌, ◌≤◌, length, option_map};
ghost use Rattle.kr_calls.specs.Scripts.{script_of, is_cut, before, is_blank, is_newline, from_blank, without_leading_blanks, without_trailing_blanks, BeginsScript};

/// The first bytes of a file among which a script's line ends.
const LINE_LIMIT: usize = 255;

/// The interpreter and its argument, empty for none, on the first line of a script (execve(2)), whose head is the
/// first 256 bytes of the file, or all of a shorter one. `None` exactly where the line is refused: it doesn't end in
/// the first 255 bytes of a longer file, holds a zero byte, or has nothing but blanks.
pub fn script_line(head: &[u8]) -> Option<(&[u8], &[u8])>
    requires short { length head.now ≤ 256 }
    requires script { BeginsScript head.now }
    ensures { option_map (λ parts. (parts.0.now, parts.1.now)) result ≡ script_of head.now }
{
    if is_cut(head) {
        return None;
    }
    let line = up_to_newline(&head[2..]);
    if line.contains(&0) {
        return None;
    }
    let words = skip_last_blanks(skip_blanks(line));
    if words.is_empty() {
        return None;
    }
    let (interpreter, rest) = split_at_blank(words);
    Some((interpreter, skip_blanks(rest)))
}

/// Whether the line doesn't end where it has to.
fn is_cut(head: &[u8]) -> bool
    ensures { result ≡ is_cut head.now }
{
    head.len() > LINE_LIMIT && !head[..LINE_LIMIT].contains(&b'\n')
}

/// Whether a byte parts the words of a line.
fn is_blank(byte: u8) -> bool
    ensures { result ≡ is_blank byte }
{
    byte == b' ' || byte == b'\t'
}

/// The bytes before the first newline.
fn up_to_newline(bytes: &[u8]) -> &[u8]
    ensures { result.now ≡ before is_newline bytes.now }
{
    for (at, byte) in bytes.iter().enumerate() {
        if *byte == b'\n' {
            return &bytes[..at];
        }
    }
    bytes
}

/// The bytes before the first blank, and those from it on.
fn split_at_blank(bytes: &[u8]) -> (&[u8], &[u8])
    ensures before { result.0.now ≡ before is_blank bytes.now }
    ensures from { result.1.now ≡ from_blank bytes.now }
{
    for (at, byte) in bytes.iter().enumerate() {
        if is_blank(*byte) {
            return (&bytes[..at], &bytes[at..]);
        }
    }
    (bytes, &[])
}

/// The bytes from the first on that is no blank.
fn skip_blanks(bytes: &[u8]) -> &[u8]
    ensures { result.now ≡ without_leading_blanks bytes.now }
{
    for (at, byte) in bytes.iter().enumerate() {
        if !is_blank(*byte) {
            return &bytes[at..];
        }
    }
    &[]
}

/// The bytes up to the last that is no blank.
fn skip_last_blanks(bytes: &[u8]) -> &[u8]
    ensures { result.now ≡ without_trailing_blanks bytes.now }
{
    let mut end = bytes.len();
    while end > 0 && is_blank(bytes[end - 1]) {
        end -= 1;
    }
    &bytes[..end]
}
