//! Blanks: white space and comments (RFC 8610, appendix G.1 and G.6).

ghost use Rattle.std.specs.Prelude.{◌≡◌, ◌≤◌, ◌<◌, IfSome, MatchOption, None, Some, length};
ghost use Rattle.ciborium_value.specs.Tokens.{behind_blanks, behind_comment, behind_line, is_white};

/// Whether a byte is white space.
pub fn is_white(byte: u8) -> bool
    ensures { result ≡ is_white byte }
{
    matches!(byte, b' ' | b'\t' | b'\n' | b'\r')
}

/// What follows the blanks at the front, or `None` where a comment does not end.
pub fn skip_blanks(text: &[u8]) -> Option<&[u8]>
    ensures blanks { MatchOption result (behind_blanks text.now ≡ None)
        (λ rest. behind_blanks text.now ≡ Some rest.now) }
    ensures shorter { IfSome result (λ rest. length rest.now ≤ length text.now) }
{
    let mut rest = text;
    'blanks: while let [byte, behind @ ..] = rest {
        if is_white(*byte) {
            rest = behind;
        } else if *byte == b'/' {
            rest = skip_comment(behind)?;
        } else if *byte == b'#' {
            rest = skip_line(behind);
        } else {
            return Some(rest);
        }
    }
    Some(rest)
}

// What follows a comment up to its slash.
fn skip_comment(text: &[u8]) -> Option<&[u8]>
    ensures comment { MatchOption result (behind_comment text.now ≡ None)
        (λ rest. behind_comment text.now ≡ behind_blanks rest.now) }
    ensures shorter { IfSome result (λ rest. length rest.now < length text.now) }
{
    let mut rest = text;
    'comment: while let [byte, behind @ ..] = rest {
        if *byte == b'/' {
            return Some(behind);
        }
        rest = behind;
    }
    None
}

// What follows a comment up to the end of its line.
fn skip_line(text: &[u8]) -> &[u8]
    ensures line { behind_line text.now ≡ behind_blanks result.now }
    ensures shorter { length result.now ≤ length text.now }
{
    let mut rest = text;
    'line: while let [byte, behind @ ..] = rest {
        if *byte == b'\n' {
            return behind;
        }
        rest = behind;
    }
    rest
}
