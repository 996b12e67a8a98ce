//! The octets of a line (RFC 2371, section 11).
ghost use Rattle.std.specs.Prelude.{◌≡◌};
ghost use Rattle.std.specs.List.{list_all, position_or_len};
ghost use Rattle.tip_line.specs.Octets.{is_end, is_printable, is_space, without_front, text_of};

/// Whether an octet ends a line.
pub fn is_end(octet: u8) -> bool
    ensures { result ≡ is_end octet }
{
    matches!(octet, b'\r' | b'\n')
}

/// Whether an octet is one that a line may have.
pub(crate) fn is_printable(octet: u8) -> bool
    ensures { result ≡ is_printable octet }
{
    matches!(octet, b' '..=b'~')
}

/// Whether a line has no octet but spaces.
pub fn is_blank(line: &[u8]) -> bool
    ensures { result ≡ list_all is_space line.now }
{
    line.iter().all(|octet| *octet == b' ')
}

/// A line without the spaces at its front.
pub(crate) fn without_front(line: &[u8]) -> &[u8]
    ensures { result.now ≡ without_front line.now }
{
    let mut text = line;
    while let [b' ', rest @ ..] = text {
        text = rest;
    }
    text
}

/// A line without the spaces at its ends.
pub(crate) fn without_spaces(line: &[u8]) -> &[u8]
    ensures { result.now ≡ text_of line.now }
{
    let mut text = without_front(line);
    while let [rest @ .., b' '] = text {
        text = rest;
    }
    text
}

/// How many octets stand before the first space.
pub(crate) fn word_len(text: &[u8]) -> usize
    ensures { result ≡ position_or_len is_space text.now }
{
    text.iter().take_while(|octet| **octet != b' ').count()
}
