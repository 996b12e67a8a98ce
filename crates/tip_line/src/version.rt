//! Versions of the protocol, as IDENTIFY and IDENTIFIED say them (RFC 2371, section 13).
ghost use Rattle.std.specs.Prelude.{◌≡◌};
ghost use Rattle.tip_line.specs.Version.{version_of, number_from};

/// How many digits a version may have.
const MOST_DIGITS: usize = 9;

/// The version that a word says, if it is one: 1 to 9 digits, zeros in front allowed.
pub fn version_of(word: &[u8]) -> Option<u32>
    ensures { result ≡ version_of word.now }
{
    if word.is_empty() || word.len() > MOST_DIGITS {
        return None;
    }
    let mut version = 0;
    for digit in word {
        if !digit.is_ascii_digit() {
            return None;
        }
        version = 10 * version + u32::from(*digit - b'0');
    }
    Some(version)
}
