//! Where a head ends.
ghost use Rattle.std.specs.Prelude.{◌≡◌};
ghost use Rattle.http_messages.specs.HeadScan.{scan_from, next_place};

/// A place in a head: what the bytes before it are.
#[derive(Clone, Copy, Debug, PartialEq, Eq, Drop)]
pub enum HeadScanState {
    /// Only empty lines, or nothing.
    Lead,
    /// The same, and a CR.
    LeadReturn,
    /// A line that is not empty, and its end.
    Start,
    /// The same, and a CR.
    StartReturn,
    /// The first bytes of a line that is not empty.
    Middle,
}

/// How much of a head some bytes contain.
#[derive(Clone, Copy, Debug, PartialEq, Eq, Drop)]
pub enum Scan {
    /// A whole head of this many bytes, including the empty lines before it.
    Whole(usize),
    /// Less than a head: the bytes lead to this place.
    Open(HeadScanState),
}

/// The place to which a byte leads, or none if it ends the head.
fn place_after(place: HeadScanState, byte: u8) -> Option<HeadScanState>
    ensures { result ≡ next_place place byte }
{
    match place {
        HeadScanState::Lead => {
            if byte == b'\n' {
                Some(HeadScanState::Lead)
            } else if byte == b'\r' {
                Some(HeadScanState::LeadReturn)
            } else {
                Some(HeadScanState::Middle)
            }
        }
        HeadScanState::LeadReturn => {
            if byte == b'\n' {
                Some(HeadScanState::Lead)
            } else {
                Some(HeadScanState::Middle)
            }
        }
        HeadScanState::Start => {
            if byte == b'\n' {
                None
            } else if byte == b'\r' {
                Some(HeadScanState::StartReturn)
            } else {
                Some(HeadScanState::Middle)
            }
        }
        HeadScanState::StartReturn => {
            if byte == b'\n' {
                None
            } else {
                Some(HeadScanState::Middle)
            }
        }
        HeadScanState::Middle => {
            if byte == b'\n' {
                Some(HeadScanState::Start)
            } else {
                Some(HeadScanState::Middle)
            }
        }
    }
}

/// How much of a head the bytes contain, after those that led to this place. The bytes of a whole head are counted from
/// the first of these bytes.
pub fn scan_on(mut place: HeadScanState, bytes: &[u8]) -> Scan
    ensures { result ≡ scan_from place bytes.now }
{
    for (i, byte) in bytes.iter().enumerate() {
        match place_after(place, *byte) {
            Some(next) => place = next,
            None => return Scan::Whole(i + 1),
        }
    }
    Scan::Open(place)
}
