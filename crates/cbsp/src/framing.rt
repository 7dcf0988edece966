// Where the first message of a stream of octets ends.
ghost use Rattle.std.specs.Prelude.{◌≡◌, length, Some, None, if◌then◌else◌, nat_lt};
ghost use Rattle.cbsp.specs.Framing.{WithinFrame, announced, first_length};

use crate::refusal::Refusal;

// The type octet and the Length Indicator.
pub const HEADER: usize = 4;

// The most octets that a message has, its header among them.
pub const LONGEST: usize = 2048;

// The whole length that the header at the front announces, nothing while that is not there.
pub fn announced(octets: &[u8]) -> Option<usize>
    ensures { result ≡ (if nat_lt (length octets.now) 4 then None else Some (announced octets.now)) }
{
    let [_, high, middle, low, ..] = octets else {
        return None;
    };
    // as: no From makes a usize of four octets
    let body = u32::from_be_bytes([0, *high, *middle, *low]);
    Some(HEADER + body as usize)
}

// The length of the first message, nothing while it is not whole.
pub fn first_length(octets: &[u8]) -> Result<Option<usize>, Refusal>
    ensures answer { result ≡ first_length octets.now }
    ensures within { WithinFrame octets.now result }
{
    let Some(whole) = announced(octets) else {
        return Ok(None);
    };
    if whole > LONGEST {
        return Err(Refusal::MessageTooLong);
    }
    if octets.len() < whole {
        return Ok(None);
    }
    Ok(Some(whole))
}
