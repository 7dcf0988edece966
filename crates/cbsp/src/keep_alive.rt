// The times of a Keep Alive Repetition Period.
ghost use Rattle.std.specs.Prelude.{◌≡◌, length};
ghost use Rattle.cbsp.specs.KeepAlive.{Edges, Stepped, seconds_of, times};

// The seconds of the codes from 1 on.
pub const SECONDS: [u8; 38] = [
    1, 2, 3, 4, 5, 6, 7, 8, 9, 10, 12, 14, 16, 18, 20, 22, 24, 26, 28, 30, 35, 40, 45, 50, 55, 60,
    65, 70, 75, 80, 85, 90, 95, 100, 105, 110, 115, 120,
];

// The seconds of a code, nothing where the code has none.
pub fn seconds(code: u8) -> Option<u8>
    ensures { result ≡ seconds_of code }
{
    let place = usize::from(code).checked_sub(1)?;
    // by the index: of `get` on a constant array a proof knows nothing
    if place < SECONDS.len() {
        Some(SECONDS[place])
    } else {
        None
    }
}

// The largest code.
pub fn last_code() -> usize
    ensures { result ≡ length times }
{
    SECONDS.len()
}

// Holds the law of the table: it rises by its rule from the first code to the last.
pub fn times_rise_by_rule()
    ensures stepped { Stepped }
    ensures edges { Edges }
{}
