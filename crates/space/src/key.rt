// The key of a point: D × 128 + id, one number whose order is the order from the query (`rules` Order `keyed`, `laws` Keyed). As a struct of D and id with a
// derived order it takes a line of 128 points 1.7 times as long to be put in order (5.7 against 3.3 µs), so it stays a number.
// It is formed in `Asked::key` and in the rows of `table` alone: a function for that would take every D, and of a D over 2^25 there is no such number.
ghost use Rattle.std.specs.Prelude.{◌≡◌, ◌/◌, ◌%◌};

// The id in a key.
pub fn id_of(key: u32) -> u16
    ensures { result ≡ key % 128 }
{
    // The rest is below 128, so that the cast loses nothing.
    (key % 128) as u16
}

// D in a key.
pub fn distance_of(key: u32) -> u32
    ensures { result ≡ key / 128 }
{
    key / 128
}
