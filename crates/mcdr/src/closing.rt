// What a record's cause has to do with its number, its changes and its closing.
ghost use Rattle.std.specs.Prelude.{◌≡◌};
ghost use Rattle.mcdr.specs.Rules.{detach, cause_ok, full_ok, closing_ok, number_ok};

// A detach closes with 0 or 4.
pub fn is_detach(cause: u8) -> bool
    ensures { result ≡ detach cause }
{
    (cause == 0) | (cause == 4)
}

pub fn cause_ok(cause: u8) -> bool
    ensures { result ≡ cause_ok cause }
{
    is_detach(cause) | (cause == 19) | (cause == 20)
}

// 19 exactly with fifteen changes.
pub fn full_ok(cause: u8, count: usize) -> bool
    ensures { result ≡ full_ok cause count }
{
    if cause == 19 {
        return count == 15;
    }
    count != 15
}

// The closing, not before the last change, at it under 19, and within the clock's range.
pub fn closing_ok(cause: u8, opening: u32, duration: u32, last: u32) -> bool
    ensures { result ≡ closing_ok cause opening duration last }
{
    let closing = opening as u64 + duration as u64;
    (last as u64 <= closing) & (!(cause == 19) | (closing == last as u64)) & (closing <= 3155759999)
}

// 1 to 10^15, or absent; absent only with a detach, and never 1 with one.
pub fn number_ok(cause: u8, number: u64) -> bool
    ensures { result ≡ number_ok cause number }
{
    if is_detach(cause) {
        return (number <= 1000000000000000) & !(number == 1);
    }
    (number <= 1000000000000000) & (1 <= number)
}
