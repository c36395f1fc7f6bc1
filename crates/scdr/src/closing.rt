// What a record's cause, number and SGSN change have to do with one another.
ghost use Rattle.std.specs.Prelude.{◌≡◌};
ghost use Rattle.scdr.specs.Rules.{release, cause_ok, number_ok, change_ok};

// A release closes with 0, 4 or 18.
pub fn is_release(cause: u8) -> bool
    ensures { result ≡ release cause }
{
    (cause == 0) | (cause == 4) | (cause == 18)
}

pub fn cause_ok(cause: u8) -> bool
    ensures { result ≡ cause_ok cause }
{
    is_release(cause) | (cause == 16) | (cause == 17) | (cause == 19) | (cause == 20)
}

// 1 to 10^15, or absent; absent only with a release, and never 1 with one.
pub fn number_ok(cause: u8, number: u64) -> bool
    ensures { result ≡ number_ok cause number }
{
    if is_release(cause) {
        return (number <= 1000000000000000) & !(number == 1);
    }
    (number <= 1000000000000000) & (1 <= number)
}

// SGSN change only with the number absent or 1.
pub fn change_ok(change: bool, number: u64) -> bool
    ensures { result ≡ change_ok change number }
{
    !change | (number <= 1)
}
