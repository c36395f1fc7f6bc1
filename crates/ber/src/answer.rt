// What a reader of records answers, as a number of the refusal table: the readers of records share this, as their writers share `written`.
ghost use Rattle.std.specs.Prelude.{◌≡◌};
ghost use Rattle.ber.specs.Answer.{answer_of};

// 0 where there is a record, and 20 where there is none.
pub fn answer_of<T>(read: &Option<T>) -> u8
    ensures { result ≡ answer_of read.now }
{
    match read {
        Some(_) => 0,
        None => 20,
    }
}
