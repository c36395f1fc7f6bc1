// A number of four octets' size in an INTEGER: a charging ID.
ghost use Rattle.std.specs.Prelude.{◌≡◌, ◌^◌, ltb};
ghost use Rattle.format.specs.Format.{refined};
ghost use Rattle.ber.specs.Int.{int};
ghost use Rattle.ber.specs.Field.{first};
ghost use Rattle.ber.specs.Read.{read_at};

use crate::field;

// The number below 2^32 under the tag at a place of s: five octets at most, because one from 2^31 on takes five.
pub fn word_at(s: &[u8], at: usize, tag: u8) -> Option<(u32, usize)>
    ensures { result ≡ read_at (first tag (refined (λ n. ltb n (2 ^ 32)) int)) s.now at }
{
    let (v, next) = field::int_at(s, at, tag)?;
    Some((u32::try_from(v).ok()?, next))
}
