// The values that words write.
ghost use Rattle.std.specs.Prelude.{◌≡◌, ℕ, ◌^◌, List, Option};
ghost use Rattle.lines.specs.Numbers.{unsigned, signed};
ghost use Rattle.lines.specs.Fields.{ReadsValues, signed_reads, signed_text, unsigned_reads, unsigned_text};

use std::str;
use std::str::FromStr;

/// A value that a word of a line writes.
pub(crate) trait Field: FromStr {
    // the value that a word writes, if it writes one
    ghost value_of: { List ℕ → Option Self };

    // what is read of a word is that value, and a word that is no text writes none
    ghost laws: { ReadsValues Self.from_str_gives value_of };
}

impl Field for i64 {
    ghost value_of = { signed (2 ^ 63) };

    ghost laws = { record { read = λ word r gives. signed_reads word r gives.0; text = signed_text (2 ^ 63) } };
}

impl Field for usize {
    ghost value_of = { unsigned (2 ^ 64) };

    ghost laws = { record { read = λ word r gives. unsigned_reads 64 word r gives.0; text = unsigned_text (2 ^ 64) } };
}

impl Field for u8 {
    ghost value_of = { unsigned (2 ^ 8) };

    ghost laws = { record { read = λ word r gives. unsigned_reads 8 word r gives.0; text = unsigned_text (2 ^ 8) } };
}

/// The value that a word writes.
pub(crate) fn value<T: Field>(word: &[u8]) -> Option<T>
where
    T::Err: Drop,
    ensures { result ≡ T.value_of word.now }
{
    str::from_utf8(word).ok()?.parse().ok()
}
