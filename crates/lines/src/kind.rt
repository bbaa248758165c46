// The label kinds, as they are named.
ghost use Rattle.std.specs.Prelude.{◌≡◌, Some};
ghost use Rattle.std.specs.Option.{ok_or};
ghost use Rattle.lines.specs.declared.line.Malformed.TheVariants as malformed;
ghost use Rattle.lines.specs.Kinds.{name_of, kind_of};
ghost use Rattle.lines.specs.Fields.{kind_reads, kind_text};

use crate::field::Field;
use crate::line::Malformed;
use std::fmt;
use std::str::FromStr;

/// A label kind that a line can name.
#[derive(Clone, Copy)]
pub enum KindName {
    Measure,
    Mark,
    /// the pair of the measure and the mark
    Both,
}

impl FromStr for KindName {
    type Err = Malformed;

    ghost from_str_gives = { λ name r. r ≡ ok_or (kind_of name) malformed.LayFields };

    fn from_str(name: &str) -> Result<KindName, Malformed> {
        match name {
            "measure" => Ok(KindName::Measure),
            "mark" => Ok(KindName::Mark),
            "both" => Ok(KindName::Both),
            _ => Err(Malformed::LayFields),
        }
    }
}

impl Field for KindName {
    ghost value_of = { kind_of };

    ghost laws = { record { read = kind_reads; text = kind_text } };
}

impl fmt::Display for KindName {
    ghost output = { λ k. Some (name_of k) };

    fn fmt<W: fmt::Write>(&self, f: &mut fmt::Formatter<W>) -> fmt::Result {
        match self {
            KindName::Measure => f.write_str("measure"),
            KindName::Mark => f.write_str("mark"),
            KindName::Both => f.write_str("both"),
        }
    }
}
