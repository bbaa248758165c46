// The law over rows of calls.
ghost use Rattle.calls.specs.Rows.{RowsKeepTheLaw, SameCallsSameAnswers};

use label::kind::Kind;

/// Does nothing: its promise is the law. Make any calls of a catalogue one after another, from its opening on, refused or not. Then
/// at every place the entries are the blocks of the enters that meet no condition of refusal, and each call answers what is defined
/// for them. Each listing has handed out the first of all pairings, by rising image of edge 1, each once, and ends when all are out.
/// Kin tells the families; within one, as many pairings carry a block onto another as onto itself. Part tells which edges share a
/// part: under a kind that contains the measure, those of which a pairing carries one to the other.
pub fn rows_keep_the_law<K: Kind>()
    ensures { RowsKeepTheLaw K.Kind.label K.Kind.same K.Kind.measured }
{}

/// Does nothing: its promise is that the calls alone decide. Two rows of the same calls, with the same in the buffers before each
/// step, have the same answers, and the same in the buffers after each step.
pub fn same_calls_same_answers<K: Kind>()
    ensures { SameCallsSameAnswers K.Kind.label K.Kind.same }
{}
