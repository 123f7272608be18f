//! Laws of reading and writing.

ghost use Rattle.std.specs.Prelude.{◌≡◌};
ghost use Rattle.thrift_compact.specs.SkipFaults.{SkippingFailsExactly};
ghost use Rattle.thrift_compact.specs.Laws.{NumbersReadExactly, NumbersFailExactly, BinariesFailExactly, ListsFailExactly, FieldsFailExactly, BinariesReadExactly, ListsReadExactly, FieldsReadExactly, ValuesSkipExactly, NumbersReadBack, BinariesReadBack, ListsReadBack, FieldsReadBack, StopsReadBack};

/// Each call of a cursor reads a value exactly where bytes of this value stand (Thrift compact protocol), and fails
/// exactly where the relations of faults say, with the fault's place.
pub fn reading_is_exact()
    ensures numbers { NumbersReadExactly }
    ensures numbers_fail { NumbersFailExactly }
    ensures binaries { BinariesReadExactly }
    ensures binaries_fail { BinariesFailExactly }
    ensures lists { ListsReadExactly }
    ensures lists_fail { ListsFailExactly }
    ensures fields { FieldsReadExactly }
    ensures fields_fail { FieldsFailExactly }
    ensures values { ValuesSkipExactly }
    ensures values_fail { SkippingFailsExactly }
{}

/// What an appender writes a cursor reads back, whatever stands before and behind it.
pub fn written_is_read()
    ensures numbers { NumbersReadBack }
    ensures binaries { BinariesReadBack }
    ensures lists { ListsReadBack }
    ensures fields { FieldsReadBack }
    ensures stops { StopsReadBack }
{}
