// What is written reads back: the laws stand in the contracts.
ghost use Rattle.digits.specs.Laws.{Sixteen, ReadBack, WrittenBack, FieldBack, SignedBack, BytesBack};

pub fn lines_turn_back()
    ensures sixteen { Sixteen }
    ensures read_back { ReadBack }
    ensures written_back { WrittenBack }
{}

pub fn numbers_turn_back()
    ensures field_back { FieldBack }
    ensures signed_back { SignedBack }
    ensures bytes_back { BytesBack }
{}
