// Cells as the calls show them: signed numbers.
ghost use Rattle.std.specs.Prelude.{◌≡◌};
ghost use Rattle.primitives.specs.Answers.{shown_of};

// The signed number that a cell shows.
pub fn signed(c: u64) -> i64
    ensures { result ≡ shown_of c }
{
    c.cast_signed()
}
