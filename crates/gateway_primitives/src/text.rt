// The text check: how many bytes at the front of a text are well-formed UTF-8. It is text where that is all of it.
ghost use Rattle.std.specs.Prelude.{◌≡◌};
ghost use Rattle.layout.specs.Utf8.{well_formed};

pub fn befrolan_well_formed(text: &[u8]) -> u64
    ensures { result ≡ well_formed text.now }
{
    utf8::well_formed(text) as u64
}
