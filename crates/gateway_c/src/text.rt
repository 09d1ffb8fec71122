// The text check.
ghost use Rattle.std.specs.Prelude.{◌≡◌};
ghost use Rattle.layout.specs.Utf8.{well_formed};

#[unsafe(no_mangle)]
pub extern "C" fn befrolan_well_formed(text: &[u8]) -> u64
    ensures { result ≡ well_formed text.now }
{
    gateway_primitives::text::befrolan_well_formed(text)
}
