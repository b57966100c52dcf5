// A flash region of N bytes, document 01's N: the rule of its size. Its definitions and laws also say when two lists of
// bytes are the same, which is what `==` computes.
#![tactic(auto)]

ghost use Rattle.std.specs.Prelude.{◌≡◌};
ghost use Rattle.region.specs.Size.{good_size};

// Whether a region may have this size.
pub fn size_good(size: usize) -> bool
    ensures { result ≡ good_size size }
{
    (4096..=262144).contains(&size) && size % 4096 == 0
}
