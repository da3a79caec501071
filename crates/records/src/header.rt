// The header.
ghost use Rattle.std.specs.Prelude.{◌≡◌};
ghost use Rattle.fitting.specs.Twin.{header_fits};

use crate::zeros;
use table::Sizes;

// Sizes in their limits, the length that they ask for, unused words 0.
pub fn header_fits(t: &[u32]) -> bool
    ensures { result ≡ header_fits t.now }
{
    if t.len() < layout::HEADER_SIZE {
        return false;
    }
    let sizes = Sizes::read(t);
    if !sizes.are_allowed() {
        return false;
    }
    let unused = layout::HEADER_SIZE - layout::HEADER_SPARE;
    (t.len() == sizes.room()) & zeros(t, layout::HEADER_SPARE, unused)
}
